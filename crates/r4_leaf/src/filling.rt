//! Pieces that are put into a leaf while there is room (docs/volume.md, "Leaves").

ghost use Rattle.std.specs.Prelude.{◌≡◌, ◌⊎◌, ℕ, ◌+◌, ◌-◌, ◌<◌, ◌≤◌, ◌++◌, List, [], ◌∷◌, length, take, slice_index, true, false, None};
ghost use Rattle.r4_base.specs.Cell.{bytes_from, entry_unit, fault_in};
ghost use Rattle.r4_base.specs.Key.{IsKey, offset_of, rank};
ghost use Rattle.r4_base.specs.Entries.{IsLawfulEntry};
ghost use Rattle.r4_cde.specs.Shown.{entry_shown};
ghost use Rattle.r4_base.specs.Stat.{attr_of, stat_of};
ghost use Rattle.r4_base.specs.Value.{Byte, Stat};
ghost use Rattle.r4_node40.specs.Loan.{bytes_of, with_bytes};
ghost use Rattle.r4_leaf.specs.Filling.{IsFilled, IsFullFor, Puts};
ghost use Rattle.r4_leaf.specs.Packing.{TakesPiece};
ghost use Rattle.r4_leaf.specs.Pieces.{IsSound, piece_key};
ghost use Rattle.r4_leaf.specs.Units.{LeafUnit};

use crate::cutting::behind;
use crate::entries::{entries_at, need_of, put_entry_at};
use crate::opening::put_bytes_at;
use crate::piece::Piece;
use crate::placing::place_for;
use crate::run::Run;
use r4_base::{ENTRIES, ITEM_HEADER, Key, STAT, TAIL};
use r4_cde::EntryRef;
use r4_node40::NodeMut;

/// Puts a piece behind what the leaf has, as far as there is room, and answers what is left of it.
pub(crate) fn put<'a>(node: &mut NodeMut<'_>, piece: Piece<'a>) -> Option<Piece<'a>>
    requires filled { (lo : ℕ) × (mid : ℕ) × (us : List LeafUnit) × IsFilled lo mid us (bytes_of node.old) × (mid ≤ rank (piece_key piece)) }
    requires sound { IsSound piece }
    ensures block { node.new ≡ with_bytes node.old (bytes_of node.new) }
    ensures takes { TakesPiece piece.entry result (bytes_of node.old) (bytes_of node.new) }
{
    match piece {
        Piece::Stat(key, body) => {
            if put_stat(node, key, body) {
                return None;
            }
            Some(Piece::Stat(key, body))
        }
        Piece::Entry(entry) => {
            if put_entry(node, &entry) {
                return None;
            }
            Some(Piece::Entry(entry))
        }
        Piece::Bytes(key, bytes) => {
            let count = put_run(node, key, &bytes);
            if count == bytes.len() {
                return None;
            }
            Some(Piece::Bytes(behind(&key, count), bytes.tail(count)))
        }
    }
}

/// Puts stat data behind what the leaf has, and answers whether there was room.
fn put_stat(node: &mut NodeMut<'_>, key: Key, body: &[u8]) -> bool
    requires filled { (lo : ℕ) × (mid : ℕ) × (us : List LeafUnit) × IsFilled lo mid us (bytes_of node.old) × (mid ≤ rank key) }
    requires sound { fault_in (stat_of body.now) ≡ None }
    ensures block { node.new ≡ with_bytes node.old (bytes_of node.new) }
    ensures puts { result ≡ true → Puts (rank key) (rank key + 1) ((rank key, Stat (attr_of body.now)) ∷ []) (bytes_of node.old) (bytes_of node.new) }
    ensures same { result ≡ false → bytes_of node.new ≡ bytes_of node.old }
    ensures full { result ≡ false → IsFullFor (rank key, Stat (attr_of body.now)) (bytes_of node.new) }
{
    let place = place_for(node, &key, STAT);
    if usize::from(node.room()) < body.len() + usize::from(ITEM_HEADER) {
        return false;
    }
    put_bytes_at(node, place, &key, STAT, &Run::lent(body));
    true
}

/// Puts bytes behind what the leaf has, as many as there is room for, and answers how many.
fn put_run(node: &mut NodeMut<'_>, key: Key, bytes: &Run<'_>) -> usize
    requires filled { (lo : ℕ) × (mid : ℕ) × (us : List LeafUnit) × IsFilled lo mid us (bytes_of node.old) × (mid ≤ rank key) }
    requires some { 1 ≤ length bytes.now }
    requires short { offset_of key + length bytes.now ≤ 16384 }
    ensures block { node.new ≡ with_bytes node.old (bytes_of node.new) }
    ensures within { result ≤ length bytes.now }
    ensures puts { Puts (rank key) (rank key + result) (bytes_from (rank key) (take result bytes.now)) (bytes_of node.old) (bytes_of node.new) }
    ensures full { result < length bytes.now → IsFullFor (rank key + result, Byte (slice_index bytes.now result)) (bytes_of node.new) }
{
    let place = place_for(node, &key, TAIL);
    let room = usize::from(node.room().saturating_sub(place.header()));
    if room == 0 {
        return 0;
    }
    let count = room.min(bytes.len());
    put_bytes_at(node, place, &key, TAIL, &bytes.head(count));
    count
}

/// Puts an entry behind what the leaf has, and answers whether there was room.
fn put_entry(node: &mut NodeMut<'_>, entry: &EntryRef<'_>) -> bool
    requires filled { (lo : ℕ) × (mid : ℕ) × (us : List LeafUnit) × IsFilled lo mid us (bytes_of node.old) × (mid ≤ rank entry.now.key) }
    requires lawful { IsLawfulEntry (entry_shown entry.now) }
    requires key { IsKey entry.now.key }
    ensures block { node.new ≡ with_bytes node.old (bytes_of node.new) }
    ensures puts { result ≡ true → Puts (rank entry.now.key) (rank entry.now.key + 1) (entry_unit (entry_shown entry.now) ∷ []) (bytes_of node.old) (bytes_of node.new) }
    ensures same { result ≡ false → bytes_of node.new ≡ bytes_of node.old }
    ensures full { result ≡ false → IsFullFor (entry_unit (entry_shown entry.now)) (bytes_of node.new) }
{
    let place = place_for(node, &entry.key, ENTRIES);
    if node.room() < need_of(entry, place.used) + place.header() {
        return false;
    }
    let at = entries_at(node, place);
    put_entry_at(node, place, at, entry);
    true
}
