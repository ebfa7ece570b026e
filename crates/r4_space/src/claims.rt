//! Blocks that are held or deferred for atoms.

ghost use Rattle.std.specs.Prelude.{◌≡◌, ℕ, ◌<◌, ◌≤◌, length, map, filter, replicate, true, false, not, ◌||◌, ◌&&◌, slice_index_or, slice_set, if◌then◌else◌, vec_capacity};
ghost use Rattle.std.specs.List.{range_with_len};
ghost use Rattle.r4_base.specs.Bitmap.{is_fixed};
ghost use Rattle.r4_space.specs.Space.{claims_of, claims_without, is_claimed, is_marked_after, is_taken_by, renamed};
ghost use Rattle.r4_space.specs.Kept.{AreClaimed, AreWithin};

use crate::bits::Bits;
use crate::taken::Taken;
use crate::things::Claim;
use r4_base::{AtomNo, is_fixed};

/// What belonged to `gone` belongs to `kept`.
pub fn rename(claims: &mut [Claim], kept: AtomNo, gone: AtomNo)
    ensures { claims.new ≡ map (renamed kept gone) claims.old }
{
    for claim in claims.iter_mut() {
        *claim = renamed(*claim, kept, gone);
    }
}

fn renamed(claim: Claim, kept: AtomNo, gone: AtomNo) -> Claim
    ensures { result ≡ renamed kept gone claim }
{
    if claim.atom.0 != gone.0 {
        return claim;
    }
    Claim {
        atom: kept,
        block: claim.block,
    }
}

/// Drops the claims of an atom.
pub fn drop_claims(claims: &mut Vec<Claim>, atom: AtomNo)
    ensures items { claims.new.items ≡ claims_without atom claims.old.items }
    ensures capacity { vec_capacity claims.new ≡ vec_capacity claims.old }
{
    claims.retain(|c| c.atom.0 != atom.0);
}

/// Takes each block that is marked.
pub fn take_marked(taken: &mut Taken, marked: &Bits)
    requires { length marked.now ≡ length taken.old }
    ensures size { length taken.new ≡ length taken.old }
    ensures each { (b : ℕ) → b < length taken.old → slice_index_or taken.new b true ≡ (slice_index_or taken.old b true || slice_index_or marked.now b false) }
{
    for b in 0..marked.len() {
        if marked.has(b) {
            taken.take(b);
        }
    }
}

/// Marks the placed blocks, and places none.
fn mark_placed(marked: &mut Bits, placed: &mut Bits)
    requires { length placed.old ≡ length marked.old }
    ensures placed { placed.new ≡ replicate (length placed.old) false }
    ensures size { length marked.new ≡ length marked.old }
    ensures marked { (b : ℕ) → slice_index_or marked.new b false ≡ (slice_index_or marked.old b false || slice_index_or placed.old b false) }
{
    marked.join(placed);
    placed.wipe();
}

/// Unmarks the blocks that are claimed for an atom, but for the fixed ones.
fn unmark(marked: &mut Bits, claims: &[Claim], atom: AtomNo)
    requires { AreWithin (length marked.old) claims.now }
    ensures size { length marked.new ≡ length marked.old }
    ensures each { (b : ℕ) → slice_index_or marked.new b false ≡ (slice_index_or marked.old b false && (is_fixed (length marked.old) b || not (is_claimed (claims_of atom claims.now) b))) }
{
    let blocks = marked.len();
    for claim in claims {
        if claim.atom.0 == atom.0 && !is_fixed(blocks, claim.block.0) {
            marked.take(claim.block.0);
        }
    }
}

/// Marks the placed blocks and unmarks those that are deferred for an atom, but for the fixed ones.
pub fn settle_marks(marked: &mut Bits, placed: &mut Bits, deferred: &[Claim], atom: AtomNo)
    requires size { length placed.old ≡ length marked.old }
    requires within { AreWithin (length marked.old) deferred.now }
    requires fixed { (b : ℕ) → b < length marked.old → is_fixed (length marked.old) b ≡ true → slice_index_or marked.old b false ≡ true }
    ensures marked { marked.new ≡ map (is_marked_after (length marked.old) marked.old placed.old (claims_of atom deferred.now)) (range_with_len 0 (length marked.old)) }
    ensures placed { placed.new ≡ replicate (length placed.old) false }
{
    mark_placed(marked, placed);
    unmark(marked, deferred, atom);
}

/// Notes a block that is claimed already as claimed twice.
pub fn claim_again(claimed: &Bits, twice: &mut Bits, block: u64)
    requires within { block < length claimed.now }
    requires size { length twice.old ≡ length claimed.now }
    ensures { twice.new ≡ (if slice_index_or claimed.now block false then slice_set twice.old block true else twice.old) }
{
    if claimed.has(block) {
        twice.put(block);
    }
}

/// Whether a block is claimed for another atom.
fn is_others(claims: &[Claim], atom: AtomNo, block: u64) -> bool
    ensures { result ≡ is_claimed (claims_without atom claims.now) block }
{
    for claim in claims {
        if claim.atom.0 != atom.0 && claim.block.0 == block {
            return true;
        }
    }
    false
}

/// Whether a block is held or deferred for another atom. Only one that is claimed more than once is looked for.
fn is_kept(twice: &Bits, held: &[Claim], deferred: &[Claim], atom: AtomNo, block: u64) -> bool
    requires { block < length twice.now }
    ensures { result ≡ (slice_index_or twice.now block false && (is_claimed (claims_without atom held.now) block || is_claimed (claims_without atom deferred.now) block)) }
{
    twice.has(block) && (is_others(held, atom, block) || is_others(deferred, atom, block))
}

/// Takes the blocks of an atom among these out of those that are claimed, but for those that another atom claims.
fn unclaim_row(
    claimed: &mut Bits,
    twice: &Bits,
    row: &[Claim],
    held: &[Claim],
    deferred: &[Claim],
    atom: AtomNo,
)
    requires size { length twice.now ≡ length claimed.old }
    requires within { AreWithin (length claimed.old) row.now }
    ensures size { length claimed.new ≡ length claimed.old }
    ensures each { (b : ℕ) → b < length claimed.old → slice_index_or claimed.new b false ≡ (slice_index_or claimed.old b false && not (is_claimed (claims_of atom row.now) b && not (slice_index_or twice.now b false && (is_claimed (claims_without atom held.now) b || is_claimed (claims_without atom deferred.now) b)))) }
{
    for claim in row {
        let block = claim.block.0;
        if claim.atom.0 == atom.0 && !is_kept(twice, held, deferred, atom, block) {
            claimed.take(block);
        }
    }
}

/// Leaves those claimed that other atoms claim.
pub fn unclaim(claimed: &mut Bits, twice: &Bits, held: &[Claim], deferred: &[Claim], atom: AtomNo)
    requires within { AreWithin (length claimed.old) held.now }
    requires within_too { AreWithin (length claimed.old) deferred.now }
    requires are { AreClaimed (length claimed.old) held.now deferred.now claimed.old twice.now }
    ensures size { length claimed.new ≡ length claimed.old }
    ensures each { (b : ℕ) → b < length claimed.old → slice_index_or claimed.new b false ≡ (is_claimed (claims_without atom held.now) b || is_claimed (claims_without atom deferred.now) b) }
{
    unclaim_row(claimed, twice, held, held, deferred, atom);
    unclaim_row(claimed, twice, deferred, held, deferred, atom);
}

/// Gives the blocks of an atom among these back that are neither marked nor claimed any more.
pub fn give_back(taken: &mut Taken, marked: &Bits, claimed: &Bits, row: &[Claim], atom: AtomNo)
    requires size { length marked.now ≡ length taken.old }
    requires size_too { length claimed.now ≡ length taken.old }
    requires within { AreWithin (length taken.old) row.now }
    ensures size { length taken.new ≡ length taken.old }
    ensures each { (b : ℕ) → b < length taken.old → slice_index_or taken.new b true ≡ (slice_index_or taken.old b true && not (is_claimed (claims_of atom row.now) b && not (slice_index_or marked.now b false || slice_index_or claimed.now b false))) }
{
    for claim in row {
        let block = claim.block.0;
        if claim.atom.0 == atom.0 && !(marked.has(block) || claimed.has(block)) {
            taken.give(block);
        }
    }
}
