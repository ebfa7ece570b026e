//! What is added up under ids.

ghost use Rattle.std.specs.Prelude.{◌≡◌, ◌≤◌, ◌++◌, ◌∷◌, [], List, OnOk, if◌then◌else◌};
ghost use Rattle.std.specs.Bool.{OnFalse};
ghost use Rattle.r4_base.specs.Key.{offset_of};
ghost use Rattle.r4_check_objects.specs.Known.{AddsUnder, AreSumsOf, IsKnown};
ghost use Rattle.r4_check_objects.specs.Objects.{ends_past, is_directory_at, is_own, is_owner, is_past, is_stray, names_one};
ghost use Rattle.r4_check_objects.specs.Objects.{once, place_of, share_of, strays};
ghost use Rattle.r4_check_objects.specs.declared.held.Held.{Held as Found};

use crate::held::{Held, Thing, is_same};
use crate::known::{Known, is_directory};
use crate::table::Table;
use r4_base::{BLOCK_BYTES, GREATEST_SIZE, Memory, ROOT_OBJECT};

/// What is added up: entries under their directory; those that name directories; under each id the entries that name its
/// owner; those of them in reached directories; the bytes of its tails, and the blocks of its extents; its parts of a body
/// that go past its end; and what may not be there.
#[derive(Clone, Copy)]
pub(crate) enum Part {
    Entries,
    Directories,
    Links,
    Reached,
    Tails,
    Blocks,
    Past,
    Strays,
}

/// A number under each id: none is 0.
pub(crate) type Sums = Table<u64>;

/// Adds what one thing more counts for a part.
pub(crate) fn add_share(
    sums: &mut Sums,
    part: Part,
    known: &Known,
    held: &Held,
) -> Result<(), Memory>
    ensures { (found before : List Found) → IsKnown found known.now
        → AreSumsOf part found before sums.old
        → OnOk result (AreSumsOf part found (before ++ held.now ∷ []) sums.new) }
{
    if !may_count(part, held) {
        return Ok(());
    }
    let more = share_of(part, known, held);
    if more > 0 {
        add_under(sums, place_of(part, held), more)?;
    }
    Ok(())
}

// Whether a thing is one that may count for a part, whatever is known: most parts are of one kind of
// things.
fn may_count(part: Part, held: &Held) -> bool
    ensures { OnFalse result ((found : List Found) → share_of part found held.now ≡ 0) }
{
    match part {
        Part::Entries | Part::Directories | Part::Links | Part::Reached => held.target().is_some(),
        Part::Tails => held.tail_bytes() > 0,
        Part::Blocks => held.extent_blocks() > 0,
        Part::Past => matches!(held.thing, Thing::Tail(_) | Thing::Extent(_)),
        Part::Strays => true,
    }
}

// Adds a number under an id.
fn add_under(sums: &mut Sums, id: u64, more: u64) -> Result<(), Memory>
    ensures { OnOk result (AddsUnder id more sums.old sums.new) }
{
    let sum = sums.get(id).saturating_add(more);
    sums.put(id, sum)?;
    Ok(())
}

// The id under which a thing counts for a part.
fn place_of(part: Part, held: &Held) -> u64
    ensures { result ≡ place_of part held.now }
{
    match part {
        Part::Links | Part::Reached => match held.target() {
            Some(target) => target.oid.0,
            None => 0,
        },
        _ => held.id(),
    }
}

// What a thing counts for a part.
fn share_of(part: Part, known: &Known, held: &Held) -> u64
    ensures { (found : List Found) → IsKnown found known.now → result ≡ share_of part found held.now }
{
    match part {
        Part::Entries => once(held.target().is_some()),
        Part::Directories => once(names_directory(known, held)),
        Part::Links => once(names_owner(known, held)),
        Part::Reached => once(names_owner(known, held) && known.reached.get(held.id())),
        Part::Tails => number_if(is_own(known, held), held.tail_bytes()),
        Part::Blocks => number_if(is_own(known, held), held.extent_blocks()),
        Part::Past => once(is_past(known, held)),
        Part::Strays => once(is_stray(known, held)),
    }
}

// One, where a test holds.
fn once(holds: bool) -> u64
    ensures { result ≡ once holds }
{
    number_if(holds, 1)
}

// The number, where a test holds, else none.
fn number_if(holds: bool, number: u64) -> u64
    ensures { result ≡ (if holds then number else 0) }
{
    if holds { number } else { 0 }
}

// Whether it is an entry that names a directory.
fn names_directory(known: &Known, held: &Held) -> bool
    ensures { (found : List Found) → IsKnown found known.now
        → result ≡ names_one (is_directory_at found) held.now }
{
    match held.target() {
        Some(target) => is_directory(known.facts_at(&target)),
        None => false,
    }
}

// Whether it is an entry that names the owner of an id.
fn names_owner(known: &Known, held: &Held) -> bool
    ensures { (found : List Found) → IsKnown found known.now
        → result ≡ names_one (is_owner found) held.now }
{
    match held.target() {
        Some(target) => known.is_owner(&target),
        None => false,
    }
}

// Whether it is at its place, and the owner of an id has its key.
fn is_own(known: &Known, held: &Held) -> bool
    ensures { (found : List Found) → IsKnown found known.now → result ≡ is_own found held.now }
{
    held.is_placed() && known.is_owner(&held.object())
}

// Whether it is a part of the owner's body that goes past its end.
fn is_past(known: &Known, held: &Held) -> bool
    ensures { (found : List Found) → IsKnown found known.now → result ≡ is_past found held.now }
{
    is_own(known, held)
        && match known.owner_facts(held.id()) {
            Some(facts) => facts.size <= GREATEST_SIZE && ends_past(facts.size, held),
            None => false,
        }
}

// Whether it is a part of a body that goes past the end of a file of so many bytes.
fn ends_past(size: u64, held: &Held) -> bool
    requires { size ≤ GREATEST_SIZE }
    ensures { result ≡ ends_past size (offset_of held.now.key) held.now.thing }
{
    let offset = held.key.el[3];
    match held.thing {
        Thing::Tail(bytes) => bytes > size || offset > size - bytes,
        Thing::Extent(blocks) => {
            let most = size.div_ceil(BLOCK_BYTES);
            blocks > most || offset > BLOCK_BYTES * (most - blocks)
        }
        Thing::Stat(_) | Thing::Entry(_) => false,
    }
}

// Whether it may not be there.
fn is_stray(known: &Known, held: &Held) -> bool
    ensures { (found : List Found) → IsKnown found known.now → result ≡ is_stray found held.now }
{
    !held.is_placed() || strays(known, held)
}

// Whether it may not be there, its key aside.
fn strays(known: &Known, held: &Held) -> bool
    ensures { (found : List Found) → IsKnown found known.now
        → result ≡ strays found held.now held.now.thing }
{
    let object = held.object();
    match held.thing {
        Thing::Stat(facts) => {
            !known.is_owner(&object) || is_same(&object, &ROOT_OBJECT) && !facts.directory
        }
        Thing::Entry(target) => {
            !known.is_directory_id(held.id()) || known.facts_at(&target).is_none()
        }
        Thing::Tail(_) | Thing::Extent(_) => {
            !known.is_owner(&object) || known.is_directory_id(held.id())
        }
    }
}
