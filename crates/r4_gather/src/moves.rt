//! What a command asks for that moves an entry (docs/commands.md, "Entries").

ghost use Rattle.std.specs.Prelude.{◌≡◌, ◌<◌, ◌^◌, None, length, IfErr, IfOk, OnErr, OnOk, MatchOption};
ghost use Rattle.r4_base.specs.Name.{key_of_name, name_fault};
ghost use Rattle.r4_content.specs.Entries.{move, rename, replace};
ghost use Rattle.r4_content.specs.Meaning.{named};
ghost use Rattle.r4_content.specs.Objects.{Object as SeenObject};
ghost use Rattle.r4_dir.specs.Coming.{AreNames, IsSmall, object_of};
ghost use Rattle.r4_gather.specs.Asking.{HasAsked, HasEndedEnds, IsAtEnds, IsCause, IsLater, IsStoppedEnds};
ghost use Rattle.r4_gather.specs.Asking.{StaysOver, StopsIn};
ghost use Rattle.std.specs.Prelude.{ℕ, List};

use crate::entries::{entries_of, see_entry, see_parent};
use crate::sight::Sight;
use crate::ways::{see_object, see_target};
use r4_base::Name;
use r4_dir::{Object, is_dir, is_legal, is_loop, is_same_target, name_key};
use r4_search::FetchFault;
use std::alloc::Global;

// An object that moves from its directory to another one.
#[derive(Clone, Copy)]
struct Ends {
    dir: Object,
    object: Object,
    new_dir: Object,
}

// The object that moves, and where to; none where it does not.
#[tactic(auto, using(crate::proofs::Staying::stays_both, crate::proofs::Staying::stays_same))]
fn see_ends<S: Sight>(
    alloc: Global,
    sight: &mut S,
    from: &[Name],
    to: &[Name],
) -> Result<Option<Ends>, FetchFault>
    requires legal { AreNames from.now × AreNames to.now }
    requires some { 0 < length to.now }
    ensures small { IfOk result (λ r. MatchOption r Unit (λ e. IsSmall e.object × IsSmall e.new_dir)) }
    ensures later { IsLater (S.state sight.old) (S.state sight.new) }
    ensures stays { StaysOver (S.device sight.old) (S.device sight.new)
        (S.over sight.old) (S.over sight.new) }
    ensures kept { OnOk result ((S.state sight.new).fault ≡ (S.state sight.old).fault) }
    ensures cause { IfErr result (λ e. IsCause e (S.state sight.new)) }
    ensures comes { IfOk result (λ r. MatchOption r
        (HasEndedEnds from.now to.now (S.state sight.old) (S.state sight.new))
        (λ e. IsAtEnds from.now to.now (S.state sight.old) (S.state sight.new)
        (object_of e.dir) (object_of e.object) (object_of e.new_dir))) }
    ensures stops { OnErr result (IsStoppedEnds from.now to.now (S.state sight.old) (S.state sight.new)) }
{
    let Some(found) = see_entry(alloc, sight, from)? else {
        return Ok(None);
    };
    let Some(place) = see_parent(alloc, sight, to)? else {
        return Ok(None);
    };
    let new_dir = place.here;
    if !is_dir(&new_dir) {
        return Ok(None);
    }
    if is_loop(&found.object, place.above.as_slice(), &new_dir) {
        return Ok(None);
    }
    Ok(Some(Ends {
        dir: found.dir,
        object: found.object,
        new_dir,
    }))
}

// The entries of a directory that another one comes onto.
#[tactic(auto, using(crate::proofs::Staying::stays_both, crate::proofs::Staying::stays_same, crate::proofs::Beginning::asking_goes, crate::proofs::Beginning::asking_on))]
fn see_old<S: Sight>(
    alloc: Global,
    sight: &mut S,
    object: &Object,
    old: &Object,
) -> Result<(), FetchFault>
    requires { IsSmall old.now }
    ensures later { IsLater (S.state sight.old) (S.state sight.new) }
    ensures stays { StaysOver (S.device sight.old) (S.device sight.new)
        (S.over sight.old) (S.over sight.new) }
    ensures kept { OnOk result ((S.state sight.new).fault ≡ (S.state sight.old).fault) }
    ensures cause { IfErr result (λ e. IsCause e (S.state sight.new)) }
    ensures asked { (dir new_dir : SeenObject) (n m : List ℕ) → OnOk result
        (HasAsked (replace dir n (object_of object.now) new_dir m (object_of old.now))
        (S.state sight.old) (S.state sight.new)) }
    ensures stops { (dir new_dir : SeenObject) (n m : List ℕ) → OnErr result
        (StopsIn (replace dir n (object_of object.now) new_dir m (object_of old.now))
        (S.state sight.old) (S.state sight.new)) }
{
    if is_dir(object) && is_dir(old) {
        sight.see_all(alloc, entries_of(old.target.oid))?;
    }
    Ok(())
}

// The key of the new name, the object that has it already, and the entries of that one.
#[tactic(auto, using(crate::proofs::Staying::stays_both, crate::proofs::Staying::stays_same))]
fn see_move<S: Sight>(
    alloc: Global,
    sight: &mut S,
    ends: &Ends,
    new_name: &Name,
) -> Result<(), FetchFault>
    requires small { IsSmall ends.now.object × IsSmall ends.now.new_dir }
    requires legal { name_fault new_name.now ≡ None }
    ensures later { IsLater (S.state sight.old) (S.state sight.new) }
    ensures stays { StaysOver (S.device sight.old) (S.device sight.new)
        (S.over sight.old) (S.over sight.new) }
    ensures kept { OnOk result ((S.state sight.new).fault ≡ (S.state sight.old).fault) }
    ensures cause { IfErr result (λ e. IsCause e (S.state sight.new)) }
    ensures asked { (dir : SeenObject) (n : List ℕ) → OnOk result
        (HasAsked (move dir n (object_of ends.now.object) (object_of ends.now.new_dir) new_name.now)
        (S.state sight.old) (S.state sight.new)) }
    ensures stops { (dir : SeenObject) (n : List ℕ) → OnErr result
        (StopsIn (move dir n (object_of ends.now.object) (object_of ends.now.new_dir) new_name.now)
        (S.state sight.old) (S.state sight.new)) }
{
    let key = name_key(ends.new_dir.target.oid, new_name);
    let Some(target) = see_target(alloc, sight, key, new_name)? else {
        return Ok(());
    };
    if is_same_target(target, ends.object.target) {
        return Ok(());
    }
    match see_object(alloc, sight, target)? {
        Some(old) => see_old(alloc, sight, &ends.object, &old),
        None => Ok(()),
    }
}

/// What `rename` asks for.
#[tactic(auto, using(crate::proofs::Staying::stays_both, crate::proofs::Staying::stays_same))]
pub(crate) fn see_for_rename<S: Sight>(
    alloc: Global,
    sight: &mut S,
    from: &[Name],
    to: &[Name],
) -> Result<(), FetchFault>
    ensures later { IsLater (S.state sight.old) (S.state sight.new) }
    ensures stays { StaysOver (S.device sight.old) (S.device sight.new)
        (S.over sight.old) (S.over sight.new) }
    ensures kept { OnOk result ((S.state sight.new).fault ≡ (S.state sight.old).fault) }
    ensures cause { IfErr result (λ e. IsCause e (S.state sight.new)) }
    ensures asked { OnOk result (HasAsked (named from.now (named to.now (rename from.now to.now)))
        (S.state sight.old) (S.state sight.new)) }
    ensures stops { OnErr result (StopsIn (named from.now (named to.now (rename from.now to.now)))
        (S.state sight.old) (S.state sight.new)) }
{
    if !is_legal(from) || !is_legal(to) || to.is_empty() {
        return Ok(());
    }
    match see_ends(alloc, sight, from, to)? {
        Some(ends) => see_move(alloc, sight, &ends, &to[to.len() - 1]),
        None => Ok(()),
    }
}
