//! The ways of commands to the objects that they name, asked for key by key (docs/commands.md, "Ways").

ghost use Rattle.std.specs.Prelude.{◌≡◌, ◌<◌, ◌^◌, ◌+◌, ◌++◌, ◌∷◌, [], List, None, IfErr, IfOk, OnErr, OnOk};
ghost use Rattle.std.specs.Prelude.{MatchOption};
ghost use Rattle.std.specs.FinMap.{find};
ghost use Rattle.std.specs.Ordering.{nat_cmp};
ghost use Rattle.r4_base.specs.Key.{rank};
ghost use Rattle.r4_base.specs.Name.{name_fault};
ghost use Rattle.r4_content.specs.Objects.{Object as SeenObject};
ghost use Rattle.r4_content.specs.Walk.{target_in};
ghost use Rattle.r4_content.specs.Ways.{object_at, step, to_object};
ghost use Rattle.r4_dir.specs.Coming.{AreNames, IsSmall, object_of, place_of};
ghost use Rattle.r4_gather.specs.Asking.{EndsIn, HasEnded, IsAt, IsCause, IsLater, IsStopped, StaysOver};

use crate::sight::Sight;
use r4_base::{Key, Name, OBJECT_END, ROOT_OBJECT, Target};
use r4_dir::{Object, Place, attr_at, entry_at, is_dir, name_key};
use r4_search::FetchFault;
use std::alloc::Global;

/// The object that an entry names; none where it has no stat data, or can be no object.
#[tactic(auto, using(crate::proofs::Staying::stays_both, crate::proofs::Staying::stays_same, crate::proofs::Beginning::asking_goes, crate::proofs::Beginning::asking_on))]
pub fn see_object<S: Sight>(
    alloc: Global,
    sight: &mut S,
    target: Target,
) -> Result<Option<Object>, FetchFault>
    ensures small { IfOk result (λ r. MatchOption r Unit IsSmall) }
    ensures later { IsLater (S.state sight.old) (S.state sight.new) }
    ensures stays { StaysOver (S.device sight.old) (S.device sight.new)
        (S.over sight.old) (S.over sight.new) }
    ensures kept { OnOk result ((S.state sight.new).fault ≡ (S.state sight.old).fault) }
    ensures cause { IfErr result (λ e. IsCause e (S.state sight.new)) }
    ensures comes { IfOk result (λ r. MatchOption r
        (HasEnded (object_at target) (S.state sight.old) (S.state sight.new))
        (λ o. IsAt (object_at target) (S.state sight.old) (S.state sight.new) (object_of o))) }
    ensures stops { OnErr result (IsStopped (object_at target) (S.state sight.old) (S.state sight.new)) }
{
    if target.locality >= OBJECT_END || target.oid.0 >= OBJECT_END {
        return Ok(None);
    }
    let key = Key::stat(target.locality, target.ordering, target.oid);
    sight.see(alloc, key)?;
    match attr_at(sight.parts(), key) {
        Some(attr) => Ok(Some(Object { target, attr })),
        None => Ok(None),
    }
}

/// What the entry of this name names, at the name's key; none where there is none.
#[tactic(auto, using(crate::proofs::Staying::stays_both, crate::proofs::Staying::stays_same))]
pub(crate) fn see_target<S: Sight>(
    alloc: Global,
    sight: &mut S,
    key: Key,
    name: &Name,
) -> Result<Option<Target>, FetchFault>
    ensures later { IsLater (S.state sight.old) (S.state sight.new) }
    ensures stays { StaysOver (S.device sight.old) (S.device sight.new)
        (S.over sight.old) (S.over sight.new) }
    ensures kept { OnOk result ((S.state sight.new).fault ≡ (S.state sight.old).fault) }
    ensures cause { IfErr result (λ e. IsCause e (S.state sight.new)) }
    ensures asked { OnOk result
        ((S.state sight.new).asked ≡ (rank key, rank key + 1) ∷ (S.state sight.old).asked) }
    ensures stops { OnErr result
        (EndsIn (S.state sight.new).asked ((rank key, rank key + 1) ∷ (S.state sight.old).asked)) }
    ensures target { IfOk result (λ r. r
        ≡ target_in name.now (find nat_cmp (rank key) (S.state sight.new).seen)) }
{
    sight.see(alloc, key)?;
    let Some(entry) = entry_at(sight.parts(), key) else {
        return Ok(None);
    };
    Ok((entry.name.as_slice() == name.as_slice()).then_some(entry.target))
}

/// One step down, to the object of a name; none where there is none.
#[tactic(auto, using(crate::proofs::Staying::stays_both, crate::proofs::Staying::stays_same, crate::proofs::Beginning::asking_goes, crate::proofs::Beginning::asking_on))]
pub fn see_step<S: Sight>(
    alloc: Global,
    sight: &mut S,
    here: &Object,
    name: &Name,
) -> Result<Option<Object>, FetchFault>
    requires small { here.now.target.oid.0 < 2 ^ 60 }
    requires legal { name_fault name.now ≡ None }
    ensures small { IfOk result (λ r. MatchOption r Unit IsSmall) }
    ensures later { IsLater (S.state sight.old) (S.state sight.new) }
    ensures stays { StaysOver (S.device sight.old) (S.device sight.new)
        (S.over sight.old) (S.over sight.new) }
    ensures kept { OnOk result ((S.state sight.new).fault ≡ (S.state sight.old).fault) }
    ensures cause { IfErr result (λ e. IsCause e (S.state sight.new)) }
    ensures comes { (above : List SeenObject) → IfOk result (λ r. MatchOption r
        (HasEnded (λ next. step name.now next
        (record { here = object_of here.now; above = above })) (S.state sight.old) (S.state sight.new))
        (λ o. IsAt (λ next. step name.now next
        (record { here = object_of here.now; above = above })) (S.state sight.old) (S.state sight.new)
        (record { here = object_of o; above = above ++ object_of here.now ∷ [] }))) }
    ensures stops { (above : List SeenObject) → OnErr result (IsStopped (λ next. step name.now next
        (record { here = object_of here.now; above = above })) (S.state sight.old) (S.state sight.new)) }
{
    if !is_dir(here) {
        return Ok(None);
    }
    let key = name_key(here.target.oid, name);
    match see_target(alloc, sight, key, name)? {
        Some(target) => see_object(alloc, sight, target),
        None => Ok(None),
    }
}

/// The way along a path, from the root; none where it ends before.
#[tactic(auto, unfolding(r4_content::specs::Ways::to_object), using(crate::proofs::Staying::stays_both, crate::proofs::Staying::stays_same, crate::proofs::Beginning::asking_goes, crate::proofs::Beginning::asking_on))]
pub fn see_way<S: Sight>(
    alloc: Global,
    sight: &mut S,
    path: &[Name],
) -> Result<Option<Place>, FetchFault>
    requires legal { AreNames path.now }
    ensures small { IfOk result (λ r. MatchOption r Unit (λ p. IsSmall p.here)) }
    ensures later { IsLater (S.state sight.old) (S.state sight.new) }
    ensures stays { StaysOver (S.device sight.old) (S.device sight.new)
        (S.over sight.old) (S.over sight.new) }
    ensures kept { OnOk result ((S.state sight.new).fault ≡ (S.state sight.old).fault) }
    ensures cause { IfErr result (λ e. IsCause e (S.state sight.new)) }
    ensures comes { IfOk result (λ r. MatchOption r
        (HasEnded (to_object path.now) (S.state sight.old) (S.state sight.new))
        (λ p. IsAt (to_object path.now) (S.state sight.old) (S.state sight.new) (place_of p))) }
    ensures stops { OnErr result (IsStopped (to_object path.now) (S.state sight.old) (S.state sight.new)) }
{
    let key = Key::stat(ROOT_OBJECT.locality, ROOT_OBJECT.ordering, ROOT_OBJECT.oid);
    sight.see(alloc, key)?;
    let Some(attr) = attr_at(sight.parts(), key) else {
        return Ok(None);
    };
    let mut here = Object {
        target: ROOT_OBJECT,
        attr,
    };
    let mut above = Vec::new(alloc);
    for name in path {
        match see_step(alloc, sight, &here, name)? {
            Some(next) => {
                above.push(here)?;
                here = next;
            }
            None => return Ok(None),
        }
    }
    Ok(Some(Place { here, above }))
}
