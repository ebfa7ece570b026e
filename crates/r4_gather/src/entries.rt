//! What commands on the entries of directories ask for (docs/commands.md, "Entries").

ghost use Rattle.std.specs.Prelude.{◌≡◌, ◌<◌, ◌^◌, length, IfErr, IfOk, OnErr, OnOk, MatchOption};
ghost use Rattle.r4_content.specs.Entries.{create, entries_from, entries_to, link, mkdir, names, rmdir, unlink};
ghost use Rattle.r4_content.specs.Held.{interval_of};
ghost use Rattle.r4_content.specs.Meaning.{named};
ghost use Rattle.r4_content.specs.declared.reply.Reply.{Reply as SeenReply};
ghost use Rattle.r4_base.specs.declared.things.Oid.{Oid as SeenOid};
ghost use Rattle.r4_dir.specs.Coming.{AreNames, IsSmall, object_of, place_of};
ghost use Rattle.r4_gather.specs.Asking.{HasAsked, HasAskedFree, HasEndedEntry, HasEndedParent, IsAtEntry};
ghost use Rattle.r4_gather.specs.Asking.{IsAtParent, StaysOver};
ghost use Rattle.r4_gather.specs.Asking.{IsCause, IsLater, IsStoppedEntry, IsStoppedParent, StopsFree, StopsIn};
ghost use Rattle.r4_gather.specs.Finding.{place_seen};

use crate::sight::Sight;
use crate::ways::{see_step, see_way};
use r4_base::{Key, Name, Oid};
use r4_content::Interval;
use r4_dir::{Object, Place, is_dir, is_legal, name_key};
use r4_search::FetchFault;
use std::alloc::Global;

// The place above the last name of a path; none where the way ends before.
#[tactic(auto, unfolding(r4_content::specs::Ways::to_parent), using(crate::proofs::Staying::stays_both, crate::proofs::Staying::stays_same))]
pub(crate) fn see_parent<S: Sight>(
    alloc: Global,
    sight: &mut S,
    path: &[Name],
) -> Result<Option<Place>, FetchFault>
    requires legal { AreNames path.now }
    requires some { 0 < length path.now }
    ensures small { IfOk result (λ r. MatchOption r Unit (λ p. IsSmall p.here)) }
    ensures later { IsLater (S.state sight.old) (S.state sight.new) }
    ensures stays { StaysOver (S.device sight.old) (S.device sight.new)
        (S.over sight.old) (S.over sight.new) }
    ensures kept { OnOk result ((S.state sight.new).fault ≡ (S.state sight.old).fault) }
    ensures cause { IfErr result (λ e. IsCause e (S.state sight.new)) }
    ensures comes { (of_root : SeenReply) → IfOk result (λ r. MatchOption r
        (HasEndedParent of_root path.now (S.state sight.old) (S.state sight.new))
        (λ p. IsAtParent of_root path.now (S.state sight.old) (S.state sight.new) (place_of p))) }
    ensures stops { (of_root : SeenReply) → OnErr result
        (IsStoppedParent of_root path.now (S.state sight.old) (S.state sight.new)) }
{
    see_way(alloc, sight, &path[..path.len() - 1])
}

/// An object that was seen with its entry: the directory of that, and those above the directory.
#[derive(Drop)]
pub(crate) struct SeenFound {
    pub dir: Object,
    pub object: Object,
    pub above: Vec<Object>,
}

// The object of a path of names with its entry; none where the way ends before.
#[tactic(auto, using(crate::proofs::Staying::stays_both, crate::proofs::Staying::stays_same))]
fn see_named<S: Sight>(
    alloc: Global,
    sight: &mut S,
    path: &[Name],
) -> Result<Option<SeenFound>, FetchFault>
    requires legal { AreNames path.now }
    requires some { 0 < length path.now }
    ensures small { IfOk result (λ r. MatchOption r Unit (λ f. IsSmall f.dir × IsSmall f.object)) }
    ensures later { IsLater (S.state sight.old) (S.state sight.new) }
    ensures stays { StaysOver (S.device sight.old) (S.device sight.new)
        (S.over sight.old) (S.over sight.new) }
    ensures kept { OnOk result ((S.state sight.new).fault ≡ (S.state sight.old).fault) }
    ensures cause { IfErr result (λ e. IsCause e (S.state sight.new)) }
    ensures comes { (of_root : SeenReply) → IfOk result (λ r. MatchOption r
        (HasEndedEntry of_root path.now (S.state sight.old) (S.state sight.new))
        (λ f. IsAtEntry of_root path.now (S.state sight.old) (S.state sight.new)
        (object_of f.dir) (place_seen f))) }
    ensures stops { (of_root : SeenReply) → OnErr result
        (IsStoppedEntry of_root path.now (S.state sight.old) (S.state sight.new)) }
{
    let Some(place) = see_parent(alloc, sight, path)? else {
        return Ok(None);
    };
    let dir = place.here;
    match see_step(alloc, sight, &dir, &path[path.len() - 1])? {
        Some(object) => Ok(Some(SeenFound {
            dir,
            object,
            above: place.above,
        })),
        None => Ok(None),
    }
}

// The same, where the path may be that of the root, which has no entry.
#[tactic(auto, unfolding(r4_content::specs::Ways::to_entry, r4_content::specs::Ways::to_parent), using(crate::proofs::Staying::stays_both, crate::proofs::Staying::stays_same))]
pub(crate) fn see_entry<S: Sight>(
    alloc: Global,
    sight: &mut S,
    path: &[Name],
) -> Result<Option<SeenFound>, FetchFault>
    requires legal { AreNames path.now }
    ensures small { IfOk result (λ r. MatchOption r Unit (λ f. IsSmall f.dir × IsSmall f.object)) }
    ensures later { IsLater (S.state sight.old) (S.state sight.new) }
    ensures stays { StaysOver (S.device sight.old) (S.device sight.new)
        (S.over sight.old) (S.over sight.new) }
    ensures kept { OnOk result ((S.state sight.new).fault ≡ (S.state sight.old).fault) }
    ensures cause { IfErr result (λ e. IsCause e (S.state sight.new)) }
    ensures comes { (of_root : SeenReply) → IfOk result (λ r. MatchOption r
        (HasEndedEntry of_root path.now (S.state sight.old) (S.state sight.new))
        (λ f. IsAtEntry of_root path.now (S.state sight.old) (S.state sight.new)
        (object_of f.dir) (place_seen f))) }
    ensures stops { (of_root : SeenReply) → OnErr result
        (IsStoppedEntry of_root path.now (S.state sight.old) (S.state sight.new)) }
{
    if path.is_empty() {
        return Ok(None);
    }
    see_named(alloc, sight, path)
}

// The key of a path's last name, where its directory is there.
#[tactic(auto, unfolding(r4_content::specs::Ways::to_free, r4_content::specs::Ways::to_parent), using(crate::proofs::Staying::stays_both, crate::proofs::Staying::stays_same, crate::proofs::Beginning::asking_goes, crate::proofs::Beginning::asking_on, crate::proofs::Quiet::free_quiet))]
pub(crate) fn see_free<S: Sight>(
    alloc: Global,
    sight: &mut S,
    path: &[Name],
) -> Result<(), FetchFault>
    requires legal { AreNames path.now }
    ensures later { IsLater (S.state sight.old) (S.state sight.new) }
    ensures stays { StaysOver (S.device sight.old) (S.device sight.new)
        (S.over sight.old) (S.over sight.new) }
    ensures kept { OnOk result ((S.state sight.new).fault ≡ (S.state sight.old).fault) }
    ensures cause { IfErr result (λ e. IsCause e (S.state sight.new)) }
    ensures asked { OnOk result (HasAskedFree path.now (S.state sight.old) (S.state sight.new)) }
    ensures stops { OnErr result (StopsFree path.now (S.state sight.old) (S.state sight.new)) }
{
    if path.is_empty() {
        return Ok(());
    }
    let last = path.len() - 1;
    let Some(place) = see_way(alloc, sight, &path[..last])? else {
        return Ok(());
    };
    if !is_dir(&place.here) {
        return Ok(());
    }
    sight.see(alloc, name_key(place.here.target.oid, &path[last]))
}

/// What a command asks for that makes an object: the way to its directory, and the key of its name there.
#[tactic(auto, using(crate::proofs::Staying::stays_both, crate::proofs::Staying::stays_same))]
pub(crate) fn see_for_new<S: Sight>(
    alloc: Global,
    sight: &mut S,
    path: &[Name],
) -> Result<(), FetchFault>
    ensures later { IsLater (S.state sight.old) (S.state sight.new) }
    ensures stays { StaysOver (S.device sight.old) (S.device sight.new)
        (S.over sight.old) (S.over sight.new) }
    ensures kept { OnOk result ((S.state sight.new).fault ≡ (S.state sight.old).fault) }
    ensures cause { IfErr result (λ e. IsCause e (S.state sight.new)) }
    ensures create { (oid : SeenOid) → OnOk result
        (HasAsked (named path.now (create path.now oid)) (S.state sight.old) (S.state sight.new)) }
    ensures mkdir { (oid : SeenOid) → OnOk result
        (HasAsked (named path.now (mkdir path.now oid)) (S.state sight.old) (S.state sight.new)) }
    ensures create_stops { (oid : SeenOid) → OnErr result
        (StopsIn (named path.now (create path.now oid)) (S.state sight.old) (S.state sight.new)) }
    ensures mkdir_stops { (oid : SeenOid) → OnErr result
        (StopsIn (named path.now (mkdir path.now oid)) (S.state sight.old) (S.state sight.new)) }
{
    if !is_legal(path) {
        return Ok(());
    }
    see_free(alloc, sight, path)
}

/// What `link` asks for.
#[tactic(auto, using(crate::proofs::Staying::stays_both, crate::proofs::Staying::stays_same, crate::proofs::Beginning::asking_goes, crate::proofs::Beginning::asking_on))]
pub(crate) fn see_for_link<S: Sight>(
    alloc: Global,
    sight: &mut S,
    from: &[Name],
    to: &[Name],
) -> Result<(), FetchFault>
    ensures later { IsLater (S.state sight.old) (S.state sight.new) }
    ensures stays { StaysOver (S.device sight.old) (S.device sight.new)
        (S.over sight.old) (S.over sight.new) }
    ensures kept { OnOk result ((S.state sight.new).fault ≡ (S.state sight.old).fault) }
    ensures cause { IfErr result (λ e. IsCause e (S.state sight.new)) }
    ensures asked { OnOk result (HasAsked (named from.now (named to.now (link from.now to.now)))
        (S.state sight.old) (S.state sight.new)) }
    ensures stops { OnErr result (StopsIn (named from.now (named to.now (link from.now to.now)))
        (S.state sight.old) (S.state sight.new)) }
{
    if !is_legal(from) || !is_legal(to) {
        return Ok(());
    }
    let Some(place) = see_way(alloc, sight, from)? else {
        return Ok(());
    };
    if is_dir(&place.here) {
        return Ok(());
    }
    see_free(alloc, sight, to)
}

// The keys of the entries of a directory.
#[tactic(auto, unfolding(r4_base::specs::Key::rank))]
pub(crate) fn entries_of(dir: Oid) -> Interval
    requires { dir.0 < 2 ^ 60 }
    ensures { interval_of result ≡ (entries_from dir.0, entries_to dir.0) }
{
    let from = Key {
        el: [dir.0 * 16, 0, 0, 0],
    };
    let to = Key {
        el: [dir.0 * 16 + 1, 0, 0, 0],
    };
    Interval { from, to }
}

/// What `names` asks for: the way to the object, and the entries of a directory.
#[tactic(auto, using(crate::proofs::Staying::stays_both, crate::proofs::Staying::stays_same, crate::proofs::Beginning::asking_goes, crate::proofs::Beginning::asking_on))]
pub(crate) fn see_for_names<S: Sight>(
    alloc: Global,
    sight: &mut S,
    path: &[Name],
) -> Result<(), FetchFault>
    ensures later { IsLater (S.state sight.old) (S.state sight.new) }
    ensures stays { StaysOver (S.device sight.old) (S.device sight.new)
        (S.over sight.old) (S.over sight.new) }
    ensures kept { OnOk result ((S.state sight.new).fault ≡ (S.state sight.old).fault) }
    ensures cause { IfErr result (λ e. IsCause e (S.state sight.new)) }
    ensures asked { OnOk result (HasAsked (named path.now (names path.now))
        (S.state sight.old) (S.state sight.new)) }
    ensures stops { OnErr result (StopsIn (named path.now (names path.now))
        (S.state sight.old) (S.state sight.new)) }
{
    if !is_legal(path) {
        return Ok(());
    }
    let Some(place) = see_way(alloc, sight, path)? else {
        return Ok(());
    };
    if !is_dir(&place.here) {
        return Ok(());
    }
    sight.see_all(alloc, entries_of(place.here.target.oid))
}

/// What `unlink` asks for.
#[tactic(auto, using(crate::proofs::Staying::stays_both, crate::proofs::Staying::stays_same, crate::proofs::Quiet::choice_quiet))]
pub(crate) fn see_for_unlink<S: Sight>(
    alloc: Global,
    sight: &mut S,
    path: &[Name],
) -> Result<(), FetchFault>
    ensures later { IsLater (S.state sight.old) (S.state sight.new) }
    ensures stays { StaysOver (S.device sight.old) (S.device sight.new)
        (S.over sight.old) (S.over sight.new) }
    ensures kept { OnOk result ((S.state sight.new).fault ≡ (S.state sight.old).fault) }
    ensures cause { IfErr result (λ e. IsCause e (S.state sight.new)) }
    ensures asked { OnOk result (HasAsked (named path.now (unlink path.now))
        (S.state sight.old) (S.state sight.new)) }
    ensures stops { OnErr result (StopsIn (named path.now (unlink path.now))
        (S.state sight.old) (S.state sight.new)) }
{
    if !is_legal(path) {
        return Ok(());
    }
    see_entry(alloc, sight, path)?;
    Ok(())
}

/// What `rmdir` asks for: the way to the object with its entry, and the entries of a directory.
#[tactic(auto, using(crate::proofs::Staying::stays_both, crate::proofs::Staying::stays_same, crate::proofs::Beginning::asking_goes, crate::proofs::Beginning::asking_on, crate::proofs::Quiet::empty_quiet))]
pub(crate) fn see_for_rmdir<S: Sight>(
    alloc: Global,
    sight: &mut S,
    path: &[Name],
) -> Result<(), FetchFault>
    ensures later { IsLater (S.state sight.old) (S.state sight.new) }
    ensures stays { StaysOver (S.device sight.old) (S.device sight.new)
        (S.over sight.old) (S.over sight.new) }
    ensures kept { OnOk result ((S.state sight.new).fault ≡ (S.state sight.old).fault) }
    ensures cause { IfErr result (λ e. IsCause e (S.state sight.new)) }
    ensures asked { OnOk result (HasAsked (named path.now (rmdir path.now))
        (S.state sight.old) (S.state sight.new)) }
    ensures stops { OnErr result (StopsIn (named path.now (rmdir path.now))
        (S.state sight.old) (S.state sight.new)) }
{
    if !is_legal(path) {
        return Ok(());
    }
    let Some(found) = see_entry(alloc, sight, path)? else {
        return Ok(());
    };
    if !is_dir(&found.object) {
        return Ok(());
    }
    sight.see_all(alloc, entries_of(found.object.target.oid))
}
