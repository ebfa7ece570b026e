//! What commands on objects and on the bytes of files ask for (docs/commands.md, "Bytes").

ghost use Rattle.std.specs.Prelude.{◌≡◌, ℕ, List, IfErr, OnErr, OnOk};
ghost use Rattle.r4_base.specs.declared.items.Attr.{Attr as SeenAttr};
ghost use Rattle.r4_content.specs.Bodies.{read, truncate, write};
ghost use Rattle.r4_content.specs.Meaning.{named, set_attrs, stat};
ghost use Rattle.r4_gather.specs.Asking.{HasAsked, IsCause, IsLater, StaysOver, StopsIn};

use crate::sight::Sight;
use crate::ways::see_way;
use r4_base::Name;
use r4_dir::{is_dir, is_legal};
use r4_file::{body, end_of};
use r4_search::FetchFault;
use std::alloc::Global;

/// What commands ask for that are of one object and read no byte: the way to it.
#[tactic(auto, unfolding(r4_content::specs::Ways::to_file), using(crate::proofs::Staying::stays_both, crate::proofs::Staying::stays_same))]
pub(crate) fn see_for_object<S: Sight>(
    alloc: Global,
    sight: &mut S,
    path: &[Name],
) -> Result<(), FetchFault>
    ensures later { IsLater (S.state sight.old) (S.state sight.new) }
    ensures stays { StaysOver (S.device sight.old) (S.device sight.new)
        (S.over sight.old) (S.over sight.new) }
    ensures kept { OnOk result ((S.state sight.new).fault ≡ (S.state sight.old).fault) }
    ensures cause { IfErr result (λ e. IsCause e (S.state sight.new)) }
    ensures stat { OnOk result
        (HasAsked (named path.now (stat path.now)) (S.state sight.old) (S.state sight.new)) }
    ensures attrs { (f : SeenAttr → SeenAttr) → OnOk result
        (HasAsked (named path.now (set_attrs path.now f)) (S.state sight.old) (S.state sight.new)) }
    ensures write { (limit offset : ℕ) (text : List ℕ) → OnOk result
        (HasAsked (named path.now (write limit path.now offset text))
        (S.state sight.old) (S.state sight.new)) }
    ensures truncate { (limit size : ℕ) → OnOk result
        (HasAsked (named path.now (truncate limit path.now size))
        (S.state sight.old) (S.state sight.new)) }
    ensures stat_stops { OnErr result
        (StopsIn (named path.now (stat path.now)) (S.state sight.old) (S.state sight.new)) }
    ensures attrs_stops { (f : SeenAttr → SeenAttr) → OnErr result
        (StopsIn (named path.now (set_attrs path.now f)) (S.state sight.old) (S.state sight.new)) }
    ensures write_stops { (limit offset : ℕ) (text : List ℕ) → OnErr result
        (StopsIn (named path.now (write limit path.now offset text))
        (S.state sight.old) (S.state sight.new)) }
    ensures truncate_stops { (limit size : ℕ) → OnErr result
        (StopsIn (named path.now (truncate limit path.now size))
        (S.state sight.old) (S.state sight.new)) }
{
    if !is_legal(path) {
        return Ok(());
    }
    see_way(alloc, sight, path)?;
    Ok(())
}

/// What `read` asks for: the way to the object, and the bytes of a file that it has in the interval.
#[tactic(auto, using(crate::proofs::Staying::stays_both, crate::proofs::Staying::stays_same, crate::proofs::Beginning::asking_goes, crate::proofs::Beginning::asking_on))]
pub(crate) fn see_for_read<S: Sight>(
    alloc: Global,
    sight: &mut S,
    path: &[Name],
    offset: u64,
    len: u64,
) -> Result<(), FetchFault>
    ensures later { IsLater (S.state sight.old) (S.state sight.new) }
    ensures stays { StaysOver (S.device sight.old) (S.device sight.new)
        (S.over sight.old) (S.over sight.new) }
    ensures kept { OnOk result ((S.state sight.new).fault ≡ (S.state sight.old).fault) }
    ensures cause { IfErr result (λ e. IsCause e (S.state sight.new)) }
    ensures asked { OnOk result
        (HasAsked (named path.now (read path.now offset len)) (S.state sight.old) (S.state sight.new)) }
    ensures stops { OnErr result
        (StopsIn (named path.now (read path.now offset len)) (S.state sight.old) (S.state sight.new)) }
{
    if !is_legal(path) {
        return Ok(());
    }
    let Some(place) = see_way(alloc, sight, path)? else {
        return Ok(());
    };
    if is_dir(&place.here) {
        return Ok(());
    }
    let end = end_of(&place.here, offset, len);
    if offset < end {
        sight.see_all(alloc, body(&place.here, offset, end))?;
    }
    Ok(())
}
