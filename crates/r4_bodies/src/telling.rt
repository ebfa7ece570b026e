//! What the body that a command's edits change tells of its reach (docs/volume.md, "Reach").

ghost use Rattle.std.specs.Prelude.{◌≡◌, ◌↔◌, ◌++◌, ◌^◌, false, true};
ghost use Rattle.r4_base.specs.Tree.{Store};
ghost use Rattle.r4_base.specs.Value.{Value};
ghost use Rattle.r4_content.specs.Course.{asked};
ghost use Rattle.r4_content.specs.Edited.{changed, is_in};
ghost use Rattle.r4_content.specs.Held.{edits_of, pairs_of};
ghost use Rattle.r4_content.specs.Meaning.{course, greatest_size};
ghost use Rattle.r4_content.specs.Seen.{Rises, of_seen};
ghost use Rattle.r4_content.specs.declared.command.Command.{Command};
ghost use Rattle.r4_leaf_demands.specs.Leaves.{IsInLeaves};
ghost use Rattle.r4_leaf_demands.specs.r4_leaf_edits.Suiting.{SuitLeaves};
ghost use Rattle.r4_leaf_demands.specs.r4_reach.Leaves.{LieInLeaves};
ghost use Rattle.r4_leaf_demands.specs.r4_reach.Touched.{IsKindIn, body_on, changes_on, edits_on, reads_on};
ghost use Rattle.r4_bodies.specs.Told.{AreOfTree, intervals_of};

use crate::body_change::body_changed;
use r4_content::{Edits, Interval, Seen};

/// What a command reads beside the keys that it asked for, and whether no body stands in extents afterwards, as it is
/// where nothing of the body that it changes stands in extents before (docs/volume.md, "Reach").
#[derive(Clone, Copy, Debug, PartialEq, Eq)]
pub struct BodyTold {
    pub read: Option<Interval>,
    pub in_leaves: bool,
}

/// What the body tells that a command's edits change, as it is where nothing of it stands in extents before, on what
/// was seen. Where no body stands in extents afterwards, the keys of the edits are all that change. Where these keys
/// and the one that is read lie in leaves, the body does stand so. It takes the steps of `body_changed`
/// (docs/volume.md, "Reach").
pub fn told_by_body(edits: &Edits, seen: &Seen) -> BodyTold
    requires rises { Rises (pairs_of seen.now) }
    requires suits { SuitLeaves (2 ^ 64) (edits_of edits.now) }
    ensures reads { (c : Command) → edits_of edits.now ≡ edits_on c (pairs_of seen.now)
        → reads_on c (pairs_of seen.now) false
        ≡ asked (course greatest_size c) (of_seen (pairs_of seen.now)) ++ intervals_of result.read }
    ensures leaves { (c : Command) → edits_of edits.now ≡ edits_on c (pairs_of seen.now)
        → (result.in_leaves ≡ true) ↔ IsInLeaves (body_on c (pairs_of seen.now) false) }
    ensures changes { (c : Command) → edits_of edits.now ≡ edits_on c (pairs_of seen.now)
        → result.in_leaves ≡ true
        → changes_on c (pairs_of seen.now) false ≡ changed (edits_of edits.now) }
    ensures kind { (c : Command) (t : Store Value)
        → edits_of edits.now ≡ edits_on c (pairs_of seen.now)
        → AreOfTree (pairs_of seen.now) → LieInLeaves t (is_in (intervals_of result.read))
        → LieInLeaves t (is_in (changed (edits_of edits.now)))
        → IsKindIn t (body_on c (pairs_of seen.now) false) }
{
    match body_changed(edits, seen) {
        None => BodyTold {
            read: None,
            in_leaves: true,
        },
        Some(body) => BodyTold {
            read: body.kind_read(),
            in_leaves: !body.is_spread(),
        },
    }
}
