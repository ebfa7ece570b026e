//! Laws of the images of a session (docs/sets.md). Each is the contract of a function that does nothing.

ghost use Rattle.std.specs.Prelude.{◌≡◌, ◌<◌, ◌+◌, ◌^◌, ℕ, Option, Some};
ghost use Rattle.r4_base.specs.Cell.{IsCellOf};
ghost use Rattle.r4_base.specs.Image.{Image, block_at};
ghost use Rattle.r4_base.specs.Tree.{Node, Root, Store};
ghost use Rattle.r4_base.specs.Value.{Content, Value};
ghost use Rattle.r4_base.specs.Volume.{HasContent, HasIds, HasLayout, HasObjects, IsPlace, root_of};
ghost use Rattle.r4_base.specs.declared.superblock.Super40.{Super40};
ghost use Rattle.r4_content.specs.Locality.{Meaning, commands};
ghost use Rattle.r4_content.specs.declared.command.Command.{Command};
ghost use Rattle.r4_content.specs.declared.reply.Reply.{Reply};
ghost use Rattle.r4_sets.specs.r4_trace.Folds.{HasFirstReplies, after_first};
ghost use Rattle.r4_sets.specs.r4_trace.Ids.{Start};
ghost use Rattle.r4_sets.specs.r4_trace.Job.{Asked};
ghost use Rattle.r4_sets.specs.r4_trace.Legal.{RepliesFrom};
ghost use Rattle.r4_sets.specs.r4_trace.Safe.{AddsNothing, HasFirst};
ghost use Rattle.r4_sets.specs.r4_trace.Traced.{committed_in, sealed_in};
ghost use Rattle.r4_sets.specs.Session.{IsTreeOf, Session, Sets, in_base, in_under};
ghost use Rattle.r4_sets_told.specs.Images.{StandsIn};
ghost use Rattle.r4_sets_told.specs.Runs.{CountsObjects, IsLawfulRun};

/// The content of an image is that of its tree; and where each cell of a tree stands in its block, the image has the
/// content of the tree.
pub fn images_and_trees()
    ensures tree { (n : ℕ) (image : Image) (m : Content) (h : HasContent n image m)
        → IsTreeOf h.store (root_of h.super) m }
    ensures image { (n : ℕ) (image : Image) (super : Super40) (t : Store Value) (m : Content)
        → HasLayout n image super
        → ((i : ℕ) (c : Node Value) → t i ≡ Some c
        → IsCellOf super.block_count (block_at image i) c)
        → ((i : ℕ) (c : Node Value) → t i ≡ Some c → IsPlace super.block_count image i)
        → IsTreeOf t (root_of super) m → HasObjects m → HasIds super m → HasContent n image m }
    ensures one { (t : Store Value) (r q : Root) (m n : Content) → IsTreeOf t r m → IsTreeOf t q n
        → m ≡ n }
{}

/// The committed cells are a tree with what the first k atoms made, where k are committed; with the sealed atom in
/// place they are one with what all sealed atoms made. In both each Done has its reply; and so it has after all that
/// was done before it.
pub fn layers_are_told()
    ensures alone { (w : Meaning Command Reply) (c : Session) → Sets w c
        → IsTreeOf c.base.cells c.base.root (after_first w c.start c.trace (committed_in c.trace))
        × HasFirstReplies w c.start c.trace (committed_in c.trace) }
    ensures under { (w : Meaning Command Reply) (c : Session) → Sets w c
        → IsTreeOf c.under.cells c.under.root (after_first w c.start c.trace (sealed_in c.trace))
        × HasFirstReplies w c.start c.trace (sealed_in c.trace) }
    ensures replies { (w : Meaning Command Reply) (c : Session) (next_id : ℕ) → Sets w c
        → RepliesFrom w (Some (record { content = c.start; next_id = next_id })) c.trace }
{}

/// A sealed atom without cells leaves the committed cells as they are, and adds nothing to what the atoms before it
/// made.
pub fn atoms_without_cells_add_nothing()
    ensures { (w : Meaning Command Reply) (c : Session) → Sets w c
        → c.under.cells ≡ c.base.cells → sealed_in c.trace ≡ committed_in c.trace + 1
        → AddsNothing w c.start c.trace }
{}

/// An image in whose blocks the committed cells stand has the content of the transactions of the first k atoms that
/// were sealed, where k are committed, and each Done has its reply there. One in which those with the sealed atom in
/// place stand has that of all that were sealed. The superblock has to count the objects of these transactions.
pub fn layers_are_volumes()
    ensures alone { (limit next_id : ℕ) (job : Option Asked) (c : Session) (n : ℕ) (image : Image)
        (super : Super40) → limit < 2 ^ 64 → Sets (commands limit) c
        → IsLawfulRun limit (record { content = c.start; next_id = next_id }) job c.trace
        → StandsIn n image super c.base
        → CountsObjects limit (record { content = c.start; next_id = next_id }) (in_base c)
        c.trace super
        → HasFirst (HasContent n) (commands limit) c.start c.trace (committed_in c.trace) image }
    ensures under { (limit next_id : ℕ) (job : Option Asked) (c : Session) (n : ℕ) (image : Image)
        (super : Super40) → limit < 2 ^ 64 → Sets (commands limit) c
        → IsLawfulRun limit (record { content = c.start; next_id = next_id }) job c.trace
        → StandsIn n image super c.under
        → CountsObjects limit (record { content = c.start; next_id = next_id }) (in_under c)
        c.trace super
        → HasFirst (HasContent n) (commands limit) c.start c.trace (sealed_in c.trace) image }
{}
