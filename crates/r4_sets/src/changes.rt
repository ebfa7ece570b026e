//! Laws of the changes that commands make in a tree (docs/sets.md). Each is the contract of a function that does
//! nothing.

ghost use Rattle.std.specs.Prelude.{◌≡◌, ◌<◌, ◌^◌, ◌*◌, ℕ, Option, false};
ghost use Rattle.r4_base.specs.Tree.{Root, Store};
ghost use Rattle.r4_base.specs.Value.{Content, Value, at_key};
ghost use Rattle.r4_base.specs.Volume.{HasExtents, HasFiles, HasStat, HasTails, HasUnits, InExtent};
ghost use Rattle.r4_base.specs.Volume.{InTail, IsVisible, blocks_for, byte_rank, is_directory};
ghost use Rattle.r4_base.specs.declared.items.Attr.{Attr};
ghost use Rattle.r4_base.specs.declared.items.Target.{Target};
ghost use Rattle.r4_patch.specs.r4_cell.Patch.{Patch};
ghost use Rattle.r4_content.specs.Edited.{Intervals, is_in};
ghost use Rattle.r4_content.specs.Lawful.{HasBodies};
ghost use Rattle.r4_content.specs.Locality.{IsLocal, Meaning};
ghost use Rattle.r4_content.specs.declared.command.Command.{Command};
ghost use Rattle.r4_content.specs.declared.reply.Reply.{Reply};
ghost use Rattle.r4_patch.specs.Effect.{Placed};
ghost use Rattle.r4_sets.specs.Change.{BuiltChange, Does, ExtentsThere, FilesAfter, NoneElse};
ghost use Rattle.r4_sets.specs.Change.{Promises, SameElse, ShowsBodies, ShowsUnits, TailsThere};
ghost use Rattle.r4_sets.specs.Session.{IsTreeOf};
ghost use Rattle.r4_sets.specs.Units.{SameUnit};

/// A change that keeps its promises does in a tree what the command does. They are of the change, of the keys, and of
/// the files that it touches, and never of the rest of the tree.
pub fn changes_do_commands()
    ensures { (w : Meaning Command Reply) → IsLocal w → (x : Command) (u : Store Value)
        (root : Root) (n : Content) (is : IsTreeOf u root n) (b : BuiltChange)
        → Promises w x u root is.raw n b → Does w x u root n b.change b.touched b.changed }
{}

/// After a change files stand as in a volume, and what is visible is what is to be, where this is so of the files
/// whose stat data or bodies it touches.
pub fn files_stand_after()
    ensures files { (t u : Store Value) (raw after n m : Content) (changed : Intervals)
        → HasUnits t raw → HasUnits u after → HasFiles t raw → IsVisible raw n
        → ((k : ℕ) → is_in changed k ≡ false → SameUnit t u k)
        → ((k : ℕ) → is_in changed k ≡ false → at_key m k ≡ at_key n k)
        → FilesAfter u raw after m changed → HasFiles u after }
    ensures visible { (t u : Store Value) (raw after n m : Content) (changed : Intervals)
        → HasUnits t raw → HasUnits u after → HasFiles t raw → IsVisible raw n
        → ((k : ℕ) → is_in changed k ≡ false → SameUnit t u k)
        → ((k : ℕ) → is_in changed k ≡ false → at_key m k ≡ at_key n k)
        → FilesAfter u raw after m changed → IsVisible after m }
{}

/// Between lawful contents a body of which no key may change stays as it is, and with it its file's size. So where a
/// key of each body that may change is among those touched, each touched file's body stays or is shown.
pub fn bodies_are_shown()
    ensures { (limit : ℕ) (touched changed : Intervals) (u : Store Value) (raw n m : Content)
        → limit < 2 ^ 64 → HasUnits u raw → IsVisible raw n → HasBodies limit n → HasBodies limit m
        → ((k : ℕ) → is_in changed k ≡ false → at_key m k ≡ at_key n k)
        → ShowsBodies touched changed n → ShowsUnits touched changed u n m }
{}

/// How a body stands after a change is seen at the keys that change. A unit that is there before shows whether the
/// body is in tails or in extents. It stays so, where at the changed keys there are the units of the new size, and
/// the others are below the new size where they were below the old one. And it is so anew, where a body has no unit
/// besides those that change.
pub fn bodies_stand_after()
    ensures tails { (t u : Store Value) (changed : Intervals) (o : Target) (old new : ℕ)
        → ((k : ℕ) → is_in changed k ≡ false → SameUnit t u k) → HasTails t o old
        → TailsThere u changed o new → SameElse changed o old new → HasTails u o new }
    ensures extents { (t u : Store Value) (changed : Intervals) (o : Target) (old new : ℕ)
        → ((k : ℕ) → is_in changed k ≡ false → SameUnit t u k) → HasExtents t o old
        → ExtentsThere u changed o new
        → SameElse changed o (4096 * blocks_for old) (4096 * blocks_for new)
        → HasExtents u o new }
    ensures tails_anew { (t u : Store Value) (changed : Intervals) (o : Target) (new : ℕ)
        → ((k : ℕ) → is_in changed k ≡ false → SameUnit t u k) → TailsThere u changed o new
        → NoneElse t changed o new → HasTails u o new }
    ensures extents_anew { (t u : Store Value) (changed : Intervals) (o : Target) (new : ℕ)
        → ((k : ℕ) → is_in changed k ≡ false → SameUnit t u k) → ExtentsThere u changed o new
        → NoneElse t changed o (4096 * blocks_for new) → HasExtents u o new }
    ensures tail { (t : Store Value) (raw : Content) (o : Target) (a : Attr) (x : ℕ)
        → HasFiles t raw → HasStat raw o a → is_directory a ≡ false → x < 2 ^ 64
        → InTail t (byte_rank o x) → HasTails t o a.size }
    ensures extent { (t : Store Value) (raw : Content) (o : Target) (a : Attr) (x : ℕ)
        → HasFiles t raw → HasStat raw o a → is_directory a ≡ false → x < 2 ^ 64
        → InExtent t (byte_rank o x) → HasExtents t o a.size }
{}
