//! Laws of the keys that commands touch, and of the units that they move (docs/sets.md). Each is the contract of a
//! function that does nothing.

ghost use Rattle.std.specs.Prelude.{◌≡◌, ◌⊎◌, ◌<◌, ◌≤◌, ◌^◌, ℕ, true, false};
ghost use Rattle.r4_base.specs.Tree.{Root, Store};
ghost use Rattle.r4_base.specs.Value.{Content, Value};
ghost use Rattle.r4_base.specs.Volume.{HasExtents, HasStat, HasTails, is_directory};
ghost use Rattle.r4_base.specs.declared.items.Attr.{Attr};
ghost use Rattle.r4_base.specs.declared.items.Target.{Target};
ghost use Rattle.r4_content.specs.Edited.{Edits, Intervals, edited, is_in};
ghost use Rattle.r4_content.specs.Edited.{changed as changed_by};
ghost use Rattle.r4_content.specs.Fields.{HasBytePaths, NamesUnused};
ghost use Rattle.r4_content.specs.Lawful.{HasBodies, IsLawful};
ghost use Rattle.r4_content.specs.Locality.{commands};
ghost use Rattle.r4_content.specs.Units.{MovesUnits};
ghost use Rattle.r4_content.specs.declared.command.Command.{Command};
ghost use Rattle.r4_sets.specs.Change.{BuiltChange, Does, FilesAfter, HasStats, IsTouched};
ghost use Rattle.r4_sets.specs.Change.{ShowsBodies};
ghost use Rattle.r4_sets.specs.Session.{IsTreeOf};
ghost use Rattle.r4_sets_told.specs.Touched.{IsBuiltFor, IsTouchedBy};

/// With a key of a body each command touches the stat key of the body's file. Of each body that is not empty and of
/// which it changes a key, it touches a key below the size, where it touches the last byte of a file that becomes
/// longer.
pub fn commands_show_bodies()
    ensures stats { (limit : ℕ) (x : Command) (n : Content) (touched changed : Intervals)
        → limit < 2 ^ 64 → IsLawful limit n → HasBytePaths x → NamesUnused n x
        → IsTouchedBy limit x n touched changed → HasStats touched }
    ensures bodies { (limit : ℕ) (x : Command) (n : Content) (touched changed : Intervals)
        → limit < 2 ^ 64 → IsLawful limit n → HasBytePaths x → NamesUnused n x
        → IsTouchedBy limit x n touched changed → ShowsBodies touched changed n }
{}

/// Where a change moves units as a command's edits say, all is so of files that is asked after it, but for the kind
/// of cell in which the bodies stand that it touches: each of these has to be in tails alone or in extents alone.
pub fn moved_units_are_files()
    ensures { (limit : ℕ) (e : Edits) (n raw after : Content) (moved changed : Intervals)
        (u : Store Value) → limit ≤ 2 ^ 30 → HasBodies limit (edited e n)
        → MovesUnits e n raw after moved
        → ((k : ℕ) → is_in (changed_by e) k ≡ true → is_in changed k ≡ true)
        → ((k : ℕ) → is_in moved k ≡ true → is_in changed k ≡ true)
        → ((o : Target) (b : Attr) → HasStat after o b → is_directory b ≡ false
        → IsTouched changed o → HasTails u o b.size ⊎ HasExtents u o b.size)
        → FilesAfter u raw after (edited e n) changed }
{}

/// A change that is built for a command does in the tree what the command does: all that is asked of it can be seen
/// of the change, the keys, and the bodies that it touches. The content is lawful before, and the command's id is not
/// in use.
pub fn built_changes_do_commands()
    ensures { (limit : ℕ) (x : Command) (u : Store Value) (root : Root) (n : Content)
        (is : IsTreeOf u root n) (b : BuiltChange) → limit ≤ 2 ^ 30 → IsLawful limit n
        → HasBytePaths x → NamesUnused n x → IsBuiltFor limit x u root is.raw n b
        → Does (commands limit) x u root n b.change b.touched b.changed }
{}
