//! What numbers a command on attributes may carry.

ghost use Rattle.std.specs.Prelude.{◌<◌, ◌^◌, ℕ, List};
ghost use Rattle.r4_base.specs.Value.{Content};
ghost use Rattle.r4_content.specs.Examples.{at, f};
ghost use Rattle.r4_content.specs.Meaning.{after};
ghost use Rattle.r4_content.specs.declared.command.Command.TheVariants.{Chmod, Chown, Times};
ghost use Rattle.r4_content_rows.specs.Conditions.{empty_file};
ghost use Rattle.r4_content_rows.specs.Widths.{AllFit, PassesField};

/// After `chown` and `times` each attribute of each object is a number of its field's width, where
/// it was one before, and the numbers of the command are of 32 bits. After `chmod` it is so
/// whatever the number, since its low 12 bits alone are taken.
pub fn attributes_keep_their_widths()
    ensures chmod { (limit : ℕ) (path : List (List ℕ)) (mode : ℕ) (m : Content) → AllFit m
        → AllFit (after limit (Chmod path mode) m) }
    ensures chown { (limit : ℕ) (path : List (List ℕ)) (uid gid : ℕ) (m : Content) → uid < 2 ^ 32
        → gid < 2 ^ 32 → AllFit m → AllFit (after limit (Chown path uid gid) m) }
    ensures times { (limit : ℕ) (path : List (List ℕ)) (atime mtime ctime : ℕ) (m : Content)
        → atime < 2 ^ 32 → mtime < 2 ^ 32 → ctime < 2 ^ 32 → AllFit m
        → AllFit (after limit (Times path atime mtime ctime) m) }
{}

/// Each of these numbers has to be below 2^32: with 2^32 itself an attribute does not fit its
/// field, though all did before.
pub fn numbers_of_attributes_are_bounded()
    ensures before { AllFit empty_file }
    ensures uid { PassesField (Chown (at f) (2 ^ 32) 0) }
    ensures gid { PassesField (Chown (at f) 0 (2 ^ 32)) }
    ensures atime { PassesField (Times (at f) (2 ^ 32) 0 0) }
    ensures mtime { PassesField (Times (at f) 0 (2 ^ 32) 0) }
    ensures ctime { PassesField (Times (at f) 0 0 (2 ^ 32)) }
{}
