//! Laws of what was built of a command. Each is the contract of a function that does nothing.

ghost use Rattle.std.specs.Prelude.{◌≡◌, ℕ, ◌<◌, ◌≤◌, true};
ghost use Rattle.r4_applied.specs.Applying.{CanApply, IsBuiltOver, IsInReach, changed_by};
ghost use Rattle.r4_applied.specs.Applying.{touched_by};
ghost use Rattle.r4_base.specs.Key.{least, top};
ghost use Rattle.r4_base.specs.Tree.{Root, Store};
ghost use Rattle.r4_base.specs.Value.{Content, Value};
ghost use Rattle.r4_build.specs.Built.{BuiltSeen};
ghost use Rattle.r4_content.specs.Counts.{born, gone};
ghost use Rattle.r4_content.specs.Edited.{is_in};
ghost use Rattle.r4_content.specs.Locality.{commands};
ghost use Rattle.r4_content.specs.Meaning.{greatest_size, reply};
ghost use Rattle.r4_sets_told.specs.r4_patch.Joining.{patch_of_change};
ghost use Rattle.r4_sets_told.specs.r4_sets.Change.{Applies, Does};
ghost use Rattle.r4_sets_told.specs.r4_sets.Session.{Session};

/// What was built of a command does in the tree of all atoms what the command means, whatever was
/// changed there since its task went out, where the cells of the task's reach still stand: its
/// change makes of the tree's content the content after the command, and stays within the keys that
/// the command touches. The reply is the command's there, and so are the objects that come and go.
pub fn built_commands_do()
    ensures does { (x : BuiltSeen) (u : Store Value) (root : Root) (n : Content)
        → (over : IsBuiltOver x u root n)
        → Does (commands greatest_size) x.task.command u root n (patch_of_change x.change)
        (touched_by x over.built) (changed_by x over.built) }
    ensures reply { (x : BuiltSeen) (u : Store Value) (root : Root) (n : Content)
        → IsBuiltOver x u root n → x.reply ≡ reply greatest_size x.task.command n }
    ensures born { (x : BuiltSeen) (u : Store Value) (root : Root) (n : Content)
        → IsBuiltOver x u root n → x.objects.born ≡ born greatest_size x.task.command n }
    ensures gone { (x : BuiltSeen) (u : Store Value) (root : Root) (n : Content)
        → IsBuiltOver x u root n → x.objects.gone ≡ gone greatest_size x.task.command n }
{}

/// Each key of a tree that it touches lies in a cell of its task's reach.
pub fn touched_keys_are_reached()
    ensures { (x : BuiltSeen) (u : Store Value) (root : Root) (n : Content) (k : ℕ)
        → (over : IsBuiltOver x u root n) → is_in (touched_by x over.built) k ≡ true → least ≤ k
        → k < top → IsInReach x.task k }
{}

/// So it applies in a session: its change is a command's of an open atom, of cells that no other
/// atom owns.
pub fn built_commands_apply()
    ensures { (x : BuiltSeen) (was : Session) (txn : ℕ) → CanApply x was txn
        → Applies (commands greatest_size) was txn x.task.command (patch_of_change x.change) }
{}
