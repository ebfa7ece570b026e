//! Why each thing is asked of a command's change (docs/sets.md, "Why each is asked"): a session in which all else
//! holds, and a set that means what it should no longer.

ghost use Rattle.std.specs.Prelude.{◌↔◌, ℕ};
ghost use Rattle.r4_base.specs.Value.{Value};
ghost use Rattle.r4_cell.specs.Patch.{Patch};
ghost use Rattle.r4_content.specs.Locality.{Meaning};
ghost use Rattle.r4_content.specs.declared.command.Command.{Command};
ghost use Rattle.r4_content.specs.declared.reply.Reply.{Reply};
ghost use Rattle.r4_sets.specs.Change.{Applies};
ghost use Rattle.r4_sets.specs.Session.{Session};
ghost use Rattle.r4_sets_rows.specs.Needed.{AppliesBut, Bodies, Changes, HasItsFiles, HasItsUnits};
ghost use Rattle.r4_sets_rows.specs.Needed.{IsItsPatch, Stats, Stays};
ghost use Rattle.r4_sets_rows.specs.Needed.{IsNeeded, IsSeen, MeetsIt, Nothing, Own, Reach, Reads};
ghost use Rattle.r4_sets_rows.specs.Needed.{Unsealed, Within};

/// Where nothing is left out, all is asked that a command needs to be applied.
pub fn all_is_asked()
    ensures { (w : Meaning Command Reply) (c : Session) (txn : ℕ) (x : Command) (d : Patch Value)
        → AppliesBut Nothing w c txn x d ↔ Applies w c txn x d }
{}

/// A first transaction changes the mode of the root directory, and a second one, of another atom, reads it: in the
/// set without the first one's atom the reply of `stat` differs. So whether the leaf that it reads may be another
/// atom's, or the key that it reads is not told.
pub fn cells_of_others_are_not_read()
    ensures reach { IsNeeded Reach }
    ensures reads { IsNeeded Reads }
{}

/// A second transaction packs the leaf anew in which a first one, of another atom, changed the mode. No unit changes,
/// but the leaf is the second one's then, with the first one's mode in it.
pub fn cells_of_others_are_not_changed()
    ensures own { IsNeeded Own }
{}

/// A transaction changes the mode once more when its atom is sealed: what is sealed has the older mode.
pub fn sealed_atoms_are_not_changed()
    ensures unsealed { IsNeeded Unsealed }
{}

/// A change puts a second leaf beside the one that is there: it is no patch, or one of cells that are not there.
pub fn changes_are_patches_of_the_tree()
    ensures patch { IsNeeded IsItsPatch }
    ensures meets { IsNeeded MeetsIt }
{}

/// No cell changes, where the command changes the mode; or a command leaves a count of bytes that is not the size.
pub fn changes_do_what_commands_do()
    ensures units { IsNeeded HasItsUnits }
    ensures seen { IsNeeded IsSeen }
    ensures files { IsNeeded HasItsFiles }
{}

/// Two transactions of two atoms set the same attributes, whatever they were, so that the second one changes no cell:
/// in the set without the first one the attributes are not set. So the keys that a command changes have to be told,
/// and its cells reached, also where nothing becomes different.
pub fn keys_that_commands_change_are_told()
    ensures changes { IsNeeded Changes }
    ensures within { IsNeeded Within }
{}

/// A first atom has turned the body of a file into tails, and a second one appends a byte, behind the block of the
/// extent that the file had. It reads no byte of the body: so in the set without the first atom the byte stands in a
/// tail, and the body in an extent.
pub fn bodies_are_shown_where_they_grow()
    ensures bodies { IsNeeded Bodies }
{}

/// A first atom has made a file longer within its block, and a command of a second one looks at a byte behind the end
/// that the file had. It does not read the stat data: so it finds a byte in memory, and none in the set without the
/// first atom.
pub fn stat_data_are_read_with_bytes()
    ensures stats { IsNeeded Stats }
{}

/// A first atom has made a file longer within its block, and a second one turns the body into tails, of which no key
/// is told: in the set without the first atom there are tails past the file's end.
pub fn units_stay_in_their_cells()
    ensures stays { IsNeeded Stays }
{}
