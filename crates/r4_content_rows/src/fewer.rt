//! What is found after commands, under no more conditions than it needs.

ghost use Rattle.std.specs.FinMap.{from_sorted};
ghost use Rattle.std.specs.Prelude.{◌≡◌, ◌+◌, ◌*◌, ◌/◌, ◌%◌, ℕ, List};
ghost use Rattle.r4_base.specs.Value.{Content};
ghost use Rattle.r4_base.specs.declared.items.Attr.{Attr};
ghost use Rattle.r4_content.specs.Examples.{GetReplies};
ghost use Rattle.r4_content.specs.Fields.{HasBytes, HasNumbers};
ghost use Rattle.r4_content.specs.Meaning.{after, greatest_size, reply};
ghost use Rattle.r4_content.specs.Objects.{link_more};
ghost use Rattle.r4_content.specs.declared.command.Command.TheVariants.{Chmod, Chown, Link};
ghost use Rattle.r4_content.specs.declared.command.Command.TheVariants.{Rmdir, Stat, Times, Unlink};
ghost use Rattle.r4_content.specs.declared.reply.Reply.TheVariants.{Absent, Attr as AttrReply};
ghost use Rattle.r4_content.specs.declared.reply.Reply.TheVariants.{Okay};
ghost use Rattle.r4_content_rows.specs.Written.{hidden_root, lost_by_link, lost_by_rmdir};
ghost use Rattle.r4_content_rows.specs.Written.{named_beside};

/// Clauses of `what_is_changed_is_found` and of `what_is_written_is_read` that hold of more than
/// they are said of: `chmod`, `chown` and `times` of each content and path, `link` wherever numbers
/// are of their fields' widths and the new path is of bytes, `rmdir` of each content, for a path of
/// bytes, and `unlink` of each path, wherever numbers are of their fields' widths.
pub fn fewer_conditions_suffice()
    ensures chmod { (limit : ℕ) (path : List (List ℕ)) (mode : ℕ) (m : Content) (a : Attr)
        → reply limit (Stat path) m ≡ AttrReply a
        → reply limit (Stat path) (after limit (Chmod path mode) m)
        ≡ AttrReply (record a { mode = a.mode / 4096 * 4096 + mode % 4096 }) }
    ensures chown { (limit : ℕ) (path : List (List ℕ)) (uid gid : ℕ) (m : Content) (a : Attr)
        → reply limit (Stat path) m ≡ AttrReply a
        → reply limit (Stat path) (after limit (Chown path uid gid) m)
        ≡ AttrReply (record a { uid = uid; gid = gid }) }
    ensures times { (limit : ℕ) (path : List (List ℕ)) (atime mtime ctime : ℕ) (m : Content)
        (a : Attr)
        → reply limit (Stat path) m ≡ AttrReply a
        → reply limit (Stat path) (after limit (Times path atime mtime ctime) m)
        ≡ AttrReply (record a { atime = atime; mtime = mtime; ctime = ctime }) }
    ensures link { (limit : ℕ) (from to : List (List ℕ)) (m : Content) (a : Attr) → HasNumbers m
        → HasBytes to → reply limit (Stat from) m ≡ AttrReply a
        → reply limit (Link from to) m ≡ Okay
        → (reply limit (Stat to) (after limit (Link from to) m) ≡ AttrReply (link_more a))
        × (reply limit (Stat from) (after limit (Link from to) m) ≡ AttrReply (link_more a)) }
    ensures rmdir { (limit : ℕ) (path : List (List ℕ)) (m : Content) → HasBytes path
        → reply limit (Rmdir path) m ≡ Okay
        → reply limit (Stat path) (after limit (Rmdir path) m) ≡ Absent }
    ensures unlink { (limit : ℕ) (path : List (List ℕ)) (m : Content) → HasNumbers m
        → reply limit (Unlink path) m ≡ Okay
        → reply limit (Stat path) (after limit (Unlink path) m) ≡ Absent }
{}

/// These conditions are needed: a file is not found under a new name whose key is that of the stat
/// data of the directory above; and a root whose entry stands where no name of bytes does seems
/// empty, and is removed through an entry that names it, so that nothing is a directory any more.
/// For the numbers in `link` see `not_found_again`, for those in `unlink` `numbers_past_fields`.
pub fn fewer_conditions_are_needed()
    ensures link { GetReplies greatest_size (from_sorted named_beside) lost_by_link }
    ensures numbers { HasNumbers (from_sorted named_beside) }
    ensures rmdir { GetReplies greatest_size (from_sorted hidden_root) lost_by_rmdir }
{}
