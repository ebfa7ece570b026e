//! Laws of commands (docs/commands.md). Each is the contract of a function that does nothing.

ghost use Rattle.std.specs.FinMap.{find, from_sorted};
ghost use Rattle.std.specs.Ordering.{nat_cmp};
ghost use Rattle.std.specs.Prelude.{◌≡◌, ◌≢◌, ◌↔◌, ◌+◌, ◌*◌, ◌/◌, ◌%◌, ◌<◌, ◌≤◌, ◌^◌, ℕ, List};
ghost use Rattle.std.specs.Prelude.{length, replicate, true, false};
ghost use Rattle.r4_base.specs.Image.{Image};
ghost use Rattle.r4_base.specs.Value.{Content, at_key};
ghost use Rattle.r4_base.specs.Volume.{HasContent, HasObjects, HasStat, IsVisible, objects_in};
ghost use Rattle.r4_base.specs.declared.items.Attr.{Attr};
ghost use Rattle.r4_base.specs.declared.items.Target.{Target};
ghost use Rattle.r4_base.specs.declared.things.Oid.{Oid};
ghost use Rattle.r4_content.specs.Counts.{born, gone};
ghost use Rattle.r4_content.specs.Course.{ending, of_content};
ghost use Rattle.r4_content.specs.Edited.{Edits, Intervals, Pairs, changed, edited, is_in};
ghost use Rattle.r4_content.specs.Fields.{HasBytePaths, HasBytes, HasNumbers, IsUnused};
ghost use Rattle.r4_content.specs.Fields.{NamesUnused};
ghost use Rattle.r4_content.specs.Lawful.{HasBodies, IsLawful, RoomFor};
ghost use Rattle.r4_content.specs.Listed.{list_after};
ghost use Rattle.r4_content.specs.Locality.{Agree, AsksForStats, IsLocal, Meaning};
ghost use Rattle.r4_content.specs.Locality.{ReadsBytes, Spares};
ghost use Rattle.r4_content.specs.Locality.{commands};
ghost use Rattle.r4_content.specs.Meaning.{after, changes, course, greatest_size, reads, reply};
ghost use Rattle.r4_content.specs.Objects.{link_more, new_directory, new_file};
ghost use Rattle.r4_content.specs.Reading.{OnlyReads};
ghost use Rattle.r4_content.specs.Seen.{IsSeen, Rises, of_seen};
ghost use Rattle.r4_content.specs.Units.{MovesUnits};
ghost use Rattle.r4_content.specs.Walk.{At, NoDirectory, NoEntry, NoName, walk};
ghost use Rattle.r4_content.specs.Walks.{walk_reply};
ghost use Rattle.r4_content.specs.declared.command.Command.{Command};
ghost use Rattle.r4_content.specs.declared.command.Command.TheVariants.{Chmod, Chown, Create, Fill};
ghost use Rattle.r4_content.specs.declared.command.Command.TheVariants.{Link, Mkdir, Read, Rename};
ghost use Rattle.r4_content.specs.declared.command.Command.TheVariants.{Rmdir, Stat, Times};
ghost use Rattle.r4_content.specs.declared.command.Command.TheVariants.{Truncate, Unlink, Write};
ghost use Rattle.r4_content.specs.declared.reply.Reply.TheVariants.{Okay, Absent, Data, Notdir};
ghost use Rattle.r4_content.specs.declared.reply.Reply.TheVariants.{Attr as AttrReply};
ghost use Rattle.r4_content.specs.declared.reply.Reply.TheVariants.{Name as NameReply};

/// Each command does the same in contents that agree where it reads, and leaves all keys that it does not change.
pub fn commands_are_local()
    ensures { (limit : ℕ) → IsLocal (commands limit) }
{}

/// What was seen where a command asks for it suffices: the edits for it, made in the content, give the content after the
/// command, and the reply is the command's. For that it is enough that what was seen agrees with the content where the
/// command reads the content.
pub fn seen_suffices()
    ensures content { (limit : ℕ) (c : Command) (s : Pairs) (m : Content) → IsSeen limit c s m
        → edited (ending (course limit c) (of_seen s)).edits m ≡ after limit c m }
    ensures reply { (limit : ℕ) (c : Command) (s : Pairs) (m : Content) → IsSeen limit c s m
        → (ending (course limit c) (of_seen s)).reply ≡ reply limit c m }
    ensures edits { (limit : ℕ) (c : Command) (s : Pairs) (m : Content) (k : ℕ) → IsSeen limit c s m
        → is_in (changed (ending (course limit c) (of_seen s)).edits) k
        ≡ is_in (changes limit c m) k }
    ensures read { (limit : ℕ) (c : Command) (s : Pairs) (m : Content) → Rises s
        → ((k : ℕ) → is_in (reads limit c m) k ≡ true → find nat_cmp k s ≡ at_key m k)
        → IsSeen limit c s m }
{}

/// A command that reads or changes a key of a file's body reads the stat key of the file; and what
/// it reads of a body are bytes that the file has. So it is in each content whose numbers are of
/// their fields' widths, for paths of bytes.
pub fn commands_ask_for_stats()
    ensures stats { (limit : ℕ) (c : Command) (m : Content) → limit ≤ 2 ^ 64 → HasNumbers m
        → HasBytePaths c
        → AsksForStats limit c m }
    ensures bytes { (limit : ℕ) (c : Command) (m : Content) → limit ≤ 2 ^ 64 → HasNumbers m
        → HasBytePaths c
        → ReadsBytes limit c m }
{}

/// A command does to a content what it does to the list of its pairs.
pub fn lists_are_contents()
    ensures content { (limit : ℕ) (c : Command) (s : Pairs) → Rises s
        → after limit c (from_sorted s) ≡ from_sorted (list_after limit c s) }
    ensures reply { (limit : ℕ) (c : Command) (s : Pairs) → Rises s
        → reply limit c (from_sorted s) ≡ (ending (course limit c) (of_seen s)).reply }
    ensures rises { (limit : ℕ) (c : Command) (s : Pairs) → Rises s → Rises (list_after limit c s) }
{}

/// Commands that change nothing which the other one reads or changes may be done in either order, with the same replies.
pub fn apart_commands_commute<C, R>()
    ensures contents { (w : Meaning C R) → IsLocal w → (x y : C) (m : Content) → Spares w y x m
        → Spares w x y m → w.after x (w.after y m) ≡ w.after y (w.after x m) }
    ensures replies { (w : Meaning C R) → IsLocal w → (x y : C) (m : Content) → Spares w y x m
        → w.reply x (w.after y m) ≡ w.reply x m }
{}

/// Where the reply is not `ok`, the content stays: so it does where a command is refused, and where it is answered bytes,
/// attributes or names. `read`, `stat`, `names`, `begin`, `end` and `commit` change nothing in any content.
pub fn refusals_change_nothing()
    ensures content { (limit : ℕ) (c : Command) (m : Content) → reply limit c m ≢ Okay
        → after limit c m ≡ m }
    ensures keys { (limit : ℕ) (c : Command) (m : Content) (k : ℕ) → reply limit c m ≢ Okay
        → is_in (changes limit c m) k ≡ false }
    ensures reading { (limit : ℕ) (c : Command) (m : Content) → OnlyReads c → after limit c m ≡ m }
{}

/// The walk of commands is that of the listing: what `stat` is answered tells where the walk along the path ends, and each
/// ending has a reply of its own.
pub fn walks_agree()
    ensures stat { (limit : ℕ) (m : Content) (path : List (List ℕ)) → reply limit (Stat path) m
        ≡ walk_reply (walk m path) }
    ensures found { (limit : ℕ) (m : Content) (path : List (List ℕ)) (a : Attr)
        → (reply limit (Stat path) m ≡ AttrReply a) ↔ ((o : Target) × (walk m path ≡ At o a)) }
    ensures notdir { (limit : ℕ) (m : Content) (path : List (List ℕ))
        → (reply limit (Stat path) m ≡ Notdir) ↔ (walk m path ≡ NoDirectory) }
    ensures absent { (limit : ℕ) (m : Content) (path : List (List ℕ))
        → (reply limit (Stat path) m ≡ Absent) ↔ (walk m path ≡ NoEntry) }
    ensures name { (limit : ℕ) (m : Content) (path : List (List ℕ)) → (reply limit (Stat path) m
        ≡ NameReply) ↔ (walk m path ≡ NoName) }
{}

/// What was written is read: after `write` the bytes of the text, after `fill` its byte as often as it was asked for. After
/// `truncate` the size is the one that was asked for. What was made has the attributes of a new object, and what was
/// unlinked is absent. So it is in each content whose numbers and names are of their fields' widths; where an object is
/// made, its id must not be in use.
pub fn what_is_written_is_read()
    ensures write { (limit : ℕ) (path : List (List ℕ)) (offset : ℕ) (text : List ℕ) (m : Content)
        → HasNumbers m → HasBytes path → limit ≤ 2 ^ 64
        → reply limit (Write path offset text) m ≡ Okay
        → reply limit (Read path offset (length text)) (after limit
        (Write path offset text) m) ≡ Data text }
    ensures fill { (limit : ℕ) (path : List (List ℕ)) (offset len byte : ℕ) (m : Content)
        → HasNumbers m → HasBytes path → limit ≤ 2 ^ 64
        → reply limit (Fill path offset len byte) m ≡ Okay
        → reply limit (Read path offset len) (after limit (Fill path offset len byte) m)
        ≡ Data (replicate len byte) }
    ensures truncate { (limit : ℕ) (path : List (List ℕ)) (size : ℕ) (m : Content) → HasNumbers m
        → HasBytes path → limit ≤ 2 ^ 64
        → reply limit (Truncate path size) m ≡ Okay → (a : Attr)
        × (reply limit (Stat path) (after limit (Truncate path size) m) ≡ AttrReply a)
        × (a.size ≡ size) }
    ensures create { (limit : ℕ) (path : List (List ℕ)) (oid : Oid) (m : Content) → HasNumbers m
        → HasBytes path → IsUnused m oid
        → reply limit (Create path oid) m ≡ Okay
        → reply limit (Stat path) (after limit (Create path oid) m) ≡ AttrReply new_file }
    ensures mkdir { (limit : ℕ) (path : List (List ℕ)) (oid : Oid) (m : Content) → HasNumbers m
        → HasBytes path → IsUnused m oid
        → reply limit (Mkdir path oid) m ≡ Okay
        → reply limit (Stat path) (after limit (Mkdir path oid) m) ≡ AttrReply new_directory }
    ensures unlink { (limit : ℕ) (path : List (List ℕ)) (m : Content) → HasNumbers m → HasBytes path
        → reply limit (Unlink path) m ≡ Okay
        → reply limit (Stat path) (after limit (Unlink path) m) ≡ Absent }
{}

/// What is found after commands on attributes and on entries. After `chmod`, `chown` and `times` the object has the
/// attributes that were asked for, and all others as they were. A file that gets a further name is found under both, with a
/// link more, and a directory that was removed is absent. Where a `rename` changes something, the object is found under the
/// new path with the attributes that it had, and is absent under the old one. (Where both paths name one object, it changes
/// nothing.)
pub fn what_is_changed_is_found()
    ensures chmod { (limit : ℕ) (path : List (List ℕ)) (mode : ℕ) (m : Content) (a : Attr)
        → HasNumbers m
        → HasBytes path → reply limit (Stat path) m ≡ AttrReply a
        → reply limit (Stat path) (after limit (Chmod path mode) m)
        ≡ AttrReply (record a { mode = a.mode / 4096 * 4096 + mode % 4096 }) }
    ensures chown { (limit : ℕ) (path : List (List ℕ)) (uid gid : ℕ) (m : Content) (a : Attr)
        → HasNumbers m
        → HasBytes path → reply limit (Stat path) m ≡ AttrReply a
        → reply limit (Stat path) (after limit (Chown path uid gid) m)
        ≡ AttrReply (record a { uid = uid; gid = gid }) }
    ensures times { (limit : ℕ) (path : List (List ℕ)) (atime mtime ctime : ℕ) (m : Content)
        (a : Attr)
        → HasNumbers m → HasBytes path → reply limit (Stat path) m ≡ AttrReply a
        → reply limit (Stat path) (after limit (Times path atime mtime ctime) m)
        ≡ AttrReply (record a { atime = atime; mtime = mtime; ctime = ctime }) }
    ensures link { (limit : ℕ) (from to : List (List ℕ)) (m : Content) (a : Attr) → limit < 2 ^ 64
        → IsLawful limit m → HasBytes from → HasBytes to → reply limit (Stat from) m ≡ AttrReply a
        → reply limit (Link from to) m ≡ Okay
        → (reply limit (Stat to) (after limit (Link from to) m) ≡ AttrReply (link_more a))
        × (reply limit (Stat from) (after limit (Link from to) m) ≡ AttrReply (link_more a)) }
    ensures rmdir { (limit : ℕ) (path : List (List ℕ)) (m : Content) → limit < 2 ^ 64
        → IsLawful limit m
        → HasBytes path → reply limit (Rmdir path) m ≡ Okay
        → reply limit (Stat path) (after limit (Rmdir path) m) ≡ Absent }
    ensures rename { (limit : ℕ) (from to : List (List ℕ)) (m : Content) (a : Attr) → limit < 2 ^ 64
        → IsLawful limit m → HasBytes from → HasBytes to → reply limit (Stat from) m ≡ AttrReply a
        → reply limit (Rename from to) m ≡ Okay
        → (k : ℕ) → is_in (changes limit (Rename from to) m) k ≡ true
        → (reply limit (Stat to) (after limit (Rename from to) m) ≡ AttrReply a)
        × (reply limit (Stat from) (after limit (Rename from to) m) ≡ Absent) }
{}

/// A content that a volume may have stays one: after each command its objects, directories and entries are again as a
/// volume asks it, its keys fit what stands at them, each file has just the bytes below its size, and links are numbers of
/// their field (docs/volume.md, "The content of an image"). A command that makes an object must name an id that is not in
/// use. Each directory must be able to count another entry: one that can count so many and one more, can count so many
/// after the command (`RoomFor`), so that for so many commands no more is asked.
pub fn lawful_contents_stay_lawful()
    ensures objects { (limit : ℕ) (c : Command) (m : Content) → limit < 2 ^ 64 → IsLawful limit m
        → HasBytePaths c → NamesUnused m c
        → HasObjects (after limit c m) }
    ensures bodies { (limit : ℕ) (c : Command) (m : Content) → limit < 2 ^ 64 → IsLawful limit m
        → HasBytePaths c → NamesUnused m c
        → HasBodies limit (after limit c m) }
    ensures links { (limit : ℕ) (c : Command) (m : Content) → limit < 2 ^ 64 → IsLawful limit m
        → HasBytePaths c → NamesUnused m c
        → (o : Target) (a : Attr) → HasStat (after limit c m) o a → a.nlink < 2 ^ 32 }
    ensures room { (limit : ℕ) (c : Command) (m : Content) (n : ℕ) → limit < 2 ^ 64
        → IsLawful limit m → HasBytePaths c → NamesUnused m c
        → RoomFor (n + 1) m → RoomFor n (after limit c m) }
    ensures lawful { (limit : ℕ) (c : Command) (m : Content) → limit < 2 ^ 64 → IsLawful limit m
        → HasBytePaths c → NamesUnused m c
        → RoomFor 2 m → IsLawful limit (after limit c m) }
    ensures numbers { (limit : ℕ) (m : Content) → limit < 2 ^ 64 → IsLawful limit m → HasNumbers m }
{}

/// The number of objects after a command is that before it, and those that it makes, without those that it takes away. Both
/// numbers depend on what stands where the command reads alone (docs/commands.md, "Objects born and gone").
pub fn objects_are_counted()
    ensures counted { (limit : ℕ) (c : Command) (m : Content) → limit < 2 ^ 64 → IsLawful limit m
        → HasBytePaths c → NamesUnused m c
        → objects_in (after limit c m) + gone limit c m ≡ objects_in m + born limit c m }
    ensures same_born { (limit : ℕ) (c : Command) (m n : Content) → Agree (commands limit) c m n
        → born limit c m ≡ born limit c n }
    ensures same_gone { (limit : ℕ) (c : Command) (m n : Content) → Agree (commands limit) c m n
        → gone limit c m ≡ gone limit c n }
{}

/// Where units are changed as the edits of a command say, what is visible of them afterwards is the content after the
/// command: bytes that fill the last block of a file may come, stay and go with it (docs/volume.md, "Files").
pub fn moved_units_are_visible()
    ensures command { (limit : ℕ) (c : Command) (m raw units : Content) (moved : Intervals)
        → limit < 2 ^ 64 → IsLawful limit m → HasBytePaths c → NamesUnused m c
        → MovesUnits (ending (course limit c) (of_content m)).edits m raw units moved
        → IsVisible units (after limit c m) }
    ensures edits { (limit : ℕ) (e : Edits) (m raw units : Content) (moved : Intervals)
        → HasBodies limit (edited e m) → MovesUnits e m raw units moved
        → IsVisible units (edited e m) }
{}

/// The content of an image is lawful, and each of its directories can count 2^63 entries more: so commands can be done in it
/// one after another as long as anyone lives.
pub fn volumes_are_lawful()
    ensures objects { (n : ℕ) (image : Image) (m : Content) → HasContent n image m → HasObjects m }
    ensures bodies { (n : ℕ) (image : Image) (m : Content) → HasContent n image m
        → HasBodies greatest_size m }
    ensures lawful { (n : ℕ) (image : Image) (m : Content) → HasContent n image m
        → IsLawful greatest_size m }
    ensures room { (n : ℕ) (image : Image) (m : Content) → HasContent n image m
        → RoomFor (2 ^ 63) m }
{}
