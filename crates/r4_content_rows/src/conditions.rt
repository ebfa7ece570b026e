//! Why laws of commands have their conditions: commands and contents at which one condition does
//! not hold, and neither does the law. Each is the contract of a function that does nothing.

ghost use Rattle.std.specs.FinMap.{from_sorted};
ghost use Rattle.std.specs.Prelude.{◌↔◌, ◌+◌, ◌^◌};
ghost use Rattle.r4_base.specs.Value.{Content};
ghost use Rattle.r4_base.specs.Volume.{IsVisible, byte_rank, root_object, stat_rank};
ghost use Rattle.r4_content.specs.Edited.{Edits, Intervals, changed, edited};
ghost use Rattle.r4_content.specs.Examples.{GetReplies, at, f, made, one_entry};
ghost use Rattle.r4_content.specs.Fields.{HasBytes, HasNumbers};
ghost use Rattle.r4_content.specs.Lawful.{HasBodies};
ghost use Rattle.r4_content.specs.Meaning.{after, greatest_size};
ghost use Rattle.r4_content.specs.Objects.{entry_rank, new_file, sized};
ghost use Rattle.r4_content.specs.Units.{MovesUnits};
ghost use Rattle.r4_content.specs.declared.command.Command.TheVariants.{Read, Stat, Truncate};
ghost use Rattle.r4_content.specs.declared.command.Command.TheVariants.{Unlink};
ghost use Rattle.r4_content_rows.specs.Conditions.{KeepsPadding, LosesOne, MayBeDone};
ghost use Rattle.r4_content_rows.specs.Conditions.{MovesButPadding, SkipsStat, body_name};
ghost use Rattle.r4_content_rows.specs.Conditions.{empty_file, far_entry, far_object};
ghost use Rattle.r4_content_rows.specs.Conditions.{lost_link_run, own_entry, own_entry_run};
ghost use Rattle.r4_content_rows.specs.Conditions.{root_alone, stat_at_name, two_files};
ghost use Rattle.r4_content_rows.specs.Conditions.{unlinking, with_padding};

/// A command can read or change a key of a body and not read the stat key of the body's object:
/// where a name of its path is no list of bytes; where an ordering or a size in the content has
/// more than 64 bits; where a file may have more than 2^64 bytes (`commands_ask_for_stats`). In
/// each of these the law's other conditions hold.
pub fn unasked_stats()
    ensures no_bytes { SkipsStat greatest_size (Stat (at body_name)) (from_sorted root_alone)
        (entry_rank root_object body_name) }
    ensures ordering { SkipsStat greatest_size (Stat (at f)) (from_sorted far_entry)
        (stat_rank far_object) }
    ensures size { SkipsStat greatest_size (Read (at f) (2 ^ 64) 1)
        (from_sorted (one_entry f (sized new_file (2 ^ 64 + 1))))
        (byte_rank (made f 65536) (2 ^ 64)) }
    ensures limit { SkipsStat (2 ^ 64 + 1) (Truncate (at f) (2 ^ 64 + 1)) empty_file
        (byte_rank (made f 65536) (2 ^ 64)) }
    ensures others { HasNumbers (from_sorted root_alone) × HasNumbers empty_file
        × HasBytes (at f) }
{}

/// In a content that is not lawful, what was changed need not be found as it was. Where the stat
/// data of a file stand at the key of a name, the file gets this name and is absent under it. A
/// directory that has an entry for itself is found under a new name with an entry less than it had,
/// though all numbers are of their fields' widths (`what_is_changed_is_found`).
pub fn not_found_again()
    ensures link { GetReplies greatest_size (from_sorted stat_at_name) lost_link_run }
    ensures rename { GetReplies greatest_size (from_sorted own_entry) own_entry_run }
    ensures numbers { HasNumbers (from_sorted own_entry) }
{}

/// Where a file goes and a byte behind its end stays, this byte is visible: it belongs to no file,
/// and the content after the command has it not (`moved_units_are_visible`). All but `padding` is
/// as `MovesUnits` asks it.
pub fn byte_left()
    ensures before { MayBeDone greatest_size (Unlink (at f)) empty_file }
    ensures moved { MovesButPadding unlinking empty_file with_padding
        (edited unlinking with_padding) (changed unlinking) }
    ensures visible { IsVisible (edited unlinking with_padding)
        (after greatest_size (Unlink (at f)) empty_file) → ⊥ }
    ensures padding { (e : Edits) (m raw units : Content) (moved : Intervals)
        → MovesUnits e m raw units moved
        ↔ (MovesButPadding e m raw units moved × KeepsPadding e m raw moved) }
{}

/// Where a file may have more than 2^64 bytes, a lawful content need not stay lawful: offsets have
/// 64 bits, and behind them stands the first byte of an object that is not there
/// (`lawful_contents_stay_lawful`).
pub fn beyond_offsets()
    ensures before { MayBeDone (2 ^ 64 + 1) (Truncate (at f) (2 ^ 64 + 1)) empty_file }
    ensures bodies { HasBodies (2 ^ 64 + 1)
        (after (2 ^ 64 + 1) (Truncate (at f) (2 ^ 64 + 1)) empty_file) → ⊥ }
{}

/// Where a file may have many more than 2^64 bytes, it can grow over the stat data of another file:
/// this one is lost, and the numbers of objects born and gone do not tell it
/// (`objects_are_counted`).
pub fn grown_over()
    ensures before { MayBeDone (2 ^ 196) (Truncate (at f) (2 ^ 196)) (from_sorted two_files) }
    ensures objects { LosesOne (2 ^ 196) (Truncate (at f) (2 ^ 196)) (from_sorted two_files) }
{}
