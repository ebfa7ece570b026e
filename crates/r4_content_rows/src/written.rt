//! Why the laws of what is found after a command ask for numbers of their fields' widths, for
//! names of bytes, for new ids, and for a limit of sizes (`what_is_written_is_read`).

ghost use Rattle.std.specs.FinMap.{from_sorted};
ghost use Rattle.std.specs.Prelude.{◌+◌, ◌^◌, [], ◌∷◌};
ghost use Rattle.r4_content.specs.Examples.{GetReplies, at, below, d, f, id, x};
ghost use Rattle.r4_content.specs.Fields.{HasNumbers, IsUnused};
ghost use Rattle.r4_content.specs.Meaning.{greatest_size};
ghost use Rattle.r4_content.specs.declared.command.Command.TheVariants.{Fill, Read, Stat};
ghost use Rattle.r4_content.specs.declared.command.Command.TheVariants.{Truncate, Write};
ghost use Rattle.r4_content_rows.specs.Conditions.{root_alone};
ghost use Rattle.r4_content_rows.specs.Written.{LosesFile, before_root, byte_over_entry, deep};
ghost use Rattle.r4_content_rows.specs.Written.{deep_file, far, far_below, first_directory};
ghost use Rattle.r4_content_rows.specs.Written.{in_itself, lost_by_create, lost_by_fill};
ghost use Rattle.r4_content_rows.specs.Written.{lost_by_mkdir, lost_by_truncate, lost_by_write};
ghost use Rattle.r4_content_rows.specs.Written.{low_file, name_of_byte, name_of_stat};
ghost use Rattle.r4_content_rows.specs.Written.{named_as_byte, over_root, own_id_run, root_lost};
ghost use Rattle.r4_content_rows.specs.Written.{stat_over_name, used_id_run};

/// Where an ordering or a size in the content has more than 64 bits: bytes that are set, or come
/// as zeros, take the key of the file's own entry; a file that goes takes the root with it; and
/// what is made takes the key of stat data on its way, and loses it again.
pub fn numbers_past_fields()
    ensures write { GetReplies greatest_size (from_sorted byte_over_entry)
        (lost_by_write (at f)) }
    ensures fill { GetReplies greatest_size (from_sorted byte_over_entry) (lost_by_fill (at f)) }
    ensures truncate { GetReplies greatest_size (from_sorted byte_over_entry)
        (lost_by_truncate (at f) 1) }
    ensures truncate_size { GetReplies greatest_size (from_sorted (deep (2 ^ 196)))
        (lost_by_truncate (below d f) 0) }
    ensures unlink { GetReplies greatest_size (from_sorted (before_root over_root 1)) root_lost }
    ensures unlink_size { GetReplies greatest_size (from_sorted (before_root low_file (2 ^ 196)))
        root_lost }
    ensures create { GetReplies greatest_size (from_sorted stat_over_name)
        (lost_by_create far_below) }
    ensures mkdir { GetReplies greatest_size (from_sorted stat_over_name)
        (lost_by_mkdir far_below) }
    ensures unused { IsUnused (from_sorted stat_over_name) (id 65537) }
{}

/// Under names that are no lists of bytes: one whose key is that of the first byte of its file,
/// and one whose key is that of the stat data of the directory in which it is made.
pub fn names_of_no_bytes()
    ensures write { GetReplies greatest_size (from_sorted named_as_byte)
        (lost_by_write (at name_of_byte)) }
    ensures fill { GetReplies greatest_size (from_sorted named_as_byte)
        (lost_by_fill (at name_of_byte)) }
    ensures truncate { GetReplies greatest_size (from_sorted named_as_byte)
        (lost_by_truncate (at name_of_byte) 1) }
    ensures create { GetReplies greatest_size (from_sorted first_directory)
        (lost_by_create (d ∷ name_of_stat ∷ [])) }
    ensures mkdir { GetReplies greatest_size (from_sorted first_directory)
        (lost_by_mkdir (d ∷ name_of_stat ∷ [])) }
    ensures numbers { HasNumbers (from_sorted named_as_byte)
        × HasNumbers (from_sorted first_directory) }
    ensures unused { IsUnused (from_sorted first_directory) (id 65537) }
{}

/// Where the id of a new object is in use: a `create` takes the stat data of a directory on its
/// way, though all contents before it are lawful; a `mkdir` in a directory that has this id, and
/// which has it as its locality too, makes this directory again.
pub fn ids_in_use()
    ensures create { GetReplies greatest_size (from_sorted root_alone) used_id_run }
    ensures mkdir { GetReplies greatest_size (from_sorted in_itself) own_id_run }
    ensures numbers { HasNumbers (from_sorted in_itself) }
{}

/// Where a file may have many more than 2^64 bytes: zeros up to its new size, or up to what is
/// written, take the key of its entry.
pub fn sizes_past_offsets()
    ensures write { LosesFile (far + 1) (Write (below d f) far x) (Read (below d f) far 1)
        deep_file }
    ensures fill { LosesFile (far + 1) (Fill (below d f) far 1 7) (Read (below d f) far 1)
        deep_file }
    ensures truncate { LosesFile far (Truncate (below d f) far) (Stat (below d f)) deep_file }
    ensures numbers { HasNumbers deep_file }
{}
