//! Commands with their replies, by computation (docs/commands.md, "Examples"). Each is the contract of a function that does
//! nothing.

ghost use Rattle.std.specs.FinMap.{from_sorted};
ghost use Rattle.std.specs.Prelude.{◌≡◌, ◌+◌, [], ◌∷◌, ◌++◌, codes};
ghost use Rattle.r4_base.specs.Volume.{byte_rank, empty_volume, root_object, stat_rank};
ghost use Rattle.r4_content.specs.Examples.{GetCounts, Miscounts, counts_run, no_bytes};
ghost use Rattle.r4_content.specs.Examples.{renamed_file, stat_for_entry, under_no_bytes};
ghost use Rattle.r4_content.specs.Examples.{GetReplies, a, at, at_key_of, id, way_to_f, bytes_run};
ghost use Rattle.r4_content.specs.Examples.{clash_run, d, f, full_directory_run, links_run, made};
ghost use Rattle.r4_content.specs.Examples.{miscounted, miscounted_run, moves_run, no_object};
ghost use Rattle.r4_content.specs.Examples.{no_object_run, no_root_run, one_entry, sizes_run};
ghost use Rattle.r4_content.specs.Examples.{three_bytes, ties_run};
ghost use Rattle.r4_content.specs.Meaning.{changes, greatest_size, reads};
ghost use Rattle.r4_content.specs.Objects.{entry_rank, new_directory, new_file};
ghost use Rattle.r4_content.specs.declared.command.Command.TheVariants.{Create, Read, Rename};
ghost use Rattle.r4_content.specs.declared.command.Command.TheVariants.{Truncate, Unlink, Write};

/// On the empty volume: names of one key; refusals in their order; bytes, gaps and links; moves onto other objects.
pub fn empty_volume_examples()
    ensures clash { GetReplies greatest_size empty_volume clash_run }
    ensures ties { GetReplies greatest_size empty_volume ties_run }
    ensures bytes { GetReplies greatest_size empty_volume bytes_run }
    ensures moves { GetReplies greatest_size empty_volume moves_run }
    ensures sizes { GetReplies 8 empty_volume sizes_run }
{}

/// On other contents: the most links; an entry that names no object, and no root; counts that are too small.
pub fn other_contents_examples()
    ensures links { GetReplies greatest_size (from_sorted (one_entry f
        (record new_file { nlink = 65535 }))) links_run }
    ensures more_links { GetReplies greatest_size (from_sorted (one_entry f
        (record new_file { nlink = 70000 }))) links_run }
    ensures full_directory { GetReplies greatest_size (from_sorted (one_entry d
        (record new_directory { nlink = 65535 }))) full_directory_run }
    ensures no_object { GetReplies greatest_size (from_sorted no_object) no_object_run }
    ensures no_root { GetReplies greatest_size (from_sorted []) no_root_run }
    ensures miscounted { GetReplies greatest_size (from_sorted miscounted) miscounted_run }
{}

/// On a file of three bytes: which keys are read and changed. A write inside of the file changes its bytes alone; a read
/// asks for the bytes that are there; what is cut is cut up to the size.
pub fn touched_examples()
    ensures write_reads { reads greatest_size (Write (at f) 0 (codes "XY"))
        (from_sorted three_bytes) ≡ way_to_f }
    ensures write_changes { changes greatest_size (Write (at f) 0 (codes "XY"))
        (from_sorted three_bytes)
        ≡ (byte_rank (made f 65536) 0, byte_rank (made f 65536) 0 + 1)
        ∷ (byte_rank (made f 65536) 1, byte_rank (made f 65536) 1 + 1) ∷ [] }
    ensures read_reads { reads greatest_size (Read (at f) 1 9) (from_sorted three_bytes)
        ≡ way_to_f ++ (byte_rank (made f 65536) 1, byte_rank (made f 65536) 3) ∷ [] }
    ensures far_read_reads { reads greatest_size (Read (at f) 3 9) (from_sorted three_bytes)
        ≡ way_to_f }
    ensures read_changes { changes greatest_size (Read (at f) 1 9) (from_sorted three_bytes) ≡ [] }
    ensures truncate_changes { changes greatest_size (Truncate (at f) 1) (from_sorted three_bytes)
        ≡ at_key_of (stat_rank (made f 65536))
        ∷ (byte_rank (made f 65536) 1, byte_rank (made f 65536) 3) ∷ [] }
    ensures unlink_changes { changes greatest_size (Unlink (at f)) (from_sorted three_bytes)
        ≡ at_key_of (stat_rank root_object) ∷ at_key_of (entry_rank root_object f)
        ∷ at_key_of (stat_rank (made f 65536))
        ∷ (byte_rank (made f 65536) 0, byte_rank (made f 65536) 3) ∷ [] }
    ensures exists_reads { reads greatest_size (Create (at f) (id 65537))
        (from_sorted three_bytes) ≡ at_key_of (stat_rank root_object)
        ∷ at_key_of (entry_rank root_object f) ∷ [] }
    ensures rename_changes { changes greatest_size (Rename (at f) (at a)) (from_sorted three_bytes)
        ≡ at_key_of (entry_rank root_object a) ∷ at_key_of (stat_rank root_object)
        ∷ at_key_of (entry_rank root_object f) ∷ [] }
{}

/// Objects born and gone by each command; and where they do not tell the number of objects: where an id is in use, in a
/// content that no volume has, and under a name that is no list of bytes (`objects_are_counted`).
pub fn counts_examples()
    ensures counts { GetCounts greatest_size empty_volume counts_run }
    ensures used { Miscounts (Create (at f) (id 65536)) (from_sorted renamed_file) }
    ensures unlawful { Miscounts (Create (at f) (id 65537)) (from_sorted stat_for_entry) }
    ensures no_bytes { Miscounts (Create no_bytes (id 65537)) (from_sorted under_no_bytes) }
{}
