//! Why commands are refused, and why laws ask that a command was done.

ghost use Rattle.std.specs.FinMap.{from_sorted};
ghost use Rattle.r4_content.specs.Entries.{linked, moved, moved_onto, name_in, unname_in};
ghost use Rattle.r4_content.specs.Examples.{GetReplies, d, e, f, links_run, one_entry, x};
ghost use Rattle.r4_content.specs.Fields.{HasNumbers};
ghost use Rattle.r4_content.specs.Lawful.{IsLawful};
ghost use Rattle.r4_content.specs.Meaning.{greatest_size};
ghost use Rattle.r4_content.specs.Objects.{new_directory, new_file};
ghost use Rattle.r4_content_rows.specs.Refused.{Unlawful, d_there, e_there, f_there, full_rename};
ghost use Rattle.r4_content_rows.specs.Refused.{idle_rename, refused_link, refused_rename};
ghost use Rattle.r4_content_rows.specs.Refused.{refused_rmdir, root_there, small_tree};

/// Where a command was refused, what is found is not what the laws say of one that was done
/// (`what_is_changed_is_found`): a directory that is not empty, and a file, are there after
/// `rmdir`; no name came by `link`, nor by `rename`, whatever is renamed onto what; nor where a
/// file or a directory has all the links that it may have (there the links are counted and the
/// entries left out, which a lawful content would have). Where both paths of a `rename` name one
/// object, it is done and changes nothing: so the old name is not absent.
pub fn refused_is_not_found()
    ensures lawful { IsLawful greatest_size (from_sorted small_tree) }
    ensures rmdir { GetReplies greatest_size (from_sorted small_tree) refused_rmdir }
    ensures link { GetReplies greatest_size (from_sorted small_tree) refused_link }
    ensures rename { GetReplies greatest_size (from_sorted small_tree) refused_rename }
    ensures idle { GetReplies greatest_size (from_sorted small_tree) idle_rename }
    ensures most_links { GetReplies greatest_size (from_sorted (one_entry f
        (record new_file { nlink = 65535 }))) links_run }
    ensures full_directory { GetReplies greatest_size (from_sorted (one_entry d
        (record new_directory { nlink = 65535 }))) full_rename }
    ensures numbers { HasNumbers (from_sorted (one_entry f
        (record new_file { nlink = 65535 }))) }
{}

/// What refusals keep out: were the edits of a refused command made in a lawful content, what is
/// after it would not be one that a volume may have. So it is for `rmdir` of a directory that is
/// not empty; for `link` of a directory, and to a name that is there; for `rename` of a directory
/// into itself, and onto one that is not empty.
pub fn refusals_keep_lawful()
    ensures rmdir { Unlawful (unname_in root_there d d_there) }
    ensures link_directory { Unlawful (name_in root_there x (linked d_there)) }
    ensures link_taken { Unlawful (name_in root_there d (linked f_there)) }
    ensures rename_inside { Unlawful (moved root_there d d_there d_there e) }
    ensures rename_onto { Unlawful (moved_onto root_there e e_there root_there d d_there) }
{}
