//! Objects born and gone by each command, beside its reply.

ghost use Rattle.std.specs.Prelude.{◌≡◌, map};
ghost use Rattle.r4_base.specs.Volume.{empty_volume};
ghost use Rattle.r4_content.specs.Examples.{GetCounts, counts_run};
ghost use Rattle.r4_content.specs.Meaning.{greatest_size, replies};
ghost use Rattle.r4_content_rows.specs.Counted.{counted_replies};

/// On the empty volume each of the eighteen commands is done, one after another, and makes and
/// takes away so many objects; two that are refused make and take away none.
pub fn each_command_is_counted()
    ensures counts { GetCounts greatest_size empty_volume counts_run }
    ensures replies { replies greatest_size (map (λ d. d.0) counts_run) empty_volume
        ≡ counted_replies }
{}
