//! Why commands that are exchanged must spare one another, why what was seen must rise by key, and
//! why a lawful content needs paths of bytes and new ids to stay one.

ghost use Rattle.std.specs.FinMap.{find, from_sorted};
ghost use Rattle.std.specs.Ordering.{nat_cmp};
ghost use Rattle.std.specs.Prelude.{◌≡◌, ℕ, [], ◌∷◌};
ghost use Rattle.r4_base.specs.Value.{at_key};
ghost use Rattle.r4_content.specs.Course.{ending};
ghost use Rattle.r4_content.specs.Examples.{a, at, f, id, renamed_file, root};
ghost use Rattle.r4_content.specs.Fields.{HasBytes, IsUnused};
ghost use Rattle.r4_content.specs.Lawful.{IsLawful};
ghost use Rattle.r4_content.specs.Locality.{Spares};
ghost use Rattle.r4_content.specs.Meaning.{course, greatest_size, reply};
ghost use Rattle.r4_content.specs.Objects.{new_file};
ghost use Rattle.r4_content.specs.Seen.{of_seen};
ghost use Rattle.r4_content.specs.declared.command.Command.TheVariants.{Create, Names, Stat};
ghost use Rattle.r4_content.specs.declared.reply.Reply.TheVariants.{Absent};
ghost use Rattle.r4_content.specs.declared.reply.Reply.TheVariants.{Attr as AttrReply};
ghost use Rattle.r4_content.specs.declared.reply.Reply.TheVariants.{Names as NamesReply};
ghost use Rattle.r4_content_rows.specs.Conditions.{body_name};
ghost use Rattle.r4_content_rows.specs.Premises.{LosesBodies, LosesObjects, alone, makes_below};
ghost use Rattle.r4_content_rows.specs.Premises.{makes_d, makes_f, product, rising, unsorted};

/// Two commands may not be done in either order where only one of them spares the other: a file is
/// made in a directory, or refused, since there is none; what was refused changes nothing. And a
/// command has another reply after one that does not spare it (`apart_commands_commute`).
pub fn both_have_to_spare()
    ensures spares { Spares product makes_below makes_d alone }
    ensures contents { product.after makes_d (product.after makes_below alone)
        ≡ product.after makes_below (product.after makes_d alone) → ⊥ }
    ensures reply { product.reply (Stat (at f)) alone ≡ Absent }
    ensures other_reply { product.reply (Stat (at f)) (product.after makes_f alone)
        ≡ AttrReply new_file }
{}

/// What was seen has to rise by key: names are told in the order in which they were seen, though
/// at each key stands what the content has there (`seen_suffices`, `lists_are_contents`).
pub fn what_was_seen_has_to_rise()
    ensures agrees { (k : ℕ) → find nat_cmp k unsorted ≡ at_key (from_sorted rising) k }
    ensures seen { (ending (course greatest_size (Names root)) (of_seen unsorted)).reply
        ≡ NamesReply (f ∷ a ∷ []) }
    ensures reply { reply greatest_size (Names root) (from_sorted rising)
        ≡ NamesReply (a ∷ f ∷ []) }
{}

/// A lawful content does not stay one under a name that is no list of bytes, whose entry stands
/// where bytes do, nor where an id in use is given to a new file, which then has two entries and
/// counts one (`lawful_contents_stay_lawful`).
pub fn lawful_contents_do_not_stay()
    ensures names { LosesBodies (Create (at body_name) (id 65537)) alone }
    ensures ids { LosesObjects (Create (at f) (id 65536)) (from_sorted renamed_file) }
    ensures before { IsLawful greatest_size alone × IsUnused alone (id 65537) }
    ensures before_too { IsLawful greatest_size (from_sorted renamed_file) × HasBytes (at f) }
{}
