//! What is kept of a content suffices for its summary. Each law is the contract of a function that does nothing.

ghost use Rattle.std.specs.Prelude.{◌≡◌, ℕ};
ghost use Rattle.r4_content.specs.Course.{ending};
ghost use Rattle.r4_content.specs.Edited.{Edits, Pairs};
ghost use Rattle.r4_content.specs.Listed.{list_edited};
ghost use Rattle.r4_content.specs.Meaning.{course};
ghost use Rattle.r4_content.specs.Reading.{OnlyReads};
ghost use Rattle.r4_content.specs.Seen.{Rises, of_seen};
ghost use Rattle.r4_content.specs.declared.command.Command.{Command};
ghost use Rattle.r4_summary.specs.Kept.{kept_edited, without_bytes};

/// No command that changes something asks for the bytes of files: without them its edits and its reply are the same.
pub fn bytes_are_not_asked()
    ensures { (limit : ℕ) (c : Command) (s : Pairs) → (OnlyReads c → ⊥) → Rises s
        → ending (course limit c) (of_seen s) ≡ ending (course limit c) (of_seen (without_bytes s)) }
{}

/// What edits do to a content without the bytes of its files: keys that get a byte have nothing that is kept.
pub fn edits_of_what_is_kept()
    ensures { (e : Edits) (s : Pairs) → Rises s
        → without_bytes (list_edited e s) ≡ kept_edited e (without_bytes s) }
{}
