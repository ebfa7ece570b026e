//! What names name after a command.

ghost use Rattle.std.specs.Prelude.{◌≡◌, ◌<◌, ◌^◌, ◌++◌, ℕ, List, All, false, true};
ghost use Rattle.r4_base.specs.Value.{Content};
ghost use Rattle.r4_base.specs.Volume.{stat_rank};
ghost use Rattle.r4_base.specs.declared.items.Attr.{Attr};
ghost use Rattle.r4_base.specs.declared.items.Target.{Target};
ghost use Rattle.r4_content.specs.Edited.{is_in};
ghost use Rattle.r4_content.specs.Fields.{HasBytePaths, HasBytes, NamesUnused};
ghost use Rattle.r4_content.specs.Lawful.{IsLawful};
ghost use Rattle.r4_content.specs.Meaning.{after, changes, reply};
ghost use Rattle.r4_content.specs.Walk.{At, target_at, walk};
ghost use Rattle.r4_content.specs.declared.command.Command.{Command};
ghost use Rattle.r4_content.specs.declared.command.Command.TheVariants.{Rename};
ghost use Rattle.r4_content.specs.declared.reply.Reply.TheVariants.{Okay};
ghost use Rattle.r4_content_rows.specs.OwnNames.{BeginsWithOwn, IsOwnName};

/// After a command each name of each directory names what it did, or nothing as before; but for
/// the name that a `create`, `mkdir` or `link` makes, that an `unlink` or `rmdir` takes away, and
/// the two of a `rename`. Directories stand by their ids.
pub fn other_names_stay()
    ensures { (limit : ℕ) (c : Command) (m : Content) (dir : ℕ) (n : List ℕ) → limit < 2 ^ 64
        → IsLawful limit m → HasBytePaths c → NamesUnused m c → All (λ x. x < 256) n
        → (IsOwnName m c dir n → ⊥) → target_at (after limit c m) dir n ≡ target_at m dir n }
{}

/// What was found under a path is found there after a command, but for the paths that begin with
/// one that the command makes, takes away or moves. It has the attributes that it had, where the
/// command does not change them.
pub fn other_paths_stay()
    ensures { (limit : ℕ) (c : Command) (m : Content) (path : List (List ℕ)) (o : Target)
        (a : Attr) → limit < 2 ^ 64 → IsLawful limit m → HasBytePaths c → NamesUnused m c
        → HasBytes path → (BeginsWithOwn c path → ⊥) → walk m path ≡ At o a
        → (b : Attr) × (walk (after limit c m) path ≡ At o b)
        × (is_in (changes limit c m) (stat_rank o) ≡ false → b ≡ a) }
{}

/// What was found below a path is found below the one to which it moves, where a `rename` changes
/// something. It has the attributes that it had, where the command does not change them.
pub fn moved_paths_follow()
    ensures { (limit : ℕ) (from to rest : List (List ℕ)) (m : Content) (o : Target) (a : Attr)
        (k : ℕ) → limit < 2 ^ 64 → IsLawful limit m → HasBytes from → HasBytes to → HasBytes rest
        → walk m (from ++ rest) ≡ At o a → reply limit (Rename from to) m ≡ Okay
        → is_in (changes limit (Rename from to) m) k ≡ true
        → (b : Attr) × (walk (after limit (Rename from to) m) (to ++ rest) ≡ At o b)
        × (is_in (changes limit (Rename from to) m) (stat_rank o) ≡ false → b ≡ a) }
{}
