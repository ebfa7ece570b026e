//! Laws of the definitions. Each is the contract of a function that does nothing.

ghost use Rattle.std.specs.Prelude.{◌≡◌, ℕ, List, take};
ghost use Rattle.r4_script.specs.Text.{job_of};
ghost use Rattle.r4_source.specs.Reading.{most};

/// What stands behind the first byte that is too many says nothing: the first 16,777,217 bytes of a
/// text spell the job that the whole text spells, or have the same fault (docs/scripts.md,
/// "Faults").
pub fn longer_texts_spell_the_same()
    ensures { (text : List ℕ) → job_of (take most text) ≡ job_of text }
{}
