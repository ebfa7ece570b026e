//! Laws of the definitions. Each is the contract of a function that does nothing.

ghost use Rattle.std.specs.Prelude.{◌≡◌, ◌↔◌, ℕ, List, Ok};
ghost use Rattle.r4_script.specs.declared.job.Job.{Job};
ghost use Rattle.r4_script.specs.Grammar.{SpellsJob};
ghost use Rattle.r4_script.specs.Spelling.{AreScripts, IsJob, job_text};
ghost use Rattle.r4_script.specs.Text.{job_of};

/// A text is read as a job exactly where it spells that job by the grammar: nothing that is spelled is refused, and nothing
/// else is read (docs/scripts.md, "Commands"). A job that is read keeps the rules, and each job that keeps them has a text, in
/// which its commands stand line by line.
pub fn grammar_law()
    ensures exact { (text : List ℕ) (job : Job) → (job_of text ≡ Ok job) ↔ SpellsJob text job }
    ensures kept { (text : List ℕ) (job : Job) → job_of text ≡ Ok job → AreScripts job.scripts }
    ensures spelled { (job : Job) → IsJob job → job_of (job_text job) ≡ Ok job }
{}
