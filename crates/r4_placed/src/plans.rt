//! Laws of the plan that is made for an atom whose cells have places (docs/durable.md). Each is the contract of a
//! function that does nothing.

ghost use Rattle.std.specs.Prelude.{ℕ, []};
ghost use Rattle.r4_base.specs.Value.{Content};
ghost use Rattle.r4_sealed.specs.r4_place.Chosen.{placed_all};
ghost use Rattle.r4_sealed.specs.r4_wander.declared.plan.LogPlan.{LogPlan};
ghost use Rattle.r4_sealed.specs.r4_commit.Plannable.{IsPlannable};
ghost use Rattle.r4_sealed.specs.Commits.{HasPlan, IsCommitOn};
ghost use Rattle.r4_placed.specs.Flushing.{Flushing, IsAtRest, commit_by_block, commit_of};

/// Where nothing is unflushed, the blocks that are chosen for an atom's cells make a plan that is safe (`plannable`):
/// for the cells under the names that they had (`commits`), and under the names of their blocks (`by_block`).
pub fn plans_can_be_made()
    ensures plannable { (n : ℕ) (work : Flushing) (m : Content) → IsAtRest n work m
        → IsPlannable n work.base [] (placed_all work.space work.answers) work.cells work.answers
        work.next work.last }
    ensures commits { (n : ℕ) (work : Flushing) (m : Content) (p : LogPlan) → IsAtRest n work m
        → HasPlan (commit_of work p) → IsCommitOn n (commit_of work p) }
    ensures by_block { (n : ℕ) (work : Flushing) (m : Content) (p : LogPlan) → IsAtRest n work m
        → HasPlan (commit_by_block work p) → IsCommitOn n (commit_by_block work p) }
{}
