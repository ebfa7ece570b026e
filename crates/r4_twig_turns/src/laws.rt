//! A law of twigs that are packed anew. It is the contract of a function that does nothing.

ghost use Rattle.std.specs.Prelude.{ℕ, ◌+◌, ◌≤◌, List};
ghost use Rattle.r4_base.specs.Tree.{Root, Store};
ghost use Rattle.r4_base.specs.Value.{Value};
ghost use Rattle.r4_twig_work.specs.r4_cell.declared.change.Fresh.{Fresh};
ghost use Rattle.r4_twig_work.specs.r4_measure.Budget.{AreUnplaced, Budget, most_from};
ghost use Rattle.r4_twig_work.specs.r4_measure.Grafting.{IsQuietBelow};
ghost use Rattle.r4_twig_work.specs.r4_measure.Measured.{IsMeasured};
ghost use Rattle.r4_twig_work.specs.r4_work.Working.{root_of, standing};
ghost use Rattle.r4_twig_work.specs.r4_work.declared.working.WorkingSet.{WorkingSet};
ghost use Rattle.r4_twig_turns.specs.Turning.{AreReady, CanRegraftAll, TurnAtMost, TwigTurn};
ghost use Rattle.r4_twig_turns.specs.Turning.{come_at_most, numbers_for};

/// Twigs that are packed anew one after the other, each once, in a working set of which is known what may still come,
/// where nothing more comes of leaves and blocks: each has its condition at its turn. Beside the numbers that what comes
/// below them takes, 64 for each twig suffice. After all of them no more cells stand than might come of those that stood,
/// with a new root, and what comes below the twigs.
pub fn each_twig_has_its_turn()
    ensures turns { (t : Store Value) (r : Root) (es : List TwigTurn) (is : List ℕ) (f : Fresh)
        (w : WorkingSet) (b : Budget) → IsMeasured t r f w b → IsQuietBelow b
        → AreReady t w b es is → AreUnplaced f → f.next + numbers_for es ≤ f.end
        → CanRegraftAll t r es f w }
    ensures few { (t : Store Value) (r : Root) (es : List TwigTurn) (is : List ℕ) (f : Fresh)
        (w : WorkingSet) (b : Budget) → IsMeasured t r f w b → IsQuietBelow b
        → AreReady t w b es is → AreUnplaced f → f.next + numbers_for es ≤ f.end
        → TurnAtMost (most_from b (root_of w r) (standing w) + come_at_most es) t r es f w }
{}
