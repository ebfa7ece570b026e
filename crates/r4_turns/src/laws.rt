//! Laws of the definitions. Each is the contract of a function that does nothing.

ghost use Rattle.std.specs.Prelude.{ℕ, ◌≢◌, ◌⊎◌};
ghost use Rattle.r4_turns.specs.Turns.{IsBefore, TurnsSeen};

/// Scripts stand in one order: none before itself, one of two before the other, and before what stands behind that.
pub fn order_law()
    ensures apart { (t : TurnsSeen) (a : ℕ) → IsBefore t a a → ⊥ }
    ensures total { (t : TurnsSeen) (a b : ℕ) → a ≢ b → IsBefore t a b ⊎ IsBefore t b a }
    ensures onward { (t : TurnsSeen) (a b c : ℕ) → IsBefore t a b → IsBefore t b c → IsBefore t a c }
{}
