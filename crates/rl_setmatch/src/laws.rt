//! What holds of the divisions of a set.

ghost use Rattle.std.specs.Prelude.{ℕ};
ghost use Rattle.rl_setmatch.specs.Laws.{AreAllChoices, PartsAreByNumbers, PartsHoldAll, Rise};

/// The divisions are by all choices of a star for each element, each once, in lexicographic order.
pub fn divisions_are_all()
    ensures all { (k n : ℕ) → AreAllChoices k n }
    ensures rise { (k n : ℕ) → Rise k n }
{}

/// A part has the elements that its star was chosen for, in their order: none is lost, and none is repeated.
pub fn parts_hold_all()
    ensures by_numbers { PartsAreByNumbers }
    ensures all { PartsHoldAll }
{}
