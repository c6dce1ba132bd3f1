//! Small values, walked.

ghost use Rattle.rl_visit.specs.Examples.{SixStrategies, Repeating};

/// What the six strategies make of `f(f(a()))` where `f(x)` becomes `x`.
pub fn six_strategies()
    ensures { SixStrategies }
{}

/// What they make of `[0]` where 0 becomes 1 and 1 becomes 2: `innermost` and `outermost` walk until nothing changes.
pub fn repeating_strategies()
    ensures { Repeating }
{}
