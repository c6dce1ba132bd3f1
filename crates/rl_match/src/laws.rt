//! What holds of the bindings of patterns.

ghost use Rattle.rl_match.specs.Laws.{AreByForm, BelowIsByKids, OnlyTestsAreSeen, VariablesAreByForm};

/// The bindings of a pattern are by its form and by those of the patterns in it, at any depth: how many levels their definition
/// opens makes no difference. So are its variables.
pub fn bindings_are_by_form()
    ensures bindings { AreByForm }
    ensures variables { VariablesAreByForm }
{}

/// A deep pattern and a visit go through the same values: a value, and then those below each of its kids.
pub fn below_is_by_kids()
    ensures { BelowIsByKids }
{}

/// Of the variables from outside, the bindings of a pattern depend only on the values of those that the pattern tests.
pub fn only_tests_are_seen()
    ensures { OnlyTestsAreSeen }
{}
