//! Small programs, evaluated.

ghost use Rattle.rl_base.specs.Holds.{FileMap};
ghost use Rattle.rl_rules.specs.NumberingExamples.{AreTheSameCleared, ConditionsGovern, HolesAreNew, HolesAreNoTests, NumbersInsideNegations, NumbersOfNames, OnlySettingDeclares, StarsServeLast};
ghost use Rattle.rl_rules.specs.Examples.{OneLine, FinallyAfterReturn, FinallyThrows, Counting, WithoutValue, OutOfRange, FallingBack, LeavingLoop, Handled, FinallyAtACut, NextAlternative, FalseCondition, ThreeElements, Reducing, TakenBack, FixedAtStart, Divided, FalseUnderMember, OtherAlternative, TestWithoutValue, SecondHandler, DeepestCall, Parsing, Collecting, Exchanging, ChangingInside, JoinedConditions, UnderConditions, Solving, Extending, AppendingInConditions, AppendingInBody, AppendingInTests, Testing, Visiting, SixStrategies};

/// A program of one line takes five units, and prints nothing with four.
pub fn one_line()
    ensures { (files : FileMap) → OneLine files }
{}

/// `finally` is used after `return`, and gives way where it ends in a value.
pub fn finally_after_return()
    ensures { (files : FileMap) → FinallyAfterReturn files }
{}

/// An exception of `finally` stands in place of what was returned.
pub fn finally_throws()
    ensures { (files : FileMap) → FinallyThrows files }
{}

/// A loop takes its unit once, and the units of its condition and body at each turn.
pub fn counting()
    ensures { (files : FileMap) → Counting files }
{}

/// A global without a value throws where its old value is needed.
pub fn without_value()
    ensures { (files : FileMap) → WithoutValue files }
{}

/// A subscript out of range throws.
pub fn out_of_range()
    ensures { (files : FileMap) → OutOfRange files }
{}

/// `a ? b` is `b` where there is no such index.
pub fn falling_back()
    ensures { (files : FileMap) → FallingBack files }
{}

/// `continue` ends the body, and `break` the loop.
pub fn leaving_loop()
    ensures { (files : FileMap) → LeavingLoop files }
{}

/// A handler sees the state as the throw left it.
pub fn handled()
    ensures { (files : FileMap) → Handled files }
{}

/// Where no unit is left, nothing more happens, and `finally` is not used.
pub fn finally_at_a_cut()
    ensures { (files : FileMap) → FinallyAtACut files }
{}

/// `fail` leads to the next alternative of a function, and one that is marked `default` comes last.
pub fn next_alternative()
    ensures { (files : FileMap) → NextAlternative files }
{}

/// The changes of a condition that is false stand where nothing was bound.
pub fn false_condition()
    ensures { (files : FileMap) → FalseCondition files }
{}

/// A binding costs a unit beside those of the body.
pub fn three_elements()
    ensures { (files : FileMap) → ThreeElements files }
{}

/// A reducer goes on from its start for each binding.
pub fn reducing()
    ensures { (files : FileMap) → Reducing files }
{}

/// A binding under which the body fails is taken back, but not what was printed.
pub fn taken_back()
    ensures { (files : FileMap) → TakenBack files }
{}

/// The bindings of a loop are fixed where it begins.
pub fn fixed_at_start()
    ensures { (files : FileMap) → FixedAtStart files }
{}

/// A set is divided among stars in every way, each once, in order.
pub fn divided()
    ensures { (files : FileMap) → Divided files }
{}

/// The changes of a condition that is false under a binding are undone.
pub fn false_under_member()
    ensures { (files : FileMap) → FalseUnderMember files }
{}

/// An alternative that does not take the arguments leads to the next.
pub fn other_alternative()
    ensures { (files : FileMap) → OtherAlternative files }
{}

/// A pattern that tests a global without a value throws.
pub fn test_without_value()
    ensures { (files : FileMap) → TestWithoutValue files }
{}

/// The first handler that takes the exception is used.
pub fn second_handler()
    ensures { (files : FileMap) → SecondHandler files }
{}

/// An alternative stands one deeper than its call, and past the greatest depth it throws.
pub fn deepest_call()
    ensures { (files : FileMap) → DeepestCall files }
{}

/// A sort among the arguments is no value, but counts where a constructor is looked for.
pub fn parsing()
    ensures { (files : FileMap) → Parsing files }
{}

/// A comprehension collects its elements for each binding.
pub fn collecting()
    ensures { (files : FileMap) → Collecting files }
{}

/// A tuple assignment writes its variables from the left, once the whole value is there.
pub fn exchanging()
    ensures { (files : FileMap) → Exchanging files }
{}

/// An assignment through a path changes the part at its end.
pub fn changing_inside()
    ensures { (files : FileMap) → ChangingInside files }
{}

/// `&&` is two conditions in a list of conditions, and an expression elsewhere.
pub fn joined_conditions()
    ensures { (files : FileMap) → JoinedConditions files }
{}

/// An alternative whose `when` does not hold leads to the next.
pub fn under_conditions()
    ensures { (files : FileMap) → UnderConditions files }
{}

/// `solve` goes on until its body leaves the variables as they were.
pub fn solving()
    ensures { (files : FileMap) → Solving files }
{}

/// A call in an extended module finds the alternatives of the module that acts.
pub fn extending()
    ensures { (files : FileMap) → Extending files }
{}

/// `append` in the conditions of a loop adds to the loop around.
pub fn appending_in_conditions()
    ensures { (files : FileMap) → AppendingInConditions files }
{}

/// `append` in the body of a loop adds to that loop.
pub fn appending_in_body()
    ensures { (files : FileMap) → AppendingInBody files }
{}

/// So does `append` in the conditions of `while` and in the test of `do`.
pub fn appending_in_tests()
    ensures { (files : FileMap) → AppendingInTests files }
{}

/// A test has a derivation of its own, which begins with the initialisers.
pub fn testing()
    ensures { (files : FileMap) → Testing files }
{}

/// A visit costs a unit for each node, beside those of the cases that are taken.
pub fn visiting()
    ensures { (files : FileMap) → Visiting files }
{}

/// What the six strategies print of `f(f(a()))` where `f(x)` becomes `x`.
pub fn six_strategies()
    ensures { (files : FileMap) → SixStrategies files }
{}

/// Each declaration has a number of its own, one inside `!p` too, and each name that of its declaration.
pub fn numbering()
    ensures names { NumbersOfNames }
    ensures negations { NumbersInsideNegations }
    ensures cleared { AreTheSameCleared }
{}

/// Which names are visible where: the stars of a set pattern serve last, `else` and the body of `do` see nothing of the
/// conditions, and only `x = e` and the assignment of a tuple declare. The holes of a pattern are new, and those of an
/// expression test nothing.
pub fn visible_names()
    ensures stars { StarsServeLast }
    ensures conditions { ConditionsGovern }
    ensures assignments { OnlySettingDeclares }
    ensures new_holes { HolesAreNew }
    ensures holes { HolesAreNoTests }
{}
