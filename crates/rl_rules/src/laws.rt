//! What holds of all evaluations, whatever the program, the files and the form.

ghost use Rattle.std.specs.Prelude.{ℕ, ◌+◌, List, []};
ghost use Rattle.rl_base.specs.Holds.{FileMap};
ghost use Rattle.rl_rules.specs.Evaluation.{Evaluation, Reading, eval_as, eval, printed};
ghost use Rattle.rl_rules.specs.Form.{Form};
ghost use Rattle.rl_rules.specs.Fronts.{Fronts, fronts, fronts_of_run};
ghost use Rattle.rl_rules.specs.Laws.{OwnModulesAreWhole, HasPile, EndsWell, AreFiniteMaps, PatternsSeeVariables, FrontsAreByRules, FrontsGoOn, AreFrontsFrom, IsByRules, Leaves, GoesOnFrom, More, AbandonedIsTakenBack, MissLeavesState, MatchLeavesState, BareIsByForm, ConditionsAreByForm, EnumerationLeavesState, FinallyIsUsedOnce};
ghost use Rattle.rl_rules.specs.Program.{Program};
ghost use Rattle.rl_rules.specs.Rule.{Rule};
ghost use Rattle.rl_rules.specs.Run.{derivation_as, derivation};
ghost use Rattle.rl_rules.specs.State.{State};

/// The evaluation of a form is that of its rule, after its unit was taken.
pub fn evaluation_is_by_rules()
    ensures { (reading : Reading) (p : Program) (files : FileMap) → IsByRules reading p files }
{}

/// Units never rise, in a form and in a whole run.
pub fn units_never_rise()
    ensures forms { (reading : Reading) (p : Program) (files : FileMap) (f : Form) (d : ℕ) (s : State) (n : ℕ) (t : List ℕ) → Leaves n (eval_as reading p files f d s n t) }
    ensures runs { (reading : Reading) (p : Program) (files : FileMap) (go : State → Rule) (n : ℕ) → Leaves n (derivation_as reading p files go n) }
{}

/// With more units a form, or a whole run, that was done is done alike, and one that was cut goes on from what it printed.
pub fn more_units_go_on()
    ensures forms { (reading : Reading) (p : Program) (files : FileMap) (k : ℕ) (f : Form) (d : ℕ) (s : State) (n : ℕ) (t : List ℕ) → More k (eval_as reading p files f d s n t) (eval_as reading p files f d s (n + k) t) }
    ensures runs { (reading : Reading) (p : Program) (files : FileMap) (k : ℕ) (go : State → Rule) (n : ℕ) → More k (derivation_as reading p files go n) (derivation_as reading p files go (n + k)) }
{}

/// What was printed is never taken back, and what a run prints with more units begins with what it prints with fewer.
pub fn printed_stays_printed()
    ensures forms { (reading : Reading) (p : Program) (files : FileMap) (f : Form) (d : ℕ) (s : State) (n : ℕ) (t : List ℕ) → GoesOnFrom t (printed (eval_as reading p files f d s n t)) }
    ensures runs { (reading : Reading) (p : Program) (files : FileMap) (k : ℕ) (go : State → Rule) (n : ℕ) → GoesOnFrom (printed (derivation_as reading p files go n)) (printed (derivation_as reading p files go (n + k))) }
{}

/// A member that is abandoned is taken back: what follows it begins in the state before it. Where no member is kept, the state
/// is what it was before all of them: so a list of conditions that begins with a match or an enumeration and does not hold leaves
/// the state as its operand left it.
pub fn abandoned_members_leave_the_state()
    ensures each { (reading : Reading) (files : FileMap) (e : Evaluation) → AbandonedIsTakenBack reading files e }
    ensures all { (reading : Reading) (files : FileMap) (e : Evaluation) → MissLeavesState reading files e }
    ensures matches { (reading : Reading) (p : Program) (files : FileMap) (e : Evaluation) → MatchLeavesState reading p files e }
    ensures enumerations { (reading : Reading) (p : Program) (files : FileMap) (e : Evaluation) → EnumerationLeavesState reading p files e }
{}

/// Whatever the end before it, `finally` is used once, and its own end counts where it is no value.
pub fn finally_is_used_once()
    ensures { (reading : Reading) (p : Program) (files : FileMap) (e : Evaluation) → FinallyIsUsedOnce reading p files e }
{}

/// Parentheses count for nothing, and `a && b` in a list of conditions is two conditions, however deep they nest.
pub fn parentheses_count_for_nothing()
    ensures parts { BareIsByForm }
    ensures conditions { ConditionsAreByForm }
{}

/// No way of extends is longer than the list of modules.
pub fn own_modules_are_whole()
    ensures { OwnModulesAreWhole }
{}

/// Scopes and globals are finite maps, and patterns see the values that variables have.
pub fn scopes_are_finite_maps()
    ensures maps { AreFiniteMaps }
    ensures patterns { PatternsSeeVariables }
{}

/// What was printed before each read is told by the rules, as evaluation is, and each such front begins what is printed in the end.
pub fn fronts_are_by_rules()
    ensures forms { (p : Program) (files : FileMap) → FrontsAreByRules p files }
    ensures joined { (files : FileMap) (e : Evaluation) (fronts_of : Fronts) → FrontsGoOn files e fronts_of }
    ensures begin { (p : Program) (files : FileMap) (f : Form) (d : ℕ) (s : State) (n : ℕ) (t : List ℕ) → AreFrontsFrom t (printed (eval p files f d s n t)) (fronts p files f d s n t) }
    ensures runs { (p : Program) (files : FileMap) (go : State → Rule) (n : ℕ) → AreFrontsFrom [] (printed (derivation p files go n)) (fronts_of_run p files go n) }
{}

/// An expression or a statement ends in no Miss, Kept or Stop, an alternative and the cases on a node in no Kept or Stop, and each
/// form leaves as many scopes, piles and values of `it` as it found, whatever its end.
pub fn forms_end_well()
    ensures { (reading : Reading) (p : Program) (files : FileMap) (f : Form) (d : ℕ) (s : State) (n : ℕ) (t : List ℕ) → HasPile f s → EndsWell f s (eval_as reading p files f d s n t) }
{}
