//! What holds of walks.

ghost use Rattle.rl_syntax.specs.declared.operator.Strategy.TheVariants.{TopDownBreak, BottomUpBreak};
ghost use Rattle.rl_types.specs.Declarations.{Declarations};
ghost use Rattle.rl_visit.specs.Laws.{AsksNothingAbove, AsksNothingBelow, FieldsAreAsMany, WalksAreByForm};

/// A walk is by its strategy and by the walks of the children, at any depth, and a repeated one goes on until a walk leaves the
/// value equal: the numbers that bound them in their definitions make no difference.
pub fn walks_are_by_form()
    ensures { (d : Declarations) → WalksAreByForm d }
{}

/// `top-down-break` asks no node below one that was served, and `bottom-up-break` none above it.
pub fn break_strategies_stop()
    ensures below { (d : Declarations) → AsksNothingBelow d TopDownBreak }
    ensures above { (d : Declarations) → AsksNothingAbove d BottomUpBreak }
{}

/// Where a node's children changed, each is asked for the type of a field: its constructor has as many.
pub fn fields_are_as_many()
    ensures { FieldsAreAsMany }
{}
