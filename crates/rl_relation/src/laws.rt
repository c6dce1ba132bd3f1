//! What holds of closures.

ghost use Rattle.rl_relation.specs.Laws.{ClosureJoinsPaths};

/// The transitive closure has exactly the pairs that a path of one pair or more joins.
pub fn closure_joins_paths()
    ensures { ClosureJoinsPaths }
{}
