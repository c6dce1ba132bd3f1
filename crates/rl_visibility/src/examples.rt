//! What modules see of one another, at modules that are written out.

ghost use Rattle.std.specs.Prelude.{◌≡◌, [], ◌∷◌, codes};
ghost use Rattle.rl_visibility.specs.Visible.{own, imported, built_in, alternatives, visible_functions, visible_globals};
ghost use Rattle.rl_visibility.specs.Examples.{extending, mixed, shown, shown_globals};

/// A module's own modules come depth first, each once, also where modules extend one another in a circle.
pub fn own_modules()
    ensures first { own extending 0 ≡ 0 ∷ 1 ∷ 2 ∷ 3 ∷ [] }
    ensures circle { own extending 3 ≡ 3 ∷ 2 ∷ 0 ∷ 1 ∷ [] }
    ensures built_in { built_in extending 3 ≡ codes "IO" ∷ [] }
{}

/// A call finds the functions of the acting module's own modules, then those of its imports, in which the imports act, and
/// then those of the imports of the module in which it stands. Private ones are found in their own module alone.
pub fn found_functions()
    ensures main { shown (visible_functions mixed 0) ≡ (codes "f", 0, 0) ∷ (codes "a", 1, 0) ∷ (codes "b", 3, 3) ∷ (codes "c", 4, 3) ∷ [] }
    ensures extended { shown (alternatives mixed 1 0) ≡ (codes "f", 0, 0) ∷ (codes "a", 1, 0) ∷ (codes "p", 1, 0) ∷ (codes "b", 3, 3) ∷ (codes "c", 4, 3) ∷ (codes "d", 2, 2) ∷ [] }
    ensures alone { shown (visible_functions mixed 1) ≡ (codes "a", 1, 1) ∷ (codes "p", 1, 1) ∷ (codes "d", 2, 2) ∷ [] }
{}

/// A module sees the globals of its own modules and of its imports, and of private ones just its own.
pub fn seen_globals()
    ensures main { shown_globals (visible_globals mixed 0) ≡ (codes "n", 0) ∷ (codes "k", 3) ∷ [] }
    ensures extended { shown_globals (visible_globals mixed 1) ≡ (codes "o", 1) ∷ [] }
{}
