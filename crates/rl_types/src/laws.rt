//! What holds of types whatever a program declares.

ghost use Rattle.std.specs.Prelude.{◌≡◌, ◌↔◌, ℕ, List, true};
ghost use Rattle.rl_syntax.specs.declared.pattern.Pattern.{Pattern};
ghost use Rattle.rl_value.specs.Plain.{Plain};
ghost use Rattle.rl_types.specs.Declarations.{Declarations};
ghost use Rattle.rl_types.specs.Matchable.{FragmentHoles, MayStart, may_start};
ghost use Rattle.rl_types.specs.PlainType.{PlainType};
ghost use Rattle.rl_types.specs.Types.{subtype, join, has, IsApart};

/// Each type is below itself, and what is below a type that is below another is below that.
pub fn subtype_is_an_order()
    ensures reflexive { (d : Declarations) (T : PlainType) → subtype d T T ≡ true }
    ensures transitive { (d : Declarations) (T U V : PlainType) → subtype d T U ≡ true → subtype d U V ≡ true → subtype d T V ≡ true }
{}

/// The join of two types is above both, and below every type that is above both.
pub fn join_is_least()
    ensures left { (d : Declarations) (T U : PlainType) → subtype d T (join d T U) ≡ true }
    ensures right { (d : Declarations) (T U : PlainType) → subtype d U (join d T U) ≡ true }
    ensures least { (d : Declarations) (T U V : PlainType) → subtype d T V ≡ true → subtype d U V ≡ true → subtype d (join d T U) V ≡ true }
{}

/// A value that has a type has every type above it, where no data type is a sort.
pub fn values_have_types_above()
    ensures { (d : Declarations) (a : IsApart d) (v : Plain) (T U : PlainType) → has d v T ≡ true → subtype d T U ≡ true → has d v U ≡ true }
{}

/// Whether a pattern may be matched is one test.
pub fn may_start_is_a_test()
    ensures { (pattern : Pattern) (outside : List ℕ) (fragments : List FragmentHoles) → (may_start pattern outside fragments ≡ true) ↔ MayStart pattern outside fragments }
{}
