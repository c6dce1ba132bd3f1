//! Patterns.

ghost use Rattle.std.specs.Prelude.{◌≡◌, IfOk};
ghost use Rattle.rl_syntax.specs.Pattern.{place_of_pattern};

use crate::fragment::Concrete;
use crate::identifier::{Identifier, PatternVariable};
use crate::ty::Ty;
use rl_base::{Name, Place, Row, Shared};
use std::alloc::AllocError;

/// A pattern. Its place is that of its first token.
#[cycle(pattern)]
#[derive(Drop)]
pub enum Pattern {
    /// `T x : p`: a value of type `T` that `p` matches too.
    TypedBinding {
        place: Place,
        ty: Shared<Ty>,
        variable: PatternVariable,
        pattern: Shared<Pattern>,
    },
    /// `x : p`: a value that `p` matches too.
    Binding {
        place: Place,
        variable: PatternVariable,
        pattern: Shared<Pattern>,
    },
    /// `!p`: a value that `p` does not match.
    Negation {
        place: Place,
        pattern: Shared<Pattern>,
    },
    /// `/p`: a value in which `p` matches something, at any depth.
    Descendant {
        place: Place,
        pattern: Shared<Pattern>,
    },
    /// A fragment, matched as a tree.
    Fragment {
        place: Place,
        fragment: Shared<Concrete>,
    },
    /// `c(p, ..)`
    Constructor {
        place: Place,
        name: Identifier,
        parts: Row<Shared<Pattern>>,
    },
    /// `T x`: any value of the type.
    TypedVariable {
        place: Place,
        ty: Shared<Ty>,
        variable: PatternVariable,
    },
    /// `T _`
    TypedWildcard {
        place: Place,
        ty: Shared<Ty>,
    },
    /// `[p, *x, ..]`
    List {
        place: Place,
        elements: Row<PatternElement>,
    },
    /// `{p, *x, ..}`
    Set {
        place: Place,
        elements: Row<PatternElement>,
    },
    /// `<p, ..>`
    Tuple {
        place: Place,
        parts: Row<Shared<Pattern>>,
    },
    /// `-1` or `1`
    Integer {
        place: Place,
        value: i128,
    },
    /// `"text"`
    Text {
        place: Place,
        value: Name,
    },
    /// `|cwd:///path|`, or `|unknown:///|` where there is no path.
    Location {
        place: Place,
        path: Option<Name>,
    },
    /// `true` or `false`
    Truth {
        place: Place,
        value: bool,
    },
    /// `_`
    Wildcard {
        place: Place,
    },
    /// `x`
    Variable {
        place: Place,
        variable: PatternVariable,
    },
}

impl Pattern {
    /// Its place.
    pub fn place(&self) -> Place
        ensures { result ≡ place_of_pattern self.now }
    {
        match self {
            Pattern::TypedBinding { place, .. }
            | Pattern::Binding { place, .. }
            | Pattern::Negation { place, .. }
            | Pattern::Descendant { place, .. }
            | Pattern::Fragment { place, .. }
            | Pattern::Constructor { place, .. }
            | Pattern::TypedVariable { place, .. }
            | Pattern::TypedWildcard { place, .. }
            | Pattern::List { place, .. }
            | Pattern::Set { place, .. }
            | Pattern::Tuple { place, .. }
            | Pattern::Integer { place, .. }
            | Pattern::Text { place, .. }
            | Pattern::Location { place, .. }
            | Pattern::Truth { place, .. }
            | Pattern::Wildcard { place }
            | Pattern::Variable { place, .. } => *place,
        }
    }
}

/// An element of a list pattern or a set pattern.
#[cycle(pattern)]
#[derive(Drop)]
pub enum PatternElement {
    /// `*_`: any elements.
    AnyRest {
        place: Place,
    },
    /// `*T x`: elements of the type.
    TypedRest {
        place: Place,
        ty: Shared<Ty>,
        variable: PatternVariable,
    },
    /// `*x`: any elements.
    Rest {
        place: Place,
        variable: PatternVariable,
    },
    /// One element.
    Single(Shared<Pattern>),
}

impl PatternElement {
    /// One more share of the element.
    pub fn share(&self) -> Result<PatternElement, AllocError>
        ensures { IfOk result (λ it. it ≡ self.now) }
    {
        match self {
            PatternElement::AnyRest { place } => Ok(PatternElement::AnyRest { place: *place }),
            PatternElement::TypedRest {
                place,
                ty,
                variable,
            } => {
                let variable = variable.share()?;
                Ok(PatternElement::TypedRest {
                    place: *place,
                    ty: ty.share()?,
                    variable,
                })
            }
            PatternElement::Rest { place, variable } => {
                let variable = variable.share()?;
                Ok(PatternElement::Rest {
                    place: *place,
                    variable,
                })
            }
            PatternElement::Single(pattern) => Ok(PatternElement::Single(pattern.share()?)),
        }
    }
}
