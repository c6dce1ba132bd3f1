//! Expressions.

ghost use Rattle.std.specs.Prelude.{◌≡◌, IfOk};
ghost use Rattle.rl_syntax.specs.Expression.{place_of_expression};

use crate::fragment::Concrete;
use crate::identifier::Identifier;
use crate::operator::{Comparison, ProductOperator, Strategy, SumOperator};
use crate::pattern::Pattern;
use crate::statement::{Case, Stat};
use crate::ty::Ty;
use rl_base::{Name, Place, Row, Shared};
use std::alloc::AllocError;

/// An expression. Its place is that of its first token.
#[cycle(form)]
#[derive(Drop)]
pub enum Exp {
    /// `c ? a : b`
    Conditional {
        place: Place,
        condition: Shared<Exp>,
        then: Shared<Exp>,
        otherwise: Shared<Exp>,
    },
    /// `a ? b`: `b` where `a` has no such key, index or field.
    Fallback {
        place: Place,
        value: Shared<Exp>,
        otherwise: Shared<Exp>,
    },
    /// `a ==> b`
    Implication {
        place: Place,
        left: Shared<Exp>,
        right: Shared<Exp>,
    },
    /// `a <==> b`
    Equivalence {
        place: Place,
        left: Shared<Exp>,
        right: Shared<Exp>,
    },
    /// `a || b || ..`
    Disjunction {
        place: Place,
        parts: Row<Shared<Exp>>,
    },
    /// `a && b && ..`
    Conjunction {
        place: Place,
        parts: Row<Shared<Exp>>,
    },
    /// `p := e`
    Match {
        place: Place,
        pattern: Shared<Pattern>,
        value: Shared<Exp>,
    },
    /// `p !:= e`
    NoMatch {
        place: Place,
        pattern: Shared<Pattern>,
        value: Shared<Exp>,
    },
    /// `p <- e`
    Enumeration {
        place: Place,
        pattern: Shared<Pattern>,
        collection: Shared<Exp>,
    },
    /// `a == b`
    Equal {
        place: Place,
        left: Shared<Exp>,
        right: Shared<Exp>,
    },
    /// `a != b`
    NotEqual {
        place: Place,
        left: Shared<Exp>,
        right: Shared<Exp>,
    },
    /// `a < b` and the like
    Compared {
        place: Place,
        left: Shared<Exp>,
        comparison: Comparison,
        right: Shared<Exp>,
    },
    /// `e is name`: whether the constructor or the label of the tree is that one.
    Is {
        place: Place,
        value: Shared<Exp>,
        name: Identifier,
    },
    /// `a + b - c ..`, from the left
    Sum {
        place: Place,
        first: Shared<Exp>,
        /// Each operator with the part behind it.
        rest: Row<(SumOperator, Shared<Exp>)>,
    },
    /// `a * b / c ..`, from the left
    Product {
        place: Place,
        first: Shared<Exp>,
        /// Each operator with the part behind it.
        rest: Row<(ProductOperator, Shared<Exp>)>,
    },
    /// `a o b o ..`, from the left
    Composition {
        place: Place,
        parts: Row<Shared<Exp>>,
    },
    /// `!e`
    Not {
        place: Place,
        value: Shared<Exp>,
    },
    /// `-e`
    Negative {
        place: Place,
        value: Shared<Exp>,
    },
    /// `e[i].f+ ..`: what the suffixes make of the value, from the left
    Suffixed {
        place: Place,
        value: Shared<Exp>,
        suffixes: Row<Suffix>,
    },
    /// `1`
    Integer {
        place: Place,
        value: i128,
    },
    /// `"text"`, its escapes read
    Text {
        place: Place,
        value: Name,
    },
    /// `"text <e> text <e> text"`
    Interpolation {
        place: Place,
        /// The text before the first value.
        first: Name,
        /// Each value with the text behind it.
        rest: Row<(Shared<Exp>, Name)>,
    },
    /// `|cwd:///path|`, or `|unknown:///|` where there is no path
    Location {
        place: Place,
        path: Option<Name>,
    },
    /// `true` or `false`
    Truth {
        place: Place,
        value: bool,
    },
    /// `it`: what a reducer has come to.
    It {
        place: Place,
    },
    /// `strategy visit (e) { cases }`
    Visit {
        place: Place,
        strategy: Strategy,
        subject: Shared<Exp>,
        cases: Row<Shared<Case>>,
        /// The static type of the subject. Reading leaves `value`, and checking sets it.
        subject_type: Shared<Ty>,
    },
    /// A fragment of concrete syntax, with the trees of variables in its holes.
    Fragment {
        place: Place,
        fragment: Shared<Concrete>,
    },
    /// `(e)`: the expression in it, without a unit or depth of its own.
    Parenthesized {
        place: Place,
        value: Shared<Exp>,
    },
    /// `(e | f | conditions)`: from `e` on, `f` for each binding.
    Reducer {
        place: Place,
        start: Shared<Exp>,
        step: Shared<Exp>,
        conditions: Row<Shared<Exp>>,
    },
    /// `(k: v, ..)` or `()`
    Map {
        place: Place,
        /// Each key with its value.
        entries: Row<(Shared<Exp>, Shared<Exp>)>,
    },
    /// `(k: v | conditions)`
    MapComprehension {
        place: Place,
        key: Shared<Exp>,
        value: Shared<Exp>,
        conditions: Row<Shared<Exp>>,
    },
    /// `[a..b]` or `[a, s..b]`
    Range {
        place: Place,
        first: Shared<Exp>,
        second: Option<Shared<Exp>>,
        end: Shared<Exp>,
    },
    /// `[e, *f, ..]` or `[]`
    List {
        place: Place,
        elements: Row<Shared<Exp>>,
    },
    /// `[e, *f, .. | conditions]`
    ListComprehension {
        place: Place,
        elements: Row<Shared<Exp>>,
        conditions: Row<Shared<Exp>>,
    },
    /// `{e, *f, ..}` or `{}`
    Set {
        place: Place,
        elements: Row<Shared<Exp>>,
    },
    /// `{e, *f, .. | conditions}`
    SetComprehension {
        place: Place,
        elements: Row<Shared<Exp>>,
        conditions: Row<Shared<Exp>>,
    },
    /// `<e, ..>`
    Tuple {
        place: Place,
        parts: Row<Shared<Exp>>,
    },
    /// `f(e, ..)`: a call of a function, a library function or a constructor.
    Call {
        place: Place,
        name: Identifier,
        arguments: Row<Shared<Exp>>,
    },
    /// `*e`: the elements of a list or a set, as an element of a list or a set.
    Splice {
        place: Place,
        value: Shared<Exp>,
    },
    /// `#S`: the name of a sort or of a data type, as an argument.
    TypeName {
        place: Place,
        name: Identifier,
    },
    /// `#start[S]`: a sort with layout around it, as an argument.
    StartSort {
        place: Place,
        start_place: Place,
        sort: Identifier,
    },
    /// A loop for the list of the values that it appends, as what is assigned or returned.
    Loop {
        place: Place,
        statement: Shared<Stat>,
    },
    /// `x`
    Variable {
        place: Place,
        name: Identifier,
    },
}

impl Exp {
    /// Its place.
    pub fn place(&self) -> Place
        ensures { result ≡ place_of_expression self.now }
    {
        match self {
            Exp::Conditional { place, .. }
            | Exp::Fallback { place, .. }
            | Exp::Implication { place, .. }
            | Exp::Equivalence { place, .. }
            | Exp::Disjunction { place, .. }
            | Exp::Conjunction { place, .. }
            | Exp::Match { place, .. }
            | Exp::NoMatch { place, .. }
            | Exp::Enumeration { place, .. }
            | Exp::Equal { place, .. }
            | Exp::NotEqual { place, .. }
            | Exp::Compared { place, .. }
            | Exp::Is { place, .. }
            | Exp::Sum { place, .. }
            | Exp::Product { place, .. }
            | Exp::Composition { place, .. }
            | Exp::Not { place, .. }
            | Exp::Negative { place, .. }
            | Exp::Suffixed { place, .. }
            | Exp::Integer { place, .. }
            | Exp::Text { place, .. }
            | Exp::Interpolation { place, .. }
            | Exp::Location { place, .. }
            | Exp::Truth { place, .. }
            | Exp::It { place }
            | Exp::Visit { place, .. }
            | Exp::Fragment { place, .. }
            | Exp::Parenthesized { place, .. }
            | Exp::Reducer { place, .. }
            | Exp::Map { place, .. }
            | Exp::MapComprehension { place, .. }
            | Exp::Range { place, .. }
            | Exp::List { place, .. }
            | Exp::ListComprehension { place, .. }
            | Exp::Set { place, .. }
            | Exp::SetComprehension { place, .. }
            | Exp::Tuple { place, .. }
            | Exp::Call { place, .. }
            | Exp::Splice { place, .. }
            | Exp::TypeName { place, .. }
            | Exp::StartSort { place, .. }
            | Exp::Loop { place, .. }
            | Exp::Variable { place, .. } => *place,
        }
    }
}

/// What may stand behind a value.
#[cycle(form)]
#[derive(Drop)]
pub enum Suffix {
    /// `[i]`
    Subscript {
        place: Place,
        index: Shared<Exp>,
    },
    /// `[a..b]`, `[a..]`, `[..b]` or `[..]`
    Slice {
        place: Place,
        from: Option<Shared<Exp>>,
        to: Option<Shared<Exp>>,
    },
    /// `.f`
    Field {
        place: Place,
        name: Identifier,
    },
    /// `+`: the transitive closure.
    TransitiveClosure {
        place: Place,
    },
    /// `*`: the transitive closure, with all pairs of equal parts.
    ReflexiveClosure {
        place: Place,
    },
}

fn share_bound(bound: &Option<Shared<Exp>>) -> Result<Option<Shared<Exp>>, AllocError>
    ensures { IfOk result (λ it. it ≡ bound.now) }
{
    match bound {
        None => Ok(None),
        Some(bound) => Ok(Some(bound.share()?)),
    }
}

impl Suffix {
    /// One more share of the suffix.
    pub fn share(&self) -> Result<Suffix, AllocError>
        ensures { IfOk result (λ it. it ≡ self.now) }
    {
        match self {
            Suffix::Subscript { place, index } => Ok(Suffix::Subscript {
                place: *place,
                index: index.share()?,
            }),
            Suffix::Slice { place, from, to } => {
                let from = share_bound(from)?;
                let to = share_bound(to)?;
                Ok(Suffix::Slice {
                    place: *place,
                    from,
                    to,
                })
            }
            Suffix::Field { place, name } => Ok(Suffix::Field {
                place: *place,
                name: name.share()?,
            }),
            Suffix::TransitiveClosure { place } => Ok(Suffix::TransitiveClosure { place: *place }),
            Suffix::ReflexiveClosure { place } => Ok(Suffix::ReflexiveClosure { place: *place }),
        }
    }
}
