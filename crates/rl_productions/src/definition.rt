//! Definitions of sorts.

ghost use Rattle.std.specs.Prelude.{◌≡◌, IfOk};

use crate::symbol::Sym;
use rl_base::{Name, Place, Row};
use std::alloc::AllocError;

/// What a definition of a sort begins with.
#[derive(Clone, Copy, Debug, PartialEq, Eq)]
pub enum SyntaxRole {
    /// `syntax`: layout may stand between the symbols.
    Syntax,
    /// `lexical`: the symbols adjoin.
    Lexical,
    /// `layout`: what may stand between symbols.
    Layout,
    /// `keyword`: words that a sort may reserve.
    Keyword,
}

/// A definition of a sort, as `start syntax E = N > left E "*" E;`.
#[derive(Drop)]
pub struct SyntaxDef {
    /// Its first token.
    pub place: Place,
    /// Whether it is marked `start`.
    pub start: bool,
    pub role: SyntaxRole,
    /// The name of the sort.
    pub sort: Name,
    /// What stands between the `>`, in text order. A level is above those after it.
    pub levels: Row<Level>,
}

/// Alternatives that bind equally tight.
#[derive(Drop)]
pub struct Level {
    pub alts: Row<Alt>,
}

/// A production, or several in parentheses behind a mark.
#[derive(Drop)]
pub struct Alt {
    pub mark: Option<Assoc>,
    /// Exactly one where there are no parentheses.
    pub prods: Row<Prod>,
}

/// How productions of one level nest in each other.
#[derive(Clone, Copy, Debug, PartialEq, Eq)]
pub enum Assoc {
    /// `left`: not as the last child.
    Left,
    /// `right`: not as the first child.
    Right,
    /// `assoc`: as `left`.
    Assoc,
    /// `non-assoc`: neither as the first nor as the last child.
    NonAssoc,
}

/// A production. The word `bracket` before one is not kept, since it has no meaning.
#[derive(Drop)]
pub struct Prod {
    /// The label before the `:`, with its place.
    pub label: Option<(Name, Place)>,
    /// In text order, without the layout that may stand between them.
    pub symbols: Row<Sym>,
}

fn share_label(label: &Option<(Name, Place)>) -> Result<Option<(Name, Place)>, AllocError>
    ensures { IfOk result (λ it. it ≡ label.now) }
{
    match label {
        None => Ok(None),
        Some((name, place)) => Ok(Some((name.share()?, *place))),
    }
}

impl Prod {
    /// One more share of the production.
    pub fn share(&self) -> Result<Prod, AllocError>
        ensures { IfOk result (λ it. it ≡ self.now) }
    {
        let label = share_label(&self.label)?;
        Ok(Prod {
            label,
            symbols: self.symbols.share()?,
        })
    }
}

impl Alt {
    /// One more share of the alternative.
    pub fn share(&self) -> Result<Alt, AllocError>
        ensures { IfOk result (λ it. it ≡ self.now) }
    {
        Ok(Alt {
            mark: self.mark,
            prods: self.prods.share()?,
        })
    }
}

impl Level {
    /// One more share of the level.
    pub fn share(&self) -> Result<Level, AllocError>
        ensures { IfOk result (λ it. it ≡ self.now) }
    {
        Ok(Level {
            alts: self.alts.share()?,
        })
    }
}
