//! Symbols of productions.

ghost use Rattle.std.specs.Prelude.{◌≡◌, IfOk};
ghost use Rattle.std.specs.List.{list_any};
ghost use Rattle.rl_productions.specs.Symbol.{holds, is_in_range};

use rl_base::{Name, Place, Row};
use std::alloc::AllocError;

/// A symbol of a production, with what limits it. A name behind it is not kept, since it has no meaning.
#[derive(Drop)]
pub struct Sym {
    /// What stands, or does not stand, just before it.
    pub before: Option<Limit>,
    pub rep: Rep,
    /// What limits it from behind, in text order.
    pub after: Row<After>,
}

/// A limit on what adjoins a symbol.
#[derive(Drop)]
pub struct Limit {
    /// Whether `near` must not stand there, as `!<<` and `!>>` say.
    pub negated: bool,
    pub near: Near,
}

/// What adjoins a symbol.
#[derive(Drop)]
pub enum Near {
    /// A character of a class, as `[a-z]`.
    Class(CharClass),
    /// This text, as `"if"`.
    Literal(Name),
}

/// A limit behind a symbol.
#[derive(Drop)]
pub enum After {
    /// `>> near` or `!>> near`.
    Follow(Limit),
    /// `\ K`: the symbol's text is no word of the keyword sort `K`. It stands here with its place.
    Reserve(Name, Place),
}

/// How often an atom stands.
#[derive(Drop)]
pub enum Rep {
    /// `A`
    One(Atom),
    /// `A?`
    Opt(Atom),
    /// `A*`
    Star(Atom),
    /// `A+`
    Plus(Atom),
    /// `{A ","}*`: the text stands between two of them.
    SepStar(Atom, Name),
    /// `{A ","}+`
    SepPlus(Atom, Name),
}

/// What a symbol is made of.
#[derive(Drop)]
pub enum Atom {
    /// This text, as `"if"`.
    Literal(Name),
    /// One character of a class.
    Class(CharClass),
    /// A tree of the sort of this name, with its place.
    Sort(Name, Place),
}

/// A class of characters, as `[a-z_]` or `![\n]`.
#[derive(Drop)]
pub struct CharClass {
    /// Its first token, which is the `!` of a complement.
    pub place: Place,
    /// Whether it holds just the characters that no item holds.
    pub complement: bool,
    /// The first and the last character of each range, in text order. A single character has itself twice. A range
    /// whose first character is above its last holds none.
    pub items: Row<(char, char)>,
}

// Whether some range has the character.
fn is_listed(ranges: &[(char, char)], c: char) -> bool
    ensures { result ≡ list_any (is_in_range c) ranges.now }
{
    for (first, last) in ranges {
        if *first <= c && c <= *last {
            return true;
        }
    }
    false
}

impl CharClass {
    /// Whether the class holds the character.
    pub fn holds(&self, c: char) -> bool
        ensures { result ≡ holds self.now c }
    {
        is_listed(self.items.as_slice(), c) != self.complement
    }
}

// The atom with the text between two of it.
fn share_separated(atom: &Atom, text: &Name) -> Result<(Atom, Name), AllocError>
    ensures { IfOk result (λ it. (it.0 ≡ atom.now) × (it.1 ≡ text.now)) }
{
    let atom = atom.share()?;
    let text = text.share()?;
    Ok((atom, text))
}

fn share_before(before: &Option<Limit>) -> Result<Option<Limit>, AllocError>
    ensures { IfOk result (λ it. it ≡ before.now) }
{
    match before {
        None => Ok(None),
        Some(limit) => Ok(Some(limit.share()?)),
    }
}

impl CharClass {
    /// One more share of the class.
    pub fn share(&self) -> Result<CharClass, AllocError>
        ensures { IfOk result (λ it. it ≡ self.now) }
    {
        Ok(CharClass {
            place: self.place,
            complement: self.complement,
            items: self.items.share()?,
        })
    }
}

impl Near {
    /// One more share of the text.
    pub fn share(&self) -> Result<Near, AllocError>
        ensures { IfOk result (λ it. it ≡ self.now) }
    {
        match self {
            Near::Class(class) => Ok(Near::Class(class.share()?)),
            Near::Literal(text) => Ok(Near::Literal(text.share()?)),
        }
    }
}

impl Atom {
    /// One more share of the atom.
    pub fn share(&self) -> Result<Atom, AllocError>
        ensures { IfOk result (λ it. it ≡ self.now) }
    {
        match self {
            Atom::Literal(text) => Ok(Atom::Literal(text.share()?)),
            Atom::Class(class) => Ok(Atom::Class(class.share()?)),
            Atom::Sort(name, place) => Ok(Atom::Sort(name.share()?, *place)),
        }
    }
}

impl Rep {
    /// One more share of the repetition.
    pub fn share(&self) -> Result<Rep, AllocError>
        ensures { IfOk result (λ it. it ≡ self.now) }
    {
        match self {
            Rep::One(atom) => Ok(Rep::One(atom.share()?)),
            Rep::Opt(atom) => Ok(Rep::Opt(atom.share()?)),
            Rep::Star(atom) => Ok(Rep::Star(atom.share()?)),
            Rep::Plus(atom) => Ok(Rep::Plus(atom.share()?)),
            Rep::SepStar(atom, text) => {
                let (atom, text) = share_separated(atom, text)?;
                Ok(Rep::SepStar(atom, text))
            }
            Rep::SepPlus(atom, text) => {
                let (atom, text) = share_separated(atom, text)?;
                Ok(Rep::SepPlus(atom, text))
            }
        }
    }
}

impl Limit {
    /// One more share of the limit.
    pub fn share(&self) -> Result<Limit, AllocError>
        ensures { IfOk result (λ it. it ≡ self.now) }
    {
        Ok(Limit {
            negated: self.negated,
            near: self.near.share()?,
        })
    }
}

impl Sym {
    /// One more share of the symbol.
    pub fn share(&self) -> Result<Sym, AllocError>
        ensures { IfOk result (λ it. it ≡ self.now) }
    {
        let before = share_before(&self.before)?;
        let rep = self.rep.share()?;
        Ok(Sym {
            before,
            rep,
            after: self.after.share()?,
        })
    }
}

#[cfg(test)]
mod tests {
    use super::*;
    use std::alloc::{AllocError, Global};
    use std::test::Fail;

    fn class(alloc: Global, complement: bool) -> Result<CharClass, AllocError> {
        let place = Place {
            module: 0,
            offset: 0,
            line: 1,
            column: 1,
        };
        let items = vec![in alloc; ('a', 'c'), ('x', 'x'), ('9', '0')]?;
        Ok(CharClass {
            place,
            complement,
            items: Row::from_vec(alloc, items)?,
        })
    }

    #[test]
    fn a_class_holds_its_ranges_and_a_complement_the_rest(rt: HostRuntime) -> Result<(), Fail> {
        let cases = [
            ('a', true),
            ('c', true),
            ('d', false),
            ('x', true),
            ('5', false),
        ];
        let letters = class(rt.alloc(), false)?;
        let others = class(rt.alloc(), true)?;
        for (c, held) in cases {
            assert_eq!(rt; letters.holds(c), held);
            assert_eq!(rt; others.holds(c), !held);
        }
        Ok(())
    }
}
