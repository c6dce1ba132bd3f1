//! Syntax definitions.

use crate::names::{begin, finish};
use rl_productions::{After, Alt, Atom, CharClass, Limit, Near, Prod, Rep, Sym, SyntaxDef};
use std::io;

fn show_class<R: Print>(rt: &R, class: &CharClass) -> io::Result<()> {
    begin(rt, if class.complement { "![" } else { "[" }, class.place)?;
    for (first, last) in class.items.as_slice() {
        print!(rt; " {first:?}-{last:?}")?;
    }
    print!(rt; "])")
}

fn show_near<R: Print>(rt: &R, near: &Near) -> io::Result<()> {
    match near {
        Near::Class(class) => show_class(rt, class),
        Near::Literal(text) => print!(rt; " {:?}", text.as_str()),
    }
}

fn show_limit<R: Print>(rt: &R, word: &str, limit: &Limit) -> io::Result<()> {
    print!(rt; " {}{word}", if limit.negated { "!" } else { "" })?;
    show_near(rt, &limit.near)
}

fn show_atom<R: Print>(rt: &R, atom: &Atom) -> io::Result<()> {
    match atom {
        Atom::Literal(text) => print!(rt; " {:?}", text.as_str()),
        Atom::Class(class) => show_class(rt, class),
        Atom::Sort(name, place) => print!(rt; " {}@{}", name.as_str(), place.column),
    }
}

fn show_repetition<R: Print>(rt: &R, repetition: &Rep) -> io::Result<()> {
    match repetition {
        Rep::One(atom) => show_atom(rt, atom),
        Rep::Opt(atom) => {
            show_atom(rt, atom)?;
            print!(rt; "?")
        }
        Rep::Star(atom) => {
            show_atom(rt, atom)?;
            print!(rt; "*")
        }
        Rep::Plus(atom) => {
            show_atom(rt, atom)?;
            print!(rt; "+")
        }
        Rep::SepStar(atom, text) => {
            show_atom(rt, atom)?;
            print!(rt; " {:?}*", text.as_str())
        }
        Rep::SepPlus(atom, text) => {
            show_atom(rt, atom)?;
            print!(rt; " {:?}+", text.as_str())
        }
    }
}

fn show_after<R: Print>(rt: &R, after: &After) -> io::Result<()> {
    match after {
        After::Follow(limit) => show_limit(rt, ">>", limit),
        After::Reserve(name, place) => print!(rt; " \\{}@{}", name.as_str(), place.column),
    }
}

fn show_symbol<R: Print>(rt: &R, symbol: &Sym) -> io::Result<()> {
    print!(rt; " (sym")?;
    if let Some(limit) = &symbol.before {
        show_limit(rt, "<<", limit)?;
    }
    show_repetition(rt, &symbol.rep)?;
    for after in symbol.after.as_slice() {
        show_after(rt, after)?;
    }
    finish(rt)
}

fn show_production<R: Print>(rt: &R, production: &Prod) -> io::Result<()> {
    print!(rt; " (prod")?;
    if let Some((name, place)) = &production.label {
        print!(rt; " {}@{}:", name.as_str(), place.column)?;
    }
    for symbol in production.symbols.as_slice() {
        show_symbol(rt, symbol)?;
    }
    finish(rt)
}

fn show_alternative<R: Print>(rt: &R, alternative: &Alt) -> io::Result<()> {
    print!(rt; "\n   {:?}", alternative.mark)?;
    for production in alternative.prods.as_slice() {
        show_production(rt, production)?;
    }
    Ok(())
}

pub(crate) fn show_definition<R: Print>(rt: &R, definition: &SyntaxDef) -> io::Result<()> {
    begin(rt, "syntax", definition.place)?;
    print!(rt;
        " {} {:?} {}",
        definition.start,
        definition.role,
        definition.sort.as_str()
    )?;
    for level in definition.levels.as_slice() {
        print!(rt; "\n  level")?;
        for alternative in level.alts.as_slice() {
            show_alternative(rt, alternative)?;
        }
    }
    finish(rt)
}
