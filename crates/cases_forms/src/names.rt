//! Places, names and words.

use rl_base::Place;
use rl_syntax::{Identifier, PatternVariable, Piece};
use std::io;

/// Prints a word and the column of the place.
pub(crate) fn begin<R: Print>(rt: &R, word: &str, place: Place) -> io::Result<()> {
    print!(rt; " ({word}@{}", place.column)
}

pub(crate) fn finish<R: Print>(rt: &R) -> io::Result<()> {
    print!(rt; ")")
}

pub(crate) fn show_name<R: Print>(rt: &R, name: &Identifier) -> io::Result<()> {
    print!(rt; " {}@{}", name.name.as_str(), name.place.column)
}

pub(crate) fn show_names<R: Print>(rt: &R, names: &[Identifier]) -> io::Result<()> {
    for name in names {
        show_name(rt, name)?;
    }
    Ok(())
}

pub(crate) fn show_variable<R: Print>(rt: &R, variable: &PatternVariable) -> io::Result<()> {
    print!(rt; " {}@{}", variable.name.as_str(), variable.place.column)
}

pub(crate) fn show_piece<R: Print>(rt: &R, piece: &Piece) -> io::Result<()> {
    match piece {
        Piece::Text(text) => print!(rt; " {:?}", text.as_str()),
        Piece::Hole { sort, variable } => {
            print!(rt; " <{}", sort.as_str())?;
            show_variable(rt, variable)?;
            print!(rt; ">")
        }
    }
}
