//! Modules.

use crate::declaration::Decl;
use rl_base::{Name, Place, Row};

/// `module M` and its declarations.
#[derive(Drop)]
pub struct Module {
    /// Its first token.
    pub place: Place,
    /// The path of its file.
    pub path: Name,
    /// Its name, with `::` between the parts.
    pub name: Name,
    pub declarations: Row<Decl>,
}

/// The modules of a program.
#[derive(Drop)]
pub struct Modules {
    /// The modules by number: each has the number of modules that were met before it.
    pub list: Row<Module>,
    /// Their numbers, in the order in which loading finished them: each behind those that it imports.
    pub finished: Row<u32>,
}
