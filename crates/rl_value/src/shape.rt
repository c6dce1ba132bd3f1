//! What syntax trees and locations say of themselves.

ghost use Rattle.std.specs.Prelude.{◌≡◌, IfOk};

use std::alloc::AllocError;
use std::rc::RcStr;

/// Where the path of a location begins.
#[derive(Clone, Copy, Debug, PartialEq, Eq)]
pub enum Scheme {
    /// The current directory.
    Cwd,
    /// Nowhere in particular.
    Unknown,
}

/// What kind of rule made a syntax tree.
#[derive(Clone, Copy, Debug, PartialEq, Eq)]
pub enum Role {
    Syntax,
    Lexical,
    Layout,
    Keyword,
    /// A repetition.
    Rep,
    /// An option.
    Opt,
}

/// What stands at the root of a syntax tree.
#[derive(Debug, Drop)]
pub struct Shape {
    pub role: Role,
    /// Empty for a repetition or an option.
    pub sort: RcStr,
    /// Empty where there is none.
    pub label: RcStr,
    /// The number of its production, in module and text order.
    pub rule: usize,
}

impl Shape {
    ghost use Rattle.rl_value.specs.View.{shape_of};

    /// The same shape, which shares its texts.
    pub fn share(&self) -> Result<Shape, AllocError>
        ensures { IfOk result (λ s. shape_of s ≡ shape_of self.now) }
    {
        Ok(Shape {
            role: self.role,
            sort: self.sort.clone()?,
            label: self.label.clone()?,
            rule: self.rule,
        })
    }
}
