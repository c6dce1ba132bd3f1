//! What stands at the top of a module.

ghost use Rattle.std.specs.Prelude.{◌≡◌, IfOk};
ghost use Rattle.rl_syntax.specs.Declaration.{place_of_declaration};

use crate::expression::Exp;
use crate::identifier::Identifier;
use crate::pattern::Pattern;
use crate::statement::Stat;
use crate::ty::{Field, Ty};
use rl_base::{Name, Place, Row, Shared};
use rl_productions::SyntaxDef;
use std::alloc::AllocError;

/// A declaration. Its place is that of its first token.
#[derive(Drop)]
pub enum Decl {
    /// `import M;`
    Import {
        place: Place,
        module: Name,
    },
    /// `extend M;`
    Extend {
        place: Place,
        module: Name,
    },
    /// `syntax S = ..;` and the like. The place is in the definition.
    Syntax(Shared<SyntaxDef>),
    /// `data T = variants;`, without variants where they stand elsewhere. The word `public` before it has no meaning.
    Data {
        place: Place,
        name: Identifier,
        variants: Row<Variant>,
    },
    /// `T x = e;`
    Global {
        place: Place,
        /// Whether other modules see it not, as `private` says.
        private: bool,
        ty: Shared<Ty>,
        name: Identifier,
        value: Shared<Exp>,
    },
    /// An alternative of a function.
    Function(Shared<Function>),
}

impl Decl {
    /// Where it begins.
    pub fn place(&self) -> Place
        ensures { result ≡ place_of_declaration self.now }
    {
        match self {
            Decl::Import { place, .. }
            | Decl::Extend { place, .. }
            | Decl::Data { place, .. }
            | Decl::Global { place, .. } => *place,
            Decl::Syntax(definition) => definition.get().place,
            Decl::Function(function) => function.get().place,
        }
    }

    /// One more share of the declaration.
    pub fn share(&self) -> Result<Decl, AllocError>
        ensures { IfOk result (λ it. it ≡ self.now) }
    {
        match self {
            Decl::Import { place, module } => Ok(Decl::Import {
                place: *place,
                module: module.share()?,
            }),
            Decl::Extend { place, module } => Ok(Decl::Extend {
                place: *place,
                module: module.share()?,
            }),
            Decl::Syntax(definition) => Ok(Decl::Syntax(definition.share()?)),
            Decl::Data {
                place,
                name,
                variants,
            } => Ok(Decl::Data {
                place: *place,
                name: name.share()?,
                variants: variants.share()?,
            }),
            Decl::Global {
                place,
                private,
                ty,
                name,
                value,
            } => Ok(Decl::Global {
                place: *place,
                private: *private,
                ty: ty.share()?,
                name: name.share()?,
                value: value.share()?,
            }),
            Decl::Function(function) => Ok(Decl::Function(function.share()?)),
        }
    }
}

/// `name(T field, ..)`: a constructor of a data type.
#[derive(Drop)]
pub struct Variant {
    pub name: Identifier,
    pub fields: Row<Field>,
}

impl Variant {
    /// One more share of the constructor.
    pub fn share(&self) -> Result<Variant, AllocError>
        ensures { IfOk result (λ it. it ≡ self.now) }
    {
        let name = self.name.share()?;
        Ok(Variant {
            name,
            fields: self.fields.share()?,
        })
    }
}

/// An alternative of a function.
#[derive(Drop)]
pub struct Function {
    pub place: Place,
    /// Whether other modules see it not, as `private` says.
    pub private: bool,
    pub modifier: Option<Modifier>,
    /// The type of its results.
    pub ty: Ty,
    pub name: Identifier,
    pub parameters: Row<Shared<Pattern>>,
    pub body: Body,
}

/// What may stand before the type of a function.
#[derive(Clone, Copy, Debug, PartialEq, Eq)]
pub enum Modifier {
    /// `default`: the alternatives without it come first.
    Default,
    /// `test`: a test of the module.
    Test,
}

/// The body of a function.
#[derive(Drop)]
pub enum Body {
    /// `= e when conditions;`
    Value {
        value: Shared<Exp>,
        conditions: Row<Shared<Exp>>,
    },
    /// `{ statements }`
    Statements(Row<Shared<Stat>>),
}
