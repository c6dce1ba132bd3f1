//! Statements.

ghost use Rattle.std.specs.Prelude.{◌≡◌};
ghost use Rattle.rl_syntax.specs.Statement.{place_of_statement};

use crate::expression::{Exp, Suffix};
use crate::identifier::Identifier;
use crate::operator::Assignment;
use crate::pattern::Pattern;
use crate::ty::Ty;
use rl_base::{Place, Row, Shared};

/// A statement. Its place is that of its first token. A visit that stands as a statement is an expression statement.
#[cycle(form)]
#[derive(Drop)]
pub enum Stat {
    /// `{ statements }`
    Block {
        place: Place,
        body: Row<Shared<Stat>>,
    },
    /// `if (conditions) statement else statement`
    If {
        place: Place,
        conditions: Row<Shared<Exp>>,
        then: Shared<Stat>,
        otherwise: Option<Shared<Stat>>,
    },
    /// `switch (e) { cases }`
    Switch {
        place: Place,
        subject: Shared<Exp>,
        cases: Row<Shared<Case>>,
    },
    /// `for (conditions) statement`
    For {
        place: Place,
        conditions: Row<Shared<Exp>>,
        body: Shared<Stat>,
    },
    /// `while (conditions) statement`
    While {
        place: Place,
        conditions: Row<Shared<Exp>>,
        body: Shared<Stat>,
    },
    /// `do statement while (conditions);`
    Do {
        place: Place,
        body: Shared<Stat>,
        conditions: Row<Shared<Exp>>,
    },
    /// `solve (x, y) statement`
    Solve {
        place: Place,
        variables: Row<Identifier>,
        body: Shared<Stat>,
    },
    /// `try statement`, its handlers, and `finally statement`
    Try {
        place: Place,
        body: Shared<Stat>,
        handlers: Row<Shared<Handler>>,
        finally: Option<Shared<Stat>>,
    },
    /// `return;`
    Return {
        place: Place,
    },
    /// `return e;` or `return` and a loop
    ReturnValue {
        place: Place,
        value: Shared<Exp>,
    },
    /// `insert e;`
    Insert {
        place: Place,
        value: Shared<Exp>,
    },
    /// `append e;`
    Append {
        place: Place,
        value: Shared<Exp>,
    },
    /// `throw e;`
    Throw {
        place: Place,
        value: Shared<Exp>,
    },
    /// `fail;`
    Fail {
        place: Place,
    },
    /// `break;`
    Break {
        place: Place,
    },
    /// `continue;`
    Continue {
        place: Place,
    },
    /// `;`
    Empty {
        place: Place,
    },
    /// `T x = e;`
    Declaration {
        place: Place,
        ty: Shared<Ty>,
        name: Identifier,
        value: Shared<Exp>,
    },
    /// `<x, y> = e;`
    TupleAssignment {
        place: Place,
        names: Row<Identifier>,
        value: Shared<Exp>,
    },
    /// `x[i].f = e;`, or with another assignment, as `x += e;`
    Assign {
        place: Place,
        target: Identifier,
        path: Row<Suffix>,
        assignment: Assignment,
        value: Shared<Exp>,
    },
    /// `e;`
    Expression {
        place: Place,
        value: Shared<Exp>,
    },
}

impl Stat {
    /// Its place.
    pub fn place(&self) -> Place
        ensures { result ≡ place_of_statement self.now }
    {
        match self {
            Stat::Block { place, .. }
            | Stat::If { place, .. }
            | Stat::Switch { place, .. }
            | Stat::For { place, .. }
            | Stat::While { place, .. }
            | Stat::Do { place, .. }
            | Stat::Solve { place, .. }
            | Stat::Try { place, .. }
            | Stat::Return { place }
            | Stat::ReturnValue { place, .. }
            | Stat::Insert { place, .. }
            | Stat::Append { place, .. }
            | Stat::Throw { place, .. }
            | Stat::Fail { place }
            | Stat::Break { place }
            | Stat::Continue { place }
            | Stat::Empty { place }
            | Stat::Declaration { place, .. }
            | Stat::TupleAssignment { place, .. }
            | Stat::Assign { place, .. }
            | Stat::Expression { place, .. } => *place,
        }
    }
}

/// A case of a switch or a visit.
#[cycle(form)]
#[derive(Drop)]
pub enum Case {
    /// `default: statements`
    Default {
        place: Place,
        body: Row<Shared<Stat>>,
    },
    /// `case p => e when conditions`: what the pattern matches is replaced.
    Replacement {
        place: Place,
        pattern: Shared<Pattern>,
        value: Shared<Exp>,
        conditions: Row<Shared<Exp>>,
    },
    /// `case p: statements`
    Statements {
        place: Place,
        pattern: Shared<Pattern>,
        body: Row<Shared<Stat>>,
    },
}

/// A handler of exceptions.
#[cycle(form)]
#[derive(Drop)]
pub enum Handler {
    /// `catch: statement`
    Any {
        place: Place,
        body: Shared<Stat>,
    },
    /// `catch p: statement`
    Matching {
        place: Place,
        pattern: Shared<Pattern>,
        body: Shared<Stat>,
    },
}
