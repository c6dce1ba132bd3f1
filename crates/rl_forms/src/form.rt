//! What tokens and phrases say.

use rl_base::{Name, Place, Row, Shared};
use rl_productions::{Alt, Assoc, Atom, CharClass, Level, Near, Prod, Rep, Sym};
use rl_syntax::{
    Case, Concrete, Decl, Exp, Field, Handler, Identifier, Pattern, PatternElement, Piece, Stat,
    Strategy, Suffix, Ty, Variant,
};

/// What a token or a phrase says. A phrase whose only part is a phrase is that part, so that one form may stand for others: a
/// condition for a list of conditions, a visit for a statement, a fragment for an expression or a pattern.
#[derive(Drop)]
pub enum Form {
    /// A phrase whose parts are not those of its rule. It begins here.
    Unknown(Place),
    /// A word or a symbol, by the number of its terminal.
    Word(Place, u32),
    /// A name.
    Name(Identifier),
    /// An integer without a sign.
    Integer(i128),
    /// A string, its escapes read.
    Text(Name),
    /// The text before, between or behind interpolations, its escapes read.
    TextPiece(Name),
    /// The path of a location, or none where it is unknown.
    Location(Option<Name>),
    /// The ranges of a character class.
    Ranges(Row<(char, char)>),
    /// The text of a fragment.
    Pieces(Place, Row<Piece>),
    /// The name of a module.
    QualifiedName(Place, Name),
    Declaration(Decl),
    Variant(Variant),
    Type(Shared<Ty>),
    /// A type with a name.
    Field(Field),
    /// Symbols of syntax definitions and what they are parts of.
    Grammar(Shared<GrammarForm>),
    Statement(Shared<Stat>),
    Case(Shared<Case>),
    Handler(Shared<Handler>),
    /// `finally` and its statement.
    Finally(Shared<Stat>),
    Expression(Shared<Exp>),
    /// Several conditions.
    Conditions(Row<Shared<Exp>>),
    Suffix(Suffix),
    /// What stands on both sides of `..` in a slice.
    Bounds(Option<Shared<Exp>>, Option<Shared<Exp>>),
    Strategy(Strategy),
    /// A fragment, which is an expression or a pattern.
    Fragment(Shared<Concrete>),
    Pattern(Shared<Pattern>),
    /// What begins with `*` in a pattern.
    PatternElement(PatternElement),
}

/// What the parts of a syntax definition say.
#[derive(Drop)]
pub enum GrammarForm {
    Class(CharClass),
    /// A text that adjoins a symbol.
    Near(Near),
    /// A text or a sort.
    Atom(Atom),
    Repetition(Rep),
    Symbol(Sym),
    Production(Prod),
    Associativity(Assoc),
    Alternative(Alt),
    Level(Level),
}
