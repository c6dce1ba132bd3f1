//! The terminals of the grammar of modules, each with its number.
//!
//! The numbers follow the order in which the rules of the grammar first write the terminals.

ghost use Rattle.std.specs.Prelude.{◌≡◌, [], ◌∷◌, length, map};
ghost use Rattle.rl_tokens.specs.Terminal.{classes, names, number_of, terminals};

/// `module`
pub const MODULE: u32 = 0;
/// The end of the text
pub const END: u32 = 1;
/// Any name
pub const ID: u32 = 2;
/// `::`
pub const COLON_COLON: u32 = 3;
/// `import`
pub const IMPORT: u32 = 4;
/// `extend`
pub const EXTEND: u32 = 5;
/// `;`
pub const SEMICOLON: u32 = 6;
/// `public`
pub const PUBLIC: u32 = 7;
/// `data`
pub const DATA: u32 = 8;
/// `=`
pub const EQUALS: u32 = 9;
/// `|`
pub const BAR: u32 = 10;
/// `(`
pub const OPEN_PARENTHESIS: u32 = 11;
/// `,`
pub const COMMA: u32 = 12;
/// `)`
pub const CLOSE_PARENTHESIS: u32 = 13;
/// `private`
pub const PRIVATE: u32 = 14;
/// `default`
pub const DEFAULT: u32 = 15;
/// `test`
pub const TEST: u32 = 16;
/// `when`
pub const WHEN: u32 = 17;
/// `{`
pub const OPEN_BRACE: u32 = 18;
/// `}`
pub const CLOSE_BRACE: u32 = 19;
/// `list`
pub const LIST_TYPE: u32 = 20;
/// `set`
pub const SET_TYPE: u32 = 21;
/// `[`
pub const OPEN_BRACKET: u32 = 22;
/// `]`
pub const CLOSE_BRACKET: u32 = 23;
/// `map`
pub const MAP_TYPE: u32 = 24;
/// `tuple`
pub const TUPLE_TYPE: u32 = 25;
/// `rel`
pub const REL_TYPE: u32 = 26;
/// `lrel`
pub const LREL_TYPE: u32 = 27;
/// `bool`
pub const BOOL_TYPE: u32 = 28;
/// `int`
pub const INT_TYPE: u32 = 29;
/// `str`
pub const STR_TYPE: u32 = 30;
/// `loc`
pub const LOC_TYPE: u32 = 31;
/// `void`
pub const VOID_TYPE: u32 = 32;
/// `value`
pub const VALUE_TYPE: u32 = 33;
/// `start`
pub const START: u32 = 34;
/// `syntax`
pub const SYNTAX: u32 = 35;
/// `lexical`
pub const LEXICAL: u32 = 36;
/// `layout`
pub const LAYOUT: u32 = 37;
/// `keyword`
pub const KEYWORD: u32 = 38;
/// A name that begins with A to Z
pub const UPPER_ID: u32 = 39;
/// `>`
pub const GREATER: u32 = 40;
/// `left`
pub const LEFT: u32 = 41;
/// `right`
pub const RIGHT: u32 = 42;
/// `assoc`
pub const ASSOC: u32 = 43;
/// `non-assoc`
pub const NON_ASSOC: u32 = 44;
/// `bracket`
pub const BRACKET: u32 = 45;
/// Any other name
pub const LOWER_ID: u32 = 46;
/// `:`
pub const COLON: u32 = 47;
/// `!<<`
pub const NOT_PRECEDED: u32 = 48;
/// `<<`
pub const PRECEDED: u32 = 49;
/// `!>>`
pub const NOT_FOLLOWED: u32 = 50;
/// `>>`
pub const FOLLOWED: u32 = 51;
/// `\`
pub const BACKSLASH: u32 = 52;
/// A string without interpolation
pub const STRING: u32 = 53;
/// `*`
pub const STAR: u32 = 54;
/// `+`
pub const PLUS: u32 = 55;
/// `?`
pub const QUESTION: u32 = 56;
/// `!`
pub const BANG: u32 = 57;
/// A character class
pub const CHARACTER_CLASS: u32 = 58;
/// `if`
pub const IF: u32 = 59;
/// `else`
pub const ELSE: u32 = 60;
/// `switch`
pub const SWITCH: u32 = 61;
/// `case`
pub const CASE: u32 = 62;
/// `=>`
pub const ARROW: u32 = 63;
/// `for`
pub const FOR: u32 = 64;
/// `while`
pub const WHILE: u32 = 65;
/// `do`
pub const DO: u32 = 66;
/// `solve`
pub const SOLVE: u32 = 67;
/// `try`
pub const TRY: u32 = 68;
/// `catch`
pub const CATCH: u32 = 69;
/// `finally`
pub const FINALLY: u32 = 70;
/// `return`
pub const RETURN: u32 = 71;
/// `insert`
pub const INSERT: u32 = 72;
/// `append`
pub const APPEND: u32 = 73;
/// `throw`
pub const THROW: u32 = 74;
/// `fail`
pub const FAIL: u32 = 75;
/// `break`
pub const BREAK: u32 = 76;
/// `continue`
pub const CONTINUE: u32 = 77;
/// `<`
pub const LESS: u32 = 78;
/// `.`
pub const DOT: u32 = 79;
/// `+=`
pub const PLUS_EQUALS: u32 = 80;
/// `-=`
pub const MINUS_EQUALS: u32 = 81;
/// `*=`
pub const STAR_EQUALS: u32 = 82;
/// `/=`
pub const SLASH_EQUALS: u32 = 83;
/// `&=`
pub const AMPERSAND_EQUALS: u32 = 84;
/// `==>`
pub const IMPLIES: u32 = 85;
/// `<==>`
pub const EQUIVALENT: u32 = 86;
/// `||`
pub const OR: u32 = 87;
/// `&&`
pub const AND: u32 = 88;
/// `:=`
pub const MATCHES: u32 = 89;
/// `!:=`
pub const MATCHES_NOT: u32 = 90;
/// `<-`
pub const ENUMERATES: u32 = 91;
/// `==`
pub const EQUAL: u32 = 92;
/// `!=`
pub const NOT_EQUAL: u32 = 93;
/// `<=`
pub const LESS_OR_EQUAL: u32 = 94;
/// `>=`
pub const GREATER_OR_EQUAL: u32 = 95;
/// `in`
pub const IN: u32 = 96;
/// `notin`
pub const NOTIN: u32 = 97;
/// `is`
pub const IS: u32 = 98;
/// `-`
pub const MINUS: u32 = 99;
/// `&`
pub const AMPERSAND: u32 = 100;
/// `/`
pub const SLASH: u32 = 101;
/// `%`
pub const PERCENT: u32 = 102;
/// `o`
pub const COMPOSE: u32 = 103;
/// `..`
pub const DOTS: u32 = 104;
/// An integer
pub const INTEGER: u32 = 105;
/// A string from its `"` to its first interpolation
pub const STRING_HEAD: u32 = 106;
/// A location
pub const LOCATION: u32 = 107;
/// `true`
pub const TRUE: u32 = 108;
/// `false`
pub const FALSE: u32 = 109;
/// `it`
pub const IT: u32 = 110;
/// `visit`
pub const VISIT: u32 = 111;
/// A string between two interpolations
pub const STRING_MIDDLE: u32 = 112;
/// A string from its last interpolation to its `"`
pub const STRING_TAIL: u32 = 113;
/// `#`
pub const HASH: u32 = 114;
/// `innermost`
pub const INNERMOST: u32 = 115;
/// `outermost`
pub const OUTERMOST: u32 = 116;
/// `top-down`
pub const TOP_DOWN: u32 = 117;
/// `top-down-break`
pub const TOP_DOWN_BREAK: u32 = 118;
/// `bottom-up`
pub const BOTTOM_UP: u32 = 119;
/// `bottom-up-break`
pub const BOTTOM_UP_BREAK: u32 = 120;
/// A fragment between backquotes
pub const FRAGMENT: u32 = 121;
/// `_`
pub const UNDERSCORE: u32 = 122;
/// How many terminals there are.
pub const TERMINALS: u32 = 123;

// The reserved words without a hyphen, and the `_` that stands alone, by their length.
pub(crate) const WORDS_OF_ONE: [(&str, u32); 2] = [("o", COMPOSE), ("_", UNDERSCORE)];

pub(crate) const WORDS_OF_TWO: [(&str, u32); 5] = [
    ("if", IF),
    ("do", DO),
    ("in", IN),
    ("is", IS),
    ("it", IT),
];

pub(crate) const WORDS_OF_THREE: [(&str, u32); 8] = [
    ("for", FOR),
    ("try", TRY),
    ("set", SET_TYPE),
    ("map", MAP_TYPE),
    ("rel", REL_TYPE),
    ("int", INT_TYPE),
    ("str", STR_TYPE),
    ("loc", LOC_TYPE),
];

pub(crate) const WORDS_OF_FOUR: [(&str, u32); 11] = [
    ("data", DATA),
    ("test", TEST),
    ("else", ELSE),
    ("case", CASE),
    ("fail", FAIL),
    ("true", TRUE),
    ("when", WHEN),
    ("list", LIST_TYPE),
    ("lrel", LREL_TYPE),
    ("bool", BOOL_TYPE),
    ("void", VOID_TYPE),
];

pub(crate) const WORDS_OF_FIVE: [(&str, u32); 10] = [
    ("visit", VISIT),
    ("while", WHILE),
    ("solve", SOLVE),
    ("catch", CATCH),
    ("throw", THROW),
    ("break", BREAK),
    ("false", FALSE),
    ("notin", NOTIN),
    ("tuple", TUPLE_TYPE),
    ("value", VALUE_TYPE),
];

pub(crate) const WORDS_OF_SIX: [(&str, u32); 10] = [
    ("module", MODULE),
    ("import", IMPORT),
    ("extend", EXTEND),
    ("public", PUBLIC),
    ("syntax", SYNTAX),
    ("layout", LAYOUT),
    ("switch", SWITCH),
    ("return", RETURN),
    ("insert", INSERT),
    ("append", APPEND),
];

pub(crate) const WORDS_OF_SEVEN: [(&str, u32); 5] = [
    ("private", PRIVATE),
    ("default", DEFAULT),
    ("lexical", LEXICAL),
    ("keyword", KEYWORD),
    ("finally", FINALLY),
];

pub(crate) const WORDS_OF_EIGHT: [(&str, u32); 1] = [("continue", CONTINUE)];

pub(crate) const WORDS_OF_NINE: [(&str, u32); 2] = [
    ("innermost", INNERMOST),
    ("outermost", OUTERMOST),
];

// The reserved words with a hyphen, the longest first.
pub(crate) const HYPHENED: [(&str, u32); 5] = [
    ("bottom-up-break", BOTTOM_UP_BREAK),
    ("top-down-break", TOP_DOWN_BREAK),
    ("bottom-up", BOTTOM_UP),
    ("non-assoc", NON_ASSOC),
    ("top-down", TOP_DOWN),
];

// The symbols, the longest first.
pub(crate) const SYMBOLS: [(&str, u32); 42] = [
    ("<==>", EQUIVALENT),
    ("==>", IMPLIES),
    ("!:=", MATCHES_NOT),
    ("&&", AND),
    ("||", OR),
    ("==", EQUAL),
    ("!=", NOT_EQUAL),
    ("<=", LESS_OR_EQUAL),
    (">=", GREATER_OR_EQUAL),
    (":=", MATCHES),
    ("<-", ENUMERATES),
    ("=>", ARROW),
    ("::", COLON_COLON),
    ("..", DOTS),
    ("+=", PLUS_EQUALS),
    ("-=", MINUS_EQUALS),
    ("*=", STAR_EQUALS),
    ("/=", SLASH_EQUALS),
    ("&=", AMPERSAND_EQUALS),
    ("(", OPEN_PARENTHESIS),
    (")", CLOSE_PARENTHESIS),
    ("[", OPEN_BRACKET),
    ("]", CLOSE_BRACKET),
    ("{", OPEN_BRACE),
    ("}", CLOSE_BRACE),
    ("<", LESS),
    (">", GREATER),
    (",", COMMA),
    (";", SEMICOLON),
    (":", COLON),
    (".", DOT),
    ("?", QUESTION),
    ("!", BANG),
    ("+", PLUS),
    ("-", MINUS),
    ("*", STAR),
    ("/", SLASH),
    ("%", PERCENT),
    ("&", AMPERSAND),
    ("=", EQUALS),
    ("|", BAR),
    ("#", HASH),
];

// The symbols of syntax definitions alone, the longest first.
pub(crate) const GRAMMAR_SYMBOLS: [(&str, u32); 5] = [
    ("!>>", NOT_FOLLOWED),
    ("!<<", NOT_PRECEDED),
    (">>", FOLLOWED),
    ("<<", PRECEDED),
    ("\\", BACKSLASH),
];

/// The classes of tokens, and the names that are terminals, have the numbers of their places.
/// Those of words and symbols are proved where a text is read.
pub fn terminals_in_order()
    ensures classes { map number_of classes
        ≡ END ∷ ID ∷ UPPER_ID ∷ LOWER_ID ∷ STRING
        ∷ CHARACTER_CLASS ∷ INTEGER ∷ STRING_HEAD ∷ LOCATION
        ∷ STRING_MIDDLE ∷ STRING_TAIL ∷ FRAGMENT ∷ [] }
    ensures names { map number_of names ≡ START ∷ LEFT ∷ RIGHT ∷ ASSOC ∷ BRACKET ∷ [] }
    ensures count { length terminals ≡ TERMINALS }
{}
