//! The grammar of modules as a table of rows. `tools/phrase-table.py` makes this file of `specs/Grammar.antt`.

use rl_phrase::table::{Form, Rule};
use rl_tokens::terminal;

// A row is its form, its first part and the number of its parts.
macro_rules! rows {
    ($($form:ident $(($terminal:ident))?, $first:expr, $count:expr;)*) => {
        [$(Rule { form: Form::$form $((terminal::$terminal))?, first: $first, count: $count }),*]
    };
}

/// `Module`
pub const MODULE: u32 = 0;
/// `QName`
pub const QUALIFIED_NAME: u32 = 6;
/// `Top`
pub const TOP_LEVEL: u32 = 11;
/// `Import`
pub const IMPORT: u32 = 18;
/// `DataDef`
pub const DATA_DEFINITION: u32 = 24;
/// `Variant`
pub const VARIANT: u32 = 36;
/// `Field`
pub const FIELD: u32 = 45;
/// `Global`
pub const GLOBAL: u32 = 49;
/// `Fun`
pub const FUNCTION: u32 = 59;
/// `Type`
pub const TYPE: u32 = 90;
/// `Syntax`
pub const SYNTAX_DEFINITION: u32 = 124;
/// `Level`
pub const LEVEL: u32 = 140;
/// `Alt`
pub const ALTERNATIVE: u32 = 145;
/// `Assoc`
pub const ASSOCIATIVITY: u32 = 159;
/// `Prod`
pub const PRODUCTION: u32 = 165;
/// `Sym`
pub const SYMBOL: u32 = 173;
/// `Near`
pub const ADJOINING: u32 = 194;
/// `Rep`
pub const REPETITION: u32 = 198;
/// `Atom`
pub const ATOM: u32 = 215;
/// `Chars`
pub const CHARACTERS: u32 = 220;
/// `Stat`
pub const STATEMENT: u32 = 224;
/// `Block`
pub const BLOCK: u32 = 237;
/// `If`
pub const IF: u32 = 242;
/// `Switch`
pub const SWITCH: u32 = 251;
/// `Case`
pub const CASE: u32 = 260;
/// `Loop`
pub const LOOP: u32 = 295;
/// `Solve`
pub const SOLVE: u32 = 317;
/// `Try`
pub const TRY: u32 = 326;
/// `Catch`
pub const CATCH: u32 = 336;
/// `Finally`
pub const FINALLY: u32 = 350;
/// `Simple`
pub const SIMPLE_STATEMENT: u32 = 353;
/// `Rhs`
pub const RIGHT_SIDE: u32 = 419;
/// `Conds`
pub const CONDITIONS: u32 = 425;
/// `Exp`
pub const EXPRESSION: u32 = 430;
/// `Imp`
pub const IMPLICATION: u32 = 438;
/// `Or`
pub const DISJUNCTION: u32 = 445;
/// `And`
pub const CONJUNCTION: u32 = 450;
/// `Test`
pub const MATCH: u32 = 455;
/// `Cmp`
pub const EQUALITY: u32 = 465;
/// `Rel`
pub const COMPARISON: u32 = 472;
/// `Add`
pub const SUM: u32 = 488;
/// `Mul`
pub const PRODUCT: u32 = 496;
/// `Com`
pub const COMPOSITION: u32 = 504;
/// `Un`
pub const UNARY: u32 = 509;
/// `Suf`
pub const SUFFIX: u32 = 521;
/// `Sub`
pub const SUBSCRIPT: u32 = 538;
/// `Starter`
pub const STARTER: u32 = 550;
/// `Prim`
pub const PRIMARY: u32 = 568;
/// `Arg`
pub const ARGUMENT: u32 = 605;
/// `Visit`
pub const VISIT_EXPRESSION: u32 = 617;
/// `Strategy`
pub const VISIT_STRATEGY: u32 = 628;
/// `Concrete`
pub const CONCRETE: u32 = 636;
/// `Paren`
pub const PARENTHESIZED: u32 = 641;
/// `List`
pub const LIST_EXPRESSION: u32 = 670;
/// `Set`
pub const SET_EXPRESSION: u32 = 702;
/// `Elem`
pub const ELEMENT: u32 = 715;
/// `Pat`
pub const PATTERN: u32 = 721;
/// `Plain`
pub const PLAIN_PATTERN: u32 = 733;
/// `Star`
pub const PATTERN_ELEMENT: u32 = 789;

/// The rows, with those of each rule behind its own.
pub const RULES: &[Rule] = &rows![
    // 0: Module
    Named, 1, 4; Term(MODULE), 0, 0; Link, QUALIFIED_NAME, 0; Star, 5, 1; Term(END), 0, 0; Link, TOP_LEVEL, 0;
    // 6: QName
    Named, 7, 2; Term(ID), 0, 0; Star, 9, 2; Term(COLON_COLON), 0, 0; Term(ID), 0, 0;
    // 11: Top
    Named, 12, 1; Choice, 13, 5; Link, IMPORT, 0; Link, SYNTAX_DEFINITION, 0; Link, DATA_DEFINITION, 0;
    Link, FUNCTION, 0; Link, GLOBAL, 0;
    // 18: Import
    Named, 19, 3; Choice, 22, 2; Link, QUALIFIED_NAME, 0; Term(SEMICOLON), 0, 0; Term(IMPORT), 0, 0;
    Term(EXTEND), 0, 0;
    // 24: DataDef
    Named, 25, 5; Opt, 30, 1; Term(DATA), 0, 0; Term(ID), 0, 0; Opt, 31, 3; Term(SEMICOLON), 0, 0;
    Term(PUBLIC), 0, 0; Term(EQUALS), 0, 0; Link, VARIANT, 0; Star, 34, 2; Term(BAR), 0, 0; Link, VARIANT, 0;
    // 36: Variant
    Named, 37, 4; Term(ID), 0, 0; Term(OPEN_PARENTHESIS), 0, 0; Opt, 41, 2; Term(CLOSE_PARENTHESIS), 0, 0;
    Link, FIELD, 0; Star, 43, 2; Term(COMMA), 0, 0; Link, FIELD, 0;
    // 45: Field
    Named, 46, 2; Link, TYPE, 0; Opt, 48, 1; Term(ID), 0, 0;
    // 49: Global
    Named, 50, 6; Opt, 56, 1; Link, TYPE, 0; Term(ID), 0, 0; Term(EQUALS), 0, 0; Link, EXPRESSION, 0;
    Term(SEMICOLON), 0, 0; Choice, 57, 2; Term(PUBLIC), 0, 0; Term(PRIVATE), 0, 0;
    // 59: Fun
    Named, 60, 8; Opt, 68, 1; Opt, 71, 1; Link, TYPE, 0; Term(ID), 0, 0; Term(OPEN_PARENTHESIS), 0, 0; Opt, 74, 2;
    Term(CLOSE_PARENTHESIS), 0, 0; Choice, 78, 2; Choice, 69, 2; Term(PUBLIC), 0, 0; Term(PRIVATE), 0, 0;
    Choice, 72, 2; Term(DEFAULT), 0, 0; Term(TEST), 0, 0; Link, PATTERN, 0; Star, 76, 2; Term(COMMA), 0, 0;
    Link, PATTERN, 0; Seq, 80, 4; Seq, 86, 3; Term(EQUALS), 0, 0; Link, EXPRESSION, 0; Opt, 84, 2;
    Term(SEMICOLON), 0, 0; Term(WHEN), 0, 0; Link, CONDITIONS, 0; Term(OPEN_BRACE), 0, 0; Star, 89, 1;
    Term(CLOSE_BRACE), 0, 0; Link, STATEMENT, 0;
    // 90: Type
    Named, 91, 1; Choice, 92, 10; Seq, 102, 4; Seq, 108, 6; Seq, 114, 5; Term(BOOL_TYPE), 0, 0;
    Term(INT_TYPE), 0, 0; Term(STR_TYPE), 0, 0; Term(LOC_TYPE), 0, 0; Term(VOID_TYPE), 0, 0; Term(VALUE_TYPE), 0, 0;
    Term(ID), 0, 0; Choice, 106, 2; Term(OPEN_BRACKET), 0, 0; Link, TYPE, 0; Term(CLOSE_BRACKET), 0, 0;
    Term(LIST_TYPE), 0, 0; Term(SET_TYPE), 0, 0; Term(MAP_TYPE), 0, 0; Term(OPEN_BRACKET), 0, 0; Link, TYPE, 0;
    Term(COMMA), 0, 0; Link, TYPE, 0; Term(CLOSE_BRACKET), 0, 0; Choice, 119, 3; Term(OPEN_BRACKET), 0, 0;
    Link, FIELD, 0; Star, 122, 2; Term(CLOSE_BRACKET), 0, 0; Term(TUPLE_TYPE), 0, 0; Term(REL_TYPE), 0, 0;
    Term(LREL_TYPE), 0, 0; Term(COMMA), 0, 0; Link, FIELD, 0;
    // 124: Syntax
    Named, 125, 6; Choice, 131, 4; Term(UPPER_ID), 0, 0; Term(EQUALS), 0, 0; Link, LEVEL, 0; Star, 138, 2;
    Term(SEMICOLON), 0, 0; Seq, 135, 2; Term(LEXICAL), 0, 0; Term(LAYOUT), 0, 0; Term(KEYWORD), 0, 0; Opt, 137, 1;
    Term(SYNTAX), 0, 0; Term(START), 0, 0; Term(GREATER), 0, 0; Link, LEVEL, 0;
    // 140: Level
    Named, 141, 2; Link, ALTERNATIVE, 0; Star, 143, 2; Term(BAR), 0, 0; Link, ALTERNATIVE, 0;
    // 145: Alt
    Named, 146, 1; Choice, 147, 2; Seq, 149, 5; Seq, 156, 2; Link, ASSOCIATIVITY, 0; Term(OPEN_PARENTHESIS), 0, 0;
    Link, PRODUCTION, 0; Star, 154, 2; Term(CLOSE_PARENTHESIS), 0, 0; Term(BAR), 0, 0; Link, PRODUCTION, 0;
    Opt, 158, 1; Link, PRODUCTION, 0; Link, ASSOCIATIVITY, 0;
    // 159: Assoc
    Named, 160, 1; Choice, 161, 4; Term(LEFT), 0, 0; Term(RIGHT), 0, 0; Term(ASSOC), 0, 0; Term(NON_ASSOC), 0, 0;
    // 165: Prod
    Named, 166, 3; Opt, 169, 1; Opt, 170, 2; Star, 172, 1; Term(BRACKET), 0, 0; Term(LOWER_ID), 0, 0;
    Term(COLON), 0, 0; Link, SYMBOL, 0;
    // 173: Sym
    Named, 174, 4; Opt, 178, 2; Link, REPETITION, 0; Star, 182, 1; Opt, 191, 2; Link, ADJOINING, 0; Choice, 180, 2;
    Term(NOT_PRECEDED), 0, 0; Term(PRECEDED), 0, 0; Choice, 183, 2; Seq, 185, 2; Seq, 189, 2; Choice, 187, 2;
    Link, ADJOINING, 0; Term(NOT_FOLLOWED), 0, 0; Term(FOLLOWED), 0, 0; Term(BACKSLASH), 0, 0; Term(UPPER_ID), 0, 0;
    Term(LOWER_ID), 0, 0; Not, 193, 1; Term(COLON), 0, 0;
    // 194: Near
    Named, 195, 1; Choice, 196, 2; Link, CHARACTERS, 0; Term(STRING), 0, 0;
    // 198: Rep
    Named, 199, 1; Choice, 200, 2; Seq, 202, 5; Seq, 209, 2; Term(OPEN_BRACE), 0, 0; Link, ATOM, 0;
    Term(STRING), 0, 0; Term(CLOSE_BRACE), 0, 0; Choice, 207, 2; Term(STAR), 0, 0; Term(PLUS), 0, 0; Link, ATOM, 0;
    Opt, 211, 1; Choice, 212, 3; Term(STAR), 0, 0; Term(PLUS), 0, 0; Term(QUESTION), 0, 0;
    // 215: Atom
    Named, 216, 1; Choice, 217, 3; Term(STRING), 0, 0; Link, CHARACTERS, 0; Term(UPPER_ID), 0, 0;
    // 220: Chars
    Named, 221, 2; Opt, 223, 1; Term(CHARACTER_CLASS), 0, 0; Term(BANG), 0, 0;
    // 224: Stat
    Named, 225, 1; Choice, 226, 8; Link, BLOCK, 0; Link, IF, 0; Link, SWITCH, 0; Link, LOOP, 0; Link, SOLVE, 0;
    Link, TRY, 0; Seq, 234, 2; Link, SIMPLE_STATEMENT, 0; Link, VISIT_EXPRESSION, 0; Opt, 236, 1;
    Term(SEMICOLON), 0, 0;
    // 237: Block
    Named, 238, 3; Term(OPEN_BRACE), 0, 0; Star, 241, 1; Term(CLOSE_BRACE), 0, 0; Link, STATEMENT, 0;
    // 242: If
    Named, 243, 6; Term(IF), 0, 0; Term(OPEN_PARENTHESIS), 0, 0; Link, CONDITIONS, 0; Term(CLOSE_PARENTHESIS), 0, 0;
    Link, STATEMENT, 0; Opt, 249, 2; Term(ELSE), 0, 0; Link, STATEMENT, 0;
    // 251: Switch
    Named, 252, 7; Term(SWITCH), 0, 0; Term(OPEN_PARENTHESIS), 0, 0; Link, EXPRESSION, 0;
    Term(CLOSE_PARENTHESIS), 0, 0; Term(OPEN_BRACE), 0, 0; Plus, 259, 1; Term(CLOSE_BRACE), 0, 0; Link, CASE, 0;
    // 260: Case
    Named, 261, 1; Choice, 262, 5; Seq, 267, 3; Seq, 271, 5; Seq, 278, 4; Seq, 283, 5; Seq, 290, 4;
    Term(DEFAULT), 0, 0; Term(COLON), 0, 0; Plus, 270, 1; Link, STATEMENT, 0; Term(CASE), 0, 0; Link, PATTERN, 0;
    Term(ARROW), 0, 0; Link, EXPRESSION, 0; Opt, 276, 2; Term(WHEN), 0, 0; Link, CONDITIONS, 0; Term(CASE), 0, 0;
    Link, PATTERN, 0; Term(COLON), 0, 0; Plus, 282, 1; Link, STATEMENT, 0; Term(CASE), 0, 0; Link, PLAIN_PATTERN, 0;
    Term(ARROW), 0, 0; Link, EXPRESSION, 0; Opt, 288, 2; Term(WHEN), 0, 0; Link, CONDITIONS, 0; Term(CASE), 0, 0;
    Link, PLAIN_PATTERN, 0; Term(COLON), 0, 0; Plus, 294, 1; Link, STATEMENT, 0;
    // 295: Loop
    Named, 296, 1; Choice, 297, 3; Seq, 300, 5; Seq, 305, 5; Seq, 310, 7; Term(FOR), 0, 0;
    Term(OPEN_PARENTHESIS), 0, 0; Link, CONDITIONS, 0; Term(CLOSE_PARENTHESIS), 0, 0; Link, STATEMENT, 0;
    Term(WHILE), 0, 0; Term(OPEN_PARENTHESIS), 0, 0; Link, CONDITIONS, 0; Term(CLOSE_PARENTHESIS), 0, 0;
    Link, STATEMENT, 0; Term(DO), 0, 0; Link, STATEMENT, 0; Term(WHILE), 0, 0; Term(OPEN_PARENTHESIS), 0, 0;
    Link, CONDITIONS, 0; Term(CLOSE_PARENTHESIS), 0, 0; Term(SEMICOLON), 0, 0;
    // 317: Solve
    Named, 318, 6; Term(SOLVE), 0, 0; Term(OPEN_PARENTHESIS), 0, 0; Term(ID), 0, 0; Star, 324, 2;
    Term(CLOSE_PARENTHESIS), 0, 0; Link, STATEMENT, 0; Term(COMMA), 0, 0; Term(ID), 0, 0;
    // 326: Try
    Named, 327, 3; Term(TRY), 0, 0; Link, STATEMENT, 0; Choice, 330, 2; Seq, 332, 2; Link, FINALLY, 0; Plus, 334, 1;
    Opt, 335, 1; Link, CATCH, 0; Link, FINALLY, 0;
    // 336: Catch
    Named, 337, 2; Term(CATCH), 0, 0; Choice, 339, 3; Seq, 342, 2; Seq, 344, 3; Seq, 347, 3; Term(COLON), 0, 0;
    Link, STATEMENT, 0; Link, PATTERN, 0; Term(COLON), 0, 0; Link, STATEMENT, 0; Link, PLAIN_PATTERN, 0;
    Term(COLON), 0, 0; Link, STATEMENT, 0;
    // 350: Finally
    Named, 351, 2; Term(FINALLY), 0, 0; Link, STATEMENT, 0;
    // 353: Simple
    Named, 354, 1; Choice, 355, 13; Seq, 368, 2; Seq, 370, 2; Seq, 372, 3; Seq, 375, 3; Seq, 378, 3; Seq, 381, 2;
    Seq, 383, 2; Seq, 385, 2; Term(SEMICOLON), 0, 0; Seq, 387, 4; Seq, 391, 6; Seq, 399, 4; Seq, 417, 2;
    Term(RETURN), 0, 0; Term(SEMICOLON), 0, 0; Term(RETURN), 0, 0; Link, RIGHT_SIDE, 0; Term(INSERT), 0, 0;
    Link, EXPRESSION, 0; Term(SEMICOLON), 0, 0; Term(APPEND), 0, 0; Link, EXPRESSION, 0; Term(SEMICOLON), 0, 0;
    Term(THROW), 0, 0; Link, EXPRESSION, 0; Term(SEMICOLON), 0, 0; Term(FAIL), 0, 0; Term(SEMICOLON), 0, 0;
    Term(BREAK), 0, 0; Term(SEMICOLON), 0, 0; Term(CONTINUE), 0, 0; Term(SEMICOLON), 0, 0; Link, TYPE, 0;
    Term(ID), 0, 0; Term(EQUALS), 0, 0; Link, RIGHT_SIDE, 0; Term(LESS), 0, 0; Term(ID), 0, 0; Star, 397, 2;
    Term(GREATER), 0, 0; Term(EQUALS), 0, 0; Link, RIGHT_SIDE, 0; Term(COMMA), 0, 0; Term(ID), 0, 0; Term(ID), 0, 0;
    Star, 403, 1; Choice, 411, 6; Link, RIGHT_SIDE, 0; Choice, 404, 2; Seq, 406, 3; Seq, 409, 2;
    Term(OPEN_BRACKET), 0, 0; Link, EXPRESSION, 0; Term(CLOSE_BRACKET), 0, 0; Term(DOT), 0, 0; Term(ID), 0, 0;
    Term(EQUALS), 0, 0; Term(PLUS_EQUALS), 0, 0; Term(MINUS_EQUALS), 0, 0; Term(STAR_EQUALS), 0, 0;
    Term(SLASH_EQUALS), 0, 0; Term(AMPERSAND_EQUALS), 0, 0; Link, EXPRESSION, 0; Term(SEMICOLON), 0, 0;
    // 419: Rhs
    Named, 420, 1; Choice, 421, 2; Link, LOOP, 0; Seq, 423, 2; Link, EXPRESSION, 0; Term(SEMICOLON), 0, 0;
    // 425: Conds
    Named, 426, 2; Link, EXPRESSION, 0; Star, 428, 2; Term(COMMA), 0, 0; Link, EXPRESSION, 0;
    // 430: Exp
    Named, 431, 2; Link, IMPLICATION, 0; Opt, 433, 3; Term(QUESTION), 0, 0; Link, EXPRESSION, 0; Opt, 436, 2;
    Term(COLON), 0, 0; Link, EXPRESSION, 0;
    // 438: Imp
    Named, 439, 2; Link, DISJUNCTION, 0; Opt, 441, 2; Choice, 443, 2; Link, DISJUNCTION, 0; Term(IMPLIES), 0, 0;
    Term(EQUIVALENT), 0, 0;
    // 445: Or
    Named, 446, 2; Link, CONJUNCTION, 0; Star, 448, 2; Term(OR), 0, 0; Link, CONJUNCTION, 0;
    // 450: And
    Named, 451, 2; Link, MATCH, 0; Star, 453, 2; Term(AND), 0, 0; Link, MATCH, 0;
    // 455: Test
    Named, 456, 1; Choice, 457, 2; Seq, 459, 3; Link, EQUALITY, 0; Link, PATTERN, 0; Choice, 462, 3;
    Link, EQUALITY, 0; Term(MATCHES), 0, 0; Term(MATCHES_NOT), 0, 0; Term(ENUMERATES), 0, 0;
    // 465: Cmp
    Named, 466, 2; Link, COMPARISON, 0; Opt, 468, 2; Choice, 470, 2; Link, COMPARISON, 0; Term(EQUAL), 0, 0;
    Term(NOT_EQUAL), 0, 0;
    // 472: Rel
    Named, 473, 2; Link, SUM, 0; Opt, 475, 1; Choice, 476, 2; Seq, 478, 2; Seq, 486, 2; Choice, 480, 6;
    Link, SUM, 0; Term(LESS_OR_EQUAL), 0, 0; Term(GREATER_OR_EQUAL), 0, 0; Term(LESS), 0, 0; Term(GREATER), 0, 0;
    Term(IN), 0, 0; Term(NOTIN), 0, 0; Term(IS), 0, 0; Term(ID), 0, 0;
    // 488: Add
    Named, 489, 2; Link, PRODUCT, 0; Star, 491, 2; Choice, 493, 3; Link, PRODUCT, 0; Term(PLUS), 0, 0;
    Term(MINUS), 0, 0; Term(AMPERSAND), 0, 0;
    // 496: Mul
    Named, 497, 2; Link, COMPOSITION, 0; Star, 499, 2; Choice, 501, 3; Link, COMPOSITION, 0; Term(STAR), 0, 0;
    Term(SLASH), 0, 0; Term(PERCENT), 0, 0;
    // 504: Com
    Named, 505, 2; Link, UNARY, 0; Star, 507, 2; Term(COMPOSE), 0, 0; Link, UNARY, 0;
    // 509: Un
    Named, 510, 1; Choice, 511, 3; Seq, 514, 2; Seq, 516, 2; Seq, 518, 2; Term(BANG), 0, 0; Link, UNARY, 0;
    Term(MINUS), 0, 0; Link, UNARY, 0; Link, PRIMARY, 0; Star, 520, 1; Link, SUFFIX, 0;
    // 521: Suf
    Named, 522, 1; Choice, 523, 4; Seq, 527, 3; Seq, 530, 2; Seq, 532, 2; Seq, 535, 2; Term(OPEN_BRACKET), 0, 0;
    Link, SUBSCRIPT, 0; Term(CLOSE_BRACKET), 0, 0; Term(DOT), 0, 0; Term(ID), 0, 0; Term(PLUS), 0, 0; Not, 534, 1;
    Link, STARTER, 0; Term(STAR), 0, 0; Not, 537, 1; Link, STARTER, 0;
    // 538: Sub
    Named, 539, 1; Choice, 540, 2; Seq, 542, 2; Seq, 545, 2; Term(DOTS), 0, 0; Opt, 544, 1; Link, EXPRESSION, 0;
    Link, EXPRESSION, 0; Opt, 547, 2; Term(DOTS), 0, 0; Opt, 549, 1; Link, EXPRESSION, 0;
    // 550: Starter
    Named, 551, 1; Choice, 552, 16; Term(ID), 0, 0; Term(INTEGER), 0, 0; Term(STRING), 0, 0;
    Term(STRING_HEAD), 0, 0; Term(LOCATION), 0, 0; Term(OPEN_PARENTHESIS), 0, 0; Term(OPEN_BRACKET), 0, 0;
    Term(OPEN_BRACE), 0, 0; Term(LESS), 0, 0; Term(MINUS), 0, 0; Term(BANG), 0, 0; Term(TRUE), 0, 0;
    Term(FALSE), 0, 0; Term(IT), 0, 0; Term(VISIT), 0, 0; Link, VISIT_STRATEGY, 0;
    // 568: Prim
    Named, 569, 1; Choice, 570, 15; Term(INTEGER), 0, 0; Term(STRING), 0, 0; Seq, 585, 4; Term(LOCATION), 0, 0;
    Term(TRUE), 0, 0; Term(FALSE), 0, 0; Term(IT), 0, 0; Link, VISIT_EXPRESSION, 0; Link, CONCRETE, 0;
    Link, PARENTHESIZED, 0; Link, LIST_EXPRESSION, 0; Link, SET_EXPRESSION, 0; Seq, 591, 4; Seq, 597, 4;
    Term(ID), 0, 0; Term(STRING_HEAD), 0, 0; Link, SUM, 0; Star, 589, 2; Term(STRING_TAIL), 0, 0;
    Term(STRING_MIDDLE), 0, 0; Link, SUM, 0; Term(LESS), 0, 0; Link, SUM, 0; Star, 595, 2; Term(GREATER), 0, 0;
    Term(COMMA), 0, 0; Link, SUM, 0; Term(ID), 0, 0; Term(OPEN_PARENTHESIS), 0, 0; Opt, 601, 2;
    Term(CLOSE_PARENTHESIS), 0, 0; Link, ARGUMENT, 0; Star, 603, 2; Term(COMMA), 0, 0; Link, ARGUMENT, 0;
    // 605: Arg
    Named, 606, 1; Choice, 607, 2; Seq, 609, 2; Link, EXPRESSION, 0; Term(HASH), 0, 0; Choice, 611, 2; Seq, 613, 4;
    Term(UPPER_ID), 0, 0; Term(START), 0, 0; Term(OPEN_BRACKET), 0, 0; Term(UPPER_ID), 0, 0;
    Term(CLOSE_BRACKET), 0, 0;
    // 617: Visit
    Named, 618, 8; Opt, 626, 1; Term(VISIT), 0, 0; Term(OPEN_PARENTHESIS), 0, 0; Link, EXPRESSION, 0;
    Term(CLOSE_PARENTHESIS), 0, 0; Term(OPEN_BRACE), 0, 0; Plus, 627, 1; Term(CLOSE_BRACE), 0, 0;
    Link, VISIT_STRATEGY, 0; Link, CASE, 0;
    // 628: Strategy
    Named, 629, 1; Choice, 630, 6; Term(INNERMOST), 0, 0; Term(OUTERMOST), 0, 0; Term(TOP_DOWN), 0, 0;
    Term(TOP_DOWN_BREAK), 0, 0; Term(BOTTOM_UP), 0, 0; Term(BOTTOM_UP_BREAK), 0, 0;
    // 636: Concrete
    Named, 637, 4; Term(OPEN_PARENTHESIS), 0, 0; Term(UPPER_ID), 0, 0; Term(CLOSE_PARENTHESIS), 0, 0;
    Term(FRAGMENT), 0, 0;
    // 641: Paren
    Named, 642, 2; Term(OPEN_PARENTHESIS), 0, 0; Choice, 644, 2; Term(CLOSE_PARENTHESIS), 0, 0; Seq, 646, 2;
    Link, EXPRESSION, 0; Choice, 648, 3; Term(CLOSE_PARENTHESIS), 0, 0; Seq, 651, 5; Seq, 656, 3; Term(BAR), 0, 0;
    Link, EXPRESSION, 0; Term(BAR), 0, 0; Link, CONDITIONS, 0; Term(CLOSE_PARENTHESIS), 0, 0; Term(COLON), 0, 0;
    Link, EXPRESSION, 0; Choice, 659, 2; Seq, 661, 3; Seq, 664, 2; Term(BAR), 0, 0; Link, CONDITIONS, 0;
    Term(CLOSE_PARENTHESIS), 0, 0; Star, 666, 4; Term(CLOSE_PARENTHESIS), 0, 0; Term(COMMA), 0, 0;
    Link, EXPRESSION, 0; Term(COLON), 0, 0; Link, EXPRESSION, 0;
    // 670: List
    Named, 671, 2; Term(OPEN_BRACKET), 0, 0; Choice, 673, 2; Term(CLOSE_BRACKET), 0, 0; Seq, 675, 2;
    Link, ELEMENT, 0; Choice, 677, 4; Seq, 681, 3; Seq, 684, 3; Term(CLOSE_BRACKET), 0, 0; Seq, 687, 3;
    Term(DOTS), 0, 0; Link, EXPRESSION, 0; Term(CLOSE_BRACKET), 0, 0; Term(BAR), 0, 0; Link, CONDITIONS, 0;
    Term(CLOSE_BRACKET), 0, 0; Term(COMMA), 0, 0; Link, ELEMENT, 0; Choice, 690, 2; Seq, 692, 3; Seq, 695, 3;
    Term(DOTS), 0, 0; Link, EXPRESSION, 0; Term(CLOSE_BRACKET), 0, 0; Star, 698, 2; Opt, 700, 2;
    Term(CLOSE_BRACKET), 0, 0; Term(COMMA), 0, 0; Link, ELEMENT, 0; Term(BAR), 0, 0; Link, CONDITIONS, 0;
    // 702: Set
    Named, 703, 2; Term(OPEN_BRACE), 0, 0; Choice, 705, 2; Term(CLOSE_BRACE), 0, 0; Seq, 707, 4; Link, ELEMENT, 0;
    Star, 711, 2; Opt, 713, 2; Term(CLOSE_BRACE), 0, 0; Term(COMMA), 0, 0; Link, ELEMENT, 0; Term(BAR), 0, 0;
    Link, CONDITIONS, 0;
    // 715: Elem
    Named, 716, 1; Choice, 717, 2; Seq, 719, 2; Link, EXPRESSION, 0; Term(STAR), 0, 0; Link, SUM, 0;
    // 721: Pat
    Named, 722, 1; Choice, 723, 3; Seq, 726, 4; Seq, 730, 3; Link, PLAIN_PATTERN, 0; Link, TYPE, 0; Term(ID), 0, 0;
    Term(COLON), 0, 0; Link, PATTERN, 0; Term(ID), 0, 0; Term(COLON), 0, 0; Link, PATTERN, 0;
    // 733: Plain
    Named, 734, 1; Choice, 735, 16; Seq, 751, 2; Seq, 753, 2; Link, CONCRETE, 0; Seq, 755, 4; Seq, 763, 2;
    Seq, 767, 3; Seq, 774, 3; Seq, 781, 4; Seq, 787, 2; Term(INTEGER), 0, 0; Term(STRING), 0, 0;
    Term(LOCATION), 0, 0; Term(TRUE), 0, 0; Term(FALSE), 0, 0; Term(UNDERSCORE), 0, 0; Term(ID), 0, 0;
    Term(BANG), 0, 0; Link, PATTERN, 0; Term(SLASH), 0, 0; Link, PATTERN, 0; Term(ID), 0, 0;
    Term(OPEN_PARENTHESIS), 0, 0; Opt, 759, 2; Term(CLOSE_PARENTHESIS), 0, 0; Link, PATTERN, 0; Star, 761, 2;
    Term(COMMA), 0, 0; Link, PATTERN, 0; Link, TYPE, 0; Choice, 765, 2; Term(ID), 0, 0; Term(UNDERSCORE), 0, 0;
    Term(OPEN_BRACKET), 0, 0; Opt, 770, 2; Term(CLOSE_BRACKET), 0, 0; Link, PATTERN_ELEMENT, 0; Star, 772, 2;
    Term(COMMA), 0, 0; Link, PATTERN_ELEMENT, 0; Term(OPEN_BRACE), 0, 0; Opt, 777, 2; Term(CLOSE_BRACE), 0, 0;
    Link, PATTERN_ELEMENT, 0; Star, 779, 2; Term(COMMA), 0, 0; Link, PATTERN_ELEMENT, 0; Term(LESS), 0, 0;
    Link, PATTERN, 0; Star, 785, 2; Term(GREATER), 0, 0; Term(COMMA), 0, 0; Link, PATTERN, 0; Term(MINUS), 0, 0;
    Term(INTEGER), 0, 0;
    // 789: Star
    Named, 790, 1; Choice, 791, 4; Seq, 795, 2; Seq, 797, 3; Seq, 800, 2; Link, PATTERN, 0; Term(STAR), 0, 0;
    Term(UNDERSCORE), 0, 0; Term(STAR), 0, 0; Link, TYPE, 0; Term(ID), 0, 0; Term(STAR), 0, 0; Term(ID), 0, 0;
];
