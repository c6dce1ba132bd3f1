//! What holds of the table: it is the table of the grammar, and it meets what the search for a phrase asks of a table.

ghost use Rattle.std.specs.Prelude.{◌≡◌, [], ◌∷◌, codes};
ghost use Rattle.rl_tokens.specs.Terminal.{terminals};
ghost use Rattle.rl_phrase.specs.Answer.{IsNamed};
ghost use Rattle.rl_phrase.specs.LeftRecursion.{HasNoLeftRecursion};
ghost use Rattle.rl_phrase_table.specs.Grammar.{grammar};
ghost use Rattle.rl_phrase_table.specs.Rows.{starts, table_of};
ghost use Rattle.rl_phrase_table.specs.Table.{HasItsRows};
ghost use Rattle.rl_phrase_table.specs.Written.{first_written};

use crate::rules::*;

/// The rows are those of the grammar, the constants are the rows of its rules, and the terminals stand in the order in which
/// the rules first write them.
pub fn rules_are_the_grammar()
    ensures table { RULES.now ≡ table_of grammar }
    ensures terminals { terminals ≡ first_written grammar }
    ensures constants { starts grammar ≡
        (codes "Module", MODULE) ∷ (codes "QName", QUALIFIED_NAME) ∷ (codes "Top", TOP_LEVEL)
        ∷ (codes "Import", IMPORT) ∷ (codes "DataDef", DATA_DEFINITION) ∷ (codes "Variant", VARIANT)
        ∷ (codes "Field", FIELD) ∷ (codes "Global", GLOBAL) ∷ (codes "Fun", FUNCTION) ∷ (codes "Type", TYPE)
        ∷ (codes "Syntax", SYNTAX_DEFINITION) ∷ (codes "Level", LEVEL) ∷ (codes "Alt", ALTERNATIVE)
        ∷ (codes "Assoc", ASSOCIATIVITY) ∷ (codes "Prod", PRODUCTION) ∷ (codes "Sym", SYMBOL)
        ∷ (codes "Near", ADJOINING) ∷ (codes "Rep", REPETITION) ∷ (codes "Atom", ATOM)
        ∷ (codes "Chars", CHARACTERS) ∷ (codes "Stat", STATEMENT) ∷ (codes "Block", BLOCK) ∷ (codes "If", IF)
        ∷ (codes "Switch", SWITCH) ∷ (codes "Case", CASE) ∷ (codes "Loop", LOOP) ∷ (codes "Solve", SOLVE)
        ∷ (codes "Try", TRY) ∷ (codes "Catch", CATCH) ∷ (codes "Finally", FINALLY)
        ∷ (codes "Simple", SIMPLE_STATEMENT) ∷ (codes "Rhs", RIGHT_SIDE) ∷ (codes "Conds", CONDITIONS)
        ∷ (codes "Exp", EXPRESSION) ∷ (codes "Imp", IMPLICATION) ∷ (codes "Or", DISJUNCTION)
        ∷ (codes "And", CONJUNCTION) ∷ (codes "Test", MATCH) ∷ (codes "Cmp", EQUALITY)
        ∷ (codes "Rel", COMPARISON) ∷ (codes "Add", SUM) ∷ (codes "Mul", PRODUCT) ∷ (codes "Com", COMPOSITION)
        ∷ (codes "Un", UNARY) ∷ (codes "Suf", SUFFIX) ∷ (codes "Sub", SUBSCRIPT) ∷ (codes "Starter", STARTER)
        ∷ (codes "Prim", PRIMARY) ∷ (codes "Arg", ARGUMENT) ∷ (codes "Visit", VISIT_EXPRESSION)
        ∷ (codes "Strategy", VISIT_STRATEGY) ∷ (codes "Concrete", CONCRETE) ∷ (codes "Paren", PARENTHESIZED)
        ∷ (codes "List", LIST_EXPRESSION) ∷ (codes "Set", SET_EXPRESSION) ∷ (codes "Elem", ELEMENT)
        ∷ (codes "Pat", PATTERN) ∷ (codes "Plain", PLAIN_PATTERN) ∷ (codes "Star", PATTERN_ELEMENT) ∷ [] }
{}

/// No row comes back to itself without a token, every row that a row speaks of is in the table, and the row of modules is a
/// rule.
pub fn rules_are_sound()
    ensures no_left_recursion { HasNoLeftRecursion RULES.now }
    ensures rows { HasItsRows RULES.now }
    ensures modules { IsNamed RULES.now MODULE }
{}
