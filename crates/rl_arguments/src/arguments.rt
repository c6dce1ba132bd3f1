//! The arguments that library functions take, and what comes of an argument of another kind.

ghost use Rattle.std.specs.Prelude.{◌≡◌, map, IfSome};
ghost use Rattle.std.specs.Option.{option_copied, option_map};
ghost use Rattle.rl_value.specs.View.{pair_of};
ghost use Rattle.rl_value.specs.Order.{plain_cmp};
ghost use Rattle.rl_value.specs.Rising.{Rises};
ghost use Rattle.rl_arguments.specs.Arguments.{list_in, set_in, entries_in, str_in};

use rl_value::{Entry, Opened, Value};

/// The elements of a list.
#[tactic(auto, using(rl_value::specs::Plain::back))]
pub fn list_in(argument: &Value) -> Option<&[Value]>
    ensures { option_copied result ≡ list_in argument.now }
{
    match argument.open() {
        Opened::List(items) => Some(items),
        _ => None,
    }
}

/// The elements of a set, from the least to the greatest.
#[tactic(auto, using(rl_value::specs::Plain::back))]
pub fn set_in(argument: &Value) -> Option<&[Value]>
    ensures elements { option_copied result ≡ set_in argument.now }
    ensures rise { IfSome result (λ items. Rises plain_cmp items.now) }
{
    match argument.open() {
        Opened::Set(items) => Some(items),
        _ => None,
    }
}

/// The keys of a map with their values, by their keys.
#[tactic(auto, using(rl_value::specs::Plain::back))]
pub fn entries_in(argument: &Value) -> Option<&[Entry]>
    ensures { option_map (map pair_of) (option_copied result) ≡ entries_in argument.now }
{
    match argument.open() {
        Opened::Map(entries) => Some(entries),
        _ => None,
    }
}

/// The characters of a text; a text in a syntax tree is none.
pub fn str_in(argument: &Value) -> Option<&str>
    ensures { option_copied result ≡ str_in argument.now }
{
    match argument.open() {
        Opened::Text(text) => Some(text),
        _ => None,
    }
}
