//! intercalate.

ghost use Rattle.std.specs.Prelude.{◌≡◌, ◌∷◌, ◌++◌, IfOk, OnOk, map};
ghost use Rattle.std.specs.List.{flat_map};
ghost use Rattle.std.specs.String.{string_bytes};
ghost use Rattle.rl_exception.specs.Answer.{Answers};
ghost use Rattle.rl_print.specs.Printed.{shown_of};
ghost use Rattle.rl_strings.specs.Pieces.{joined};
ghost use Rattle.rl_strings.specs.Joining.{intercalate_of};

use rl_arguments::{list_in, str_in};
use rl_exception::{OpEnd, fitted_text, wrong_kind};
use rl_print::append_shown;
use rl_value::Value;
use std::alloc::{AllocError, Global};

/// The shown texts of the elements of a list, with a text between two.
pub fn intercalate(alloc: Global, between: &Value, v: &Value) -> Result<Value, OpEnd>
    ensures { Answers (intercalate_of between.now v.now) result }
{
    let (Some(between), Some(items)) = (str_in(between), list_in(v)) else {
        return Err(wrong_kind(alloc));
    };
    let joined = joined(alloc, between, items)?;
    fitted_text(alloc, joined.as_str())
}

fn joined(alloc: Global, between: &str, items: &[Value]) -> Result<String, AllocError>
    ensures { IfOk result (λ s. string_bytes s ≡ joined between.now (map shown_of items.now)) }
{
    match items.split_first() {
        Some((first, others)) => joined_from(alloc, between, first, others),
        None => Ok(String::new(alloc)),
    }
}

#[tactic(auto, using(crate::proofs::JoiningLemmas::joined_is))]
fn joined_from(
    alloc: Global,
    between: &str,
    first: &Value,
    others: &[Value],
) -> Result<String, AllocError>
    ensures { IfOk result (λ s. string_bytes s ≡ joined between.now (map shown_of (first.now ∷ others.now))) }
{
    let mut out = String::new(alloc);
    append_shown(&mut out, first)?;
    append_all(&mut out, between, others)?;
    Ok(out)
}

// Appends each of the shown texts behind the text between.
fn append_all(out: &mut String, between: &str, items: &[Value]) -> Result<(), AllocError>
    ensures { OnOk result (string_bytes out.new ≡ string_bytes out.old ++ flat_map (λ t. between.now ++ shown_of t) items.now) }
{
    for item in items {
        out.push_str(between)?;
        append_shown(out, item)?;
    }
    Ok(())
}
