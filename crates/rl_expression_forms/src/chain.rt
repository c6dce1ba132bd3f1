//! Chains of operators of one level, and operators before a value.

ghost use Rattle.std.specs.Prelude.{◌≡◌, IfOk};
ghost use Rattle.rl_forms.specs.Part.{Gives};
ghost use Rattle.rl_expression_forms.specs.Chain.{composition_of, conjunction_of, disjunction_of, prefixed, product_of, product_operator, sum_of, sum_operator, unary_of};

use crate::pair::{Pair, pairs_in};
use crate::suffix::suffixed;
use rl_base::{Place, Shared};
use rl_forms::words::word_at;
use rl_forms::{Form, FormError, first_in, part_at, row_in};
use rl_syntax::{Exp, ProductOperator, SumOperator};
use rl_tokens::terminal;
use std::alloc::{AllocError, Global};

/// `a || b || ..`
pub(crate) fn disjunction(alloc: Global, place: Place, parts: &[Form]) -> Result<Exp, AllocError>
    ensures { IfOk result (λ it. it ≡ disjunction_of place parts.now) }
{
    let parts = row_in(alloc, parts)?;
    Ok(Exp::Disjunction { place, parts })
}

/// `a && b && ..`
pub(crate) fn conjunction(alloc: Global, place: Place, parts: &[Form]) -> Result<Exp, AllocError>
    ensures { IfOk result (λ it. it ≡ conjunction_of place parts.now) }
{
    let parts = row_in(alloc, parts)?;
    Ok(Exp::Conjunction { place, parts })
}

/// `a o b o ..`
pub(crate) fn composition(alloc: Global, place: Place, parts: &[Form]) -> Result<Exp, AllocError>
    ensures { IfOk result (λ it. it ≡ composition_of place parts.now) }
{
    let parts = row_in(alloc, parts)?;
    Ok(Exp::Composition { place, parts })
}

fn sum_operator(word: u32) -> Result<SumOperator, FormError>
    ensures { Gives (sum_operator word) result }
{
    match word {
        terminal::PLUS => Ok(SumOperator::Add),
        terminal::MINUS => Ok(SumOperator::Subtract),
        terminal::AMPERSAND => Ok(SumOperator::Intersect),
        _ => Err(FormError::Missing),
    }
}

/// An operator of a sum with the part behind it.
impl Pair for (SumOperator, Shared<Exp>) {
    ghost use Rattle.rl_forms.specs.Part.{Gives};
    ghost use Rattle.rl_expression_forms.specs.Chain.{summand};

    ghost of_parts = { summand };

    #[tactic(auto, unfolding(crate::specs::Chain::summand))]
    fn from_parts(alloc: Global, parts: &[Form]) -> Result<(SumOperator, Shared<Exp>), FormError> {
        let operator = sum_operator(word_at(parts, 0)?)?;
        Ok((operator, part_at(alloc, parts, 1)?))
    }
}

/// `a + b - c ..`
pub(crate) fn sum(alloc: Global, place: Place, parts: &[Form]) -> Result<Exp, FormError>
    ensures { Gives (sum_of place parts.now) result }
{
    Ok(Exp::Sum {
        place,
        first: first_in(alloc, parts)?,
        rest: pairs_in(alloc, parts)?,
    })
}

fn product_operator(word: u32) -> Result<ProductOperator, FormError>
    ensures { Gives (product_operator word) result }
{
    match word {
        terminal::STAR => Ok(ProductOperator::Multiply),
        terminal::SLASH => Ok(ProductOperator::Divide),
        terminal::PERCENT => Ok(ProductOperator::Remainder),
        _ => Err(FormError::Missing),
    }
}

/// An operator of a product with the part behind it.
impl Pair for (ProductOperator, Shared<Exp>) {
    ghost use Rattle.rl_expression_forms.specs.Chain.{factor};

    ghost of_parts = { factor };

    #[tactic(auto, unfolding(crate::specs::Chain::factor))]
    fn from_parts(
        alloc: Global,
        parts: &[Form],
    ) -> Result<(ProductOperator, Shared<Exp>), FormError> {
        let operator = product_operator(word_at(parts, 0)?)?;
        Ok((operator, part_at(alloc, parts, 1)?))
    }
}

/// `a * b / c ..`
pub(crate) fn product(alloc: Global, place: Place, parts: &[Form]) -> Result<Exp, FormError>
    ensures { Gives (product_of place parts.now) result }
{
    Ok(Exp::Product {
        place,
        first: first_in(alloc, parts)?,
        rest: pairs_in(alloc, parts)?,
    })
}

// `!e` or `-e`
fn prefixed(place: Place, word: u32, value: Shared<Exp>) -> Result<Exp, FormError>
    ensures { Gives (prefixed place word value) result }
{
    match word {
        terminal::BANG => Ok(Exp::Not { place, value }),
        terminal::MINUS => Ok(Exp::Negative { place, value }),
        _ => Err(FormError::Missing),
    }
}

/// An operator before a value, or suffixes behind one.
#[tactic(auto, unfolding(crate::specs::Chain::unary_of))]
pub(crate) fn unary(alloc: Global, place: Place, parts: &[Form]) -> Result<Exp, FormError>
    ensures { Gives (unary_of place parts.now) result }
{
    match parts.first() {
        Some(Form::Word(_, word)) => prefixed(place, *word, part_at(alloc, parts, 1)?),
        _ => suffixed(alloc, place, parts),
    }
}
