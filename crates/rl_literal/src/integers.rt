//! Integers.

ghost use Rattle.std.specs.Prelude.{◌≡◌, ◌<◌, ◌^◌, pos};
ghost use Rattle.rl_literal.specs.Integer.{integer_in, number_from, with_digit};

// The greatest integer.
const GREATEST: u128 = 0x7FFF_FFFF_FFFF_FFFF_FFFF_FFFF_FFFF_FFFF;

// The number with one more digit behind it.
fn with_digit(number: u128, digit: u8) -> u128
    ensures value { result ≡ with_digit number digit }
    ensures small { result < 2 ^ 127 }
{
    let digit = u128::from(digit.saturating_sub(48));
    number
        .saturating_mul(10)
        .saturating_add(digit)
        .min(GREATEST)
}

// The number that the digits write.
fn number(digits: &[u8]) -> u128
    ensures value { result ≡ number_from 0 digits.now }
    ensures small { result < 2 ^ 127 }
{
    let mut number = 0;
    for digit in digits {
        number = with_digit(number, *digit);
    }
    number
}

/// The integer that the token writes.
#[tactic(auto, unfolding(crate::specs::Integer::integer_in))]
pub fn integer(token: &str) -> i128
    ensures { result ≡ pos (integer_in token.now) }
{
    number(token.as_bytes()) as i128
}
