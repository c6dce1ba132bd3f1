//! Integers.

ghost use Rattle.std.specs.Prelude.{◌≡◌, ◌≤◌, ◌^◌, ◌↔◌, IsTrue, length, take, slice_index};
ghost use Rattle.rl_tokens.specs.Number as spec;

use crate::set::{Set, peek, run};

// How many digits of the integer stand at the front.
pub(crate) fn integer_len(text: &[char]) -> usize
    ensures value { result ≡ spec.integer_len text.now }
    ensures within { result ≤ length text.now }
{
    if peek(text, 0) == '0' {
        1
    } else {
        run(Set::Digit, text)
    }
}

// Whether the number that the digits write is above 2^127 - 1.
pub(crate) fn is_wide(digits: &[char]) -> bool
    ensures { result ≡ spec.is_wide digits.now }
{
    let mut number: u128 = 0;
    for c in digits {
        if number >= 1 << 124 {
            return true;
        }
        number = number * 10 + u128::from(u32::from(*c).saturating_sub(48));
    }
    number >= 1 << 127
}
