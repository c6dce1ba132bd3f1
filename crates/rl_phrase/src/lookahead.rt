//! Rows that are passed over, as they cannot begin with the token at hand.

ghost use Rattle.std.specs.Prelude.{◌≡◌, ℕ, ◌<◌, ◌≤◌, ◌↔◌, true};
ghost use Rattle.rl_phrase.specs.Firsts.{CannotBegin};
ghost use Rattle.rl_phrase.specs.State.{FrameWithin};
ghost use Rattle.rl_phrase.specs.Lookahead.{ArePassed, IsOptional, PassesOver, tried};

use crate::firsts::{First, cannot_begin};
use crate::table::{Form, Rule};
use crate::turn::{Frame, Rest};
use rl_tokens::Tokens;

// The first of the rows that may begin with the token, or their end.
fn first_that_may_begin(tokens: &Tokens, firsts: &[First], rest: Rest, token: u32) -> u64
    ensures passed { ArePassed tokens.now firsts.now token rest.next result rest.end }
    ensures first { result < rest.end → ¬ CannotBegin tokens.now firsts.now result token }
{
    let mut next = rest.next;
    while next < rest.end && cannot_begin(firsts, tokens, next, token) {
        next += 1;
    }
    next
}

// How far the text was tried, where rows up to another were tried in vain.
fn tried(token: u32, from: u64, to: u64, far: u32) -> u32
    ensures { result ≡ tried token from to far }
{
    if from < to { far.max(token) } else { far }
}

// The frame without the alternatives that cannot begin with its token, and how far the text was tried by then.
pub fn pass_over(tokens: &Tokens, firsts: &[First], frame: Frame, far: u32) -> (Frame, u32)
    ensures passes { PassesOver tokens.now firsts.now frame far result.0 result.1 }
    ensures within { (n : ℕ) → FrameWithin n frame → FrameWithin n result.0 }
{
    match frame {
        Frame::Choices(rest, mark) => {
            let next = first_that_may_begin(tokens, firsts, rest, mark.at);
            let far = tried(mark.at, rest.next, next, far);
            let rest = Rest {
                next,
                end: rest.end,
            };
            (Frame::Choices(rest, mark), far)
        }
        _ => (frame, far),
    }
}

// Whether the row takes nothing where its first part fails.
pub fn is_optional(rule: Rule) -> bool
    ensures { result ≡ true ↔ IsOptional rule }
{
    matches!(rule.form, Form::Star | Form::Opt) && rule.count > 0
}
