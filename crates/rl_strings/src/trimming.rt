//! trim.

ghost use Rattle.std.specs.Prelude.{◌≡◌};
ghost use Rattle.std.specs.List.{prefix_len, suffix_len};
ghost use Rattle.rl_exception.specs.Answer.{Answers};
ghost use Rattle.rl_strings.specs.Trimming.{is_blank, without_front, without_end, trim_of};

use rl_arguments::str_in;
use rl_exception::{OpEnd, fitted_text, wrong_kind};
use rl_value::Value;
use std::alloc::Global;

/// A text without spaces, tabs, carriage returns and line feeds at its ends.
pub fn trim(alloc: Global, v: &Value) -> Result<Value, OpEnd>
    ensures { Answers (trim_of v.now) result }
{
    match str_in(v) {
        Some(text) => fitted_text(alloc, without_end(without_front(text))),
        None => Err(wrong_kind(alloc)),
    }
}

fn is_blank(byte: u8) -> bool
    ensures { result ≡ is_blank byte }
{
    byte == b' ' || byte == b'\t' || byte == b'\r' || byte == b'\n'
}

#[tactic(auto, using(crate::proofs::TrimmingLemmas::front_boundary))]
fn without_front(text: &str) -> &str
    ensures { result.now ≡ without_front text.now }
{
    let blanks = blanks_before(text.as_bytes());
    &text[blanks..]
}

fn blanks_before(bytes: &[u8]) -> usize
    ensures { result ≡ prefix_len is_blank bytes.now }
{
    bytes.iter().take_while(|byte| is_blank(**byte)).count()
}

#[tactic(auto, using(crate::proofs::TrimmingLemmas::end_boundary, crate::proofs::TrimmingLemmas::fewer_behind))]
fn without_end(text: &str) -> &str
    ensures { result.now ≡ without_end text.now }
{
    let blanks = blanks_behind(text.as_bytes());
    &text[..text.len() - blanks]
}

fn blanks_behind(bytes: &[u8]) -> usize
    ensures { result ≡ suffix_len is_blank bytes.now }
{
    bytes
        .iter()
        .rev()
        .take_while(|byte| is_blank(**byte))
        .count()
}
