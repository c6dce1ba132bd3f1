//! Words among the parts of a phrase.

ghost use Rattle.std.specs.Prelude.{◌≡◌, ◌≤◌, length};
ghost use Rattle.std.specs.List.{position_or_len};
ghost use Rattle.rl_forms.specs.Part.{Gives};
ghost use Rattle.rl_forms.specs.Words.{as_word, before_word, behind_word, has_word, is_word, word_at};

use crate::form::Form;
use crate::part::FormError;

/// Whether the part is a token of the terminal.
pub fn is_word(terminal: u32, part: &Form) -> bool
    ensures { result ≡ is_word terminal part.now }
{
    match part {
        Form::Word(_, word) => *word == terminal,
        _ => false,
    }
}

fn as_word(part: &Form) -> Result<u32, FormError>
    ensures { Gives (as_word part.now) result }
{
    match part {
        Form::Word(_, word) => Ok(*word),
        _ => Err(FormError::Missing),
    }
}

/// The number of the terminal at a place among the parts.
#[tactic(auto, unfolding(crate::specs::Words::word_at))]
pub fn word_at(parts: &[Form], at: usize) -> Result<u32, FormError>
    ensures { Gives (word_at parts.now at) result }
{
    match parts.get(at) {
        Some(part) => as_word(part),
        None => Err(FormError::Missing),
    }
}

/// Whether one of the parts is a token of the terminal.
pub fn has_word(terminal: u32, parts: &[Form]) -> bool
    ensures { result ≡ has_word terminal parts.now }
{
    parts.iter().any(|part| is_word(terminal, part))
}

// How many parts stand before the first token of the terminal.
fn count_before(terminal: u32, parts: &[Form]) -> usize
    ensures value { result ≡ position_or_len (is_word terminal) parts.now }
    ensures within { result ≤ length parts.now }
{
    let mut count = 0;
    while count < parts.len() && !is_word(terminal, &parts[count]) {
        count += 1;
    }
    count
}

/// The parts before the first token of the terminal, or all where there is none.
#[tactic(auto, unfolding(crate::specs::Words::before_word))]
pub fn before_word(terminal: u32, parts: &[Form]) -> &[Form]
    ensures { result.now ≡ before_word terminal parts.now }
{
    &parts[..count_before(terminal, parts)]
}

/// The parts behind the first token of the terminal, or none where there is none.
#[tactic(auto, unfolding(crate::specs::Words::behind_word))]
pub fn behind_word(terminal: u32, parts: &[Form]) -> &[Form]
    ensures { result.now ≡ behind_word terminal parts.now }
{
    let count = count_before(terminal, parts);
    if count < parts.len() {
        &parts[count + 1..]
    } else {
        &[]
    }
}
