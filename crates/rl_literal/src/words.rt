//! Blanks, and the characters of names.

ghost use Rattle.std.specs.Prelude.{◌≡◌, ◌≤◌, length};
ghost use Rattle.std.specs.List.{prefix_len};
ghost use Rattle.rl_literal.specs.Words.{behind_blanks, behind_word, front_word, is_blank, is_letter};

pub(crate) fn is_blank(c: char) -> bool
    ensures { result ≡ is_blank c }
{
    c == ' ' || c == '\t' || c == '\r' || c == '\n'
}

fn is_letter(c: char) -> bool
    ensures { result ≡ is_letter c }
{
    c.is_ascii_alphanumeric() || c == '_'
}

fn count_blanks(text: &[char]) -> usize
    ensures value { result ≡ prefix_len is_blank text.now }
    ensures within { result ≤ length text.now }
{
    let mut end = 0;
    while end < text.len() && is_blank(text[end]) {
        end += 1;
    }
    end
}

fn count_letters(text: &[char]) -> usize
    ensures value { result ≡ prefix_len is_letter text.now }
    ensures within { result ≤ length text.now }
{
    let mut end = 0;
    while end < text.len() && is_letter(text[end]) {
        end += 1;
    }
    end
}

/// What follows the blanks at the front.
#[tactic(auto, unfolding(crate::specs::Words::behind_blanks))]
pub(crate) fn behind_blanks(text: &[char]) -> &[char]
    ensures { result.now ≡ behind_blanks text.now }
{
    &text[count_blanks(text)..]
}

/// The word at the front.
#[tactic(auto, unfolding(crate::specs::Words::front_word))]
pub(crate) fn front_word(text: &[char]) -> &[char]
    ensures { result.now ≡ front_word text.now }
{
    &text[..count_letters(text)]
}

/// What follows the word at the front.
#[tactic(auto, unfolding(crate::specs::Words::behind_word))]
pub(crate) fn behind_word(text: &[char]) -> &[char]
    ensures { result.now ≡ behind_word text.now }
{
    &text[count_letters(text)..]
}
