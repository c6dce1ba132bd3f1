//! Names of modules: names joined by two colons.

ghost use Rattle.std.specs.Prelude.{◌≡◌};
ghost use Rattle.rl_words.specs.Words.{is_digit, is_letter, is_module_name, next_stage};

/// A place in the name of a module: where a name begins, inside of one, or behind one colon.
#[derive(Clone, Copy, Debug, PartialEq, Eq)]
pub(crate) enum Stage {
    Begin,
    Inside,
    Colon,
}

fn is_letter(byte: u8) -> bool
    ensures { result ≡ is_letter byte }
{
    matches!(byte, b'A'..=b'Z' | b'a'..=b'z' | b'_')
}

fn is_digit(byte: u8) -> bool
    ensures { result ≡ is_digit byte }
{
    matches!(byte, b'0'..=b'9')
}

// The stage behind one more byte; None where it may not stand there.
fn next_stage(stage: Stage, byte: u8) -> Option<Stage>
    ensures { result ≡ next_stage stage byte }
{
    match stage {
        Stage::Begin => {
            if is_letter(byte) {
                Some(Stage::Inside)
            } else {
                None
            }
        }
        Stage::Inside => {
            if is_letter(byte) || is_digit(byte) {
                Some(Stage::Inside)
            } else if byte == b':' {
                Some(Stage::Colon)
            } else {
                None
            }
        }
        Stage::Colon => {
            if byte == b':' {
                Some(Stage::Begin)
            } else {
                None
            }
        }
    }
}

/// Whether a word is one or more names joined by `::`.
pub(crate) fn is_module_name(word: &[u8]) -> bool
    ensures { result ≡ is_module_name word.now }
{
    let mut stage = Stage::Begin;
    for byte in word {
        match next_stage(stage, *byte) {
            Some(next) => stage = next,
            None => return false,
        }
    }
    matches!(stage, Stage::Inside)
}
