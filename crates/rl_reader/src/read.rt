//! What the bytes of a file are as a module.

ghost use Rattle.std.specs.Prelude.{◌≡◌, ◌≤◌, ◌^◌, length, IfOk};
ghost use Rattle.rl_phrase.specs.View.{view};
ghost use Rattle.rl_reader.specs.Source.{place_within};
ghost use Rattle.rl_reader.specs.Read.{Answers, IsFaultOrMemory, as_fault, as_phrase_fault, module_of, of_forms, of_source, of_text, of_tree, read_of, valid_front};

use crate::node::first_unknown;
use crate::phrase::read_parts;
use crate::source::{Source, place_within};
use rl_base::{Chars, Name, Place, TextFault, chars};
use rl_forms::{Form, row_in};
use rl_phrase::phrase::{PhraseFault, phrase};
use rl_phrase::tree::Phrase;
use rl_phrase_table::laws::rules_are_sound;
use rl_phrase_table::rules::{MODULE, RULES};
use rl_syntax::Module;
use rl_tokens::{TokenFault, tokens};
use std::alloc::{AllocError, Global};

/// Why there is no module.
#[derive(Debug, Drop)]
pub enum ReadFault {
    /// The first fault of the text, by its code: M3 to M12.
    Fault { place: Place, code: u8 },
    /// Memory is wanting.
    OutOfMemory,
}

impl From<AllocError> for ReadFault {
    ghost use Rattle.std.specs.Prelude.{◌≡◌};
    ghost use Rattle.rl_reader.specs.declared.read.ReadFault.TheVariants.{OutOfMemory};

    ghost from_gives = { λ _ e. e ≡ OutOfMemory };

    fn from(_error: AllocError) -> ReadFault {
        ReadFault::OutOfMemory
    }
}

// The module of these parts, whose header has its name.
fn finish(
    alloc: Global,
    place: Place,
    path: &str,
    name: &str,
    parts: &[Form],
) -> Result<Module, AllocError>
    ensures { IfOk result (λ it. it ≡ module_of place path.now name.now parts.now) }
{
    Ok(Module {
        place,
        path: Name::from_str(alloc, path)?,
        name: Name::from_str(alloc, name)?,
        declarations: row_in(alloc, parts)?,
    })
}

// The module of these parts, or the first fault in them.
#[tactic(auto, unfolding(crate::specs::Read::of_forms))]
fn module_of_forms(
    alloc: Global,
    place: Place,
    path: &str,
    name: &str,
    forms: &[Form],
) -> Result<Module, ReadFault>
    ensures answer { Answers (of_forms place path.now name.now forms.now) result }
    ensures named { IfOk result (λ it. (it.path ≡ path.now) × (it.name ≡ name.now)) }
{
    match forms.get(1) {
        Some(Form::QualifiedName(at, found)) => {
            if found.as_str() != name {
                return Err(ReadFault::Fault {
                    place: *at,
                    code: 11,
                });
            }
        }
        _ => return Err(ReadFault::Fault { place, code: 12 }),
    }
    if let Some(place) = first_unknown(forms) {
        return Err(ReadFault::Fault { place, code: 12 });
    }
    Ok(finish(alloc, place, path, name, forms)?)
}

// The module of the phrase, or the first fault in it.
fn module_of_phrase(
    alloc: Global,
    source: &Source,
    path: &str,
    name: &str,
    phrase: &Phrase,
) -> Result<Module, ReadFault>
    ensures answer { Answers (of_tree source.now path.now name.now (view phrase.now)) result }
    ensures named { IfOk result (λ it. (it.path ≡ path.now) × (it.name ≡ name.now)) }
{
    let forms = read_parts(alloc, source, &phrase.parts)?;
    module_of_forms(alloc, source.place(phrase.from), path, name, &forms)
}

// Why the tokens are no phrase, as the caller is told it.
fn phrase_fault(source: &Source, fault: &PhraseFault) -> ReadFault
    ensures { result ≡ as_phrase_fault source.now fault.now }
{
    let (token, code) = match fault {
        PhraseFault::Stopped { token } => (*token, 9),
        PhraseFault::TooDeep { token } => (*token, 10),
        PhraseFault::OutOfMemory => return ReadFault::OutOfMemory,
    };
    ReadFault::Fault {
        place: source.place(token),
        code,
    }
}

// The module of the tokens, or the first fault in them.
fn module_of_source(
    alloc: Global,
    source: &Source,
    path: &str,
    name: &str,
) -> Result<Module, ReadFault>
    ensures answer { Answers (of_source source.now path.now name.now) result }
    ensures named { IfOk result (λ it. (it.path ≡ path.now) × (it.name ≡ name.now)) }
{
    rules_are_sound();
    match phrase(alloc, &source.tokens, RULES, MODULE) {
        Ok(phrase) => module_of_phrase(alloc, source, path, name, &phrase),
        Err(fault) => Err(phrase_fault(source, &fault)),
    }
}

// A fault of the tokens, as the caller is told it.
fn token_fault(text: &Chars, number: u32, fault: &TokenFault) -> ReadFault
    ensures { result ≡ as_fault text.now number fault.now }
{
    let (offset, code) = match fault {
        TokenFault::BadCharacter { offset } => (*offset, 4),
        TokenFault::OpenString { offset } => (*offset, 5),
        TokenFault::OpenComment { offset } => (*offset, 6),
        TokenFault::WideNumber { offset } => (*offset, 7),
        TokenFault::BadEscape { offset } => (*offset, 8),
        TokenFault::OutOfMemory => return ReadFault::OutOfMemory,
    };
    ReadFault::Fault {
        place: place_within(text, number, offset),
        code,
    }
}

// The module of the text, or the first fault in it.
#[tactic(auto, unfolding(crate::specs::Read::of_text))]
fn module_of_text(
    alloc: Global,
    number: u32,
    path: &str,
    name: &str,
    text: Chars,
) -> Result<Module, ReadFault>
    ensures answer { Answers (of_text number path.now name.now text) result }
    ensures named { IfOk result (λ it. (it.path ≡ path.now) × (it.name ≡ name.now)) }
{
    match tokens(alloc, &text) {
        Err(fault) => Err(token_fault(&text, number, &fault)),
        Ok(tokens) => {
            let source = Source {
                number,
                text,
                tokens,
            };
            module_of_source(alloc, &source, path, name)
        }
    }
}

// The fault of bytes that are not UTF-8, behind so many characters.
#[tactic(auto, using(crate::proofs::Texts::text_is))]
fn utf8_fault(alloc: Global, number: u32, bytes: &[u8], offset: u32) -> ReadFault
    requires { length bytes.now ≤ 2 ^ 24 }
    ensures { IsFaultOrMemory (place_within (valid_front bytes.now) number offset) 3 result }
{
    match std::str::from_utf8(bytes) {
        Ok(_) => ReadFault::OutOfMemory,
        Err(fault) => match chars(alloc, &bytes[..fault.valid_up_to()]) {
            Ok(front) => ReadFault::Fault {
                place: place_within(&front, number, offset),
                code: 3,
            },
            Err(_) => ReadFault::OutOfMemory,
        },
    }
}

/// The module of this number and name, which a file with these bytes is. The path is that of the file.
///
/// The first of these faults is told: M3, the bytes are not UTF-8, at the end of their longest valid front; M4 to M8, the
/// leftmost fault of a token; M9, there is no phrase, at the furthest token that was tried; M10, the phrase is nested too deep;
/// M11, the header names another module, at that name; M12, a phrase whose parts are not those of its rule, at its first token.
#[tactic(auto, unfolding(crate::specs::Read::read_of))]
pub fn read_module(
    alloc: Global,
    number: u32,
    path: &str,
    name: &str,
    bytes: &[u8],
) -> Result<Module, ReadFault>
    requires { length bytes.now ≤ 2 ^ 24 }
    ensures answer { Answers (read_of number path.now name.now bytes.now) result }
    ensures named { IfOk result (λ it. (it.path ≡ path.now) × (it.name ≡ name.now)) }
{
    match chars(alloc, bytes) {
        Ok(text) => module_of_text(alloc, number, path, name, text),
        Err(TextFault::NotUtf8 { offset }) => Err(utf8_fault(alloc, number, bytes, offset)),
        Err(TextFault::OutOfMemory) => Err(ReadFault::OutOfMemory),
    }
}
