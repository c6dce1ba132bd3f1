//! The tokens of a text, in one pass.

ghost use Rattle.std.specs.Prelude.{◌≡◌, ◌≤◌, ◌<◌, ◌+◌, ◌^◌, ◌++◌, length, IfOk, OnOk};
ghost use Rattle.rl_tokens.specs.Fault.{Notes, leftmost};
ghost use Rattle.rl_tokens.specs.Placed.{IsPlaced};
ghost use Rattle.rl_tokens.specs.Scan as spec;

use crate::fault::{Faults, Flaw, TokenFault};
use crate::lexeme::{Lexeme, Nest, Open, front, grammar_behind};
use crate::list::Tokens;
use crate::terminal::END;
use rl_base::Chars;
use std::alloc::{AllocError, Global};

fn innermost(opens: &[Open]) -> Option<Open>
    ensures { result ≡ spec.innermost opens.now }
{
    opens.last().copied()
}

fn apply(opens: &mut Vec<Open>, nest: Nest) -> Result<(), AllocError>
    ensures { OnOk result (opens.new.items ≡ spec.nested opens.old.items nest) }
{
    match nest {
        Nest::Stays => {}
        Nest::Opens(open) => opens.push(open)?,
        Nest::Closes => {
            let _ = opens.pop();
        }
    }
    Ok(())
}

fn note_unclosed(opens: &[Open], faults: &mut Faults)
    ensures { Notes faults.old faults.new (spec.unclosed opens.now) }
{
    for open in opens {
        if let Open::Interpolation(head) = open {
            faults.note(Flaw::OpenString, *head);
        }
    }
}

// Adds what stands at the offset, if it is a token.
fn push(list: &mut Tokens, offset: u32, text: &[char], lexeme: Lexeme) -> Result<(), AllocError>
    requires few { length list.old < 2 ^ 25 }
    requires within { (offset < lexeme.end) × (lexeme.end ≤ offset + length text.now) }
    ensures { OnOk result (list.new ≡ list.old ++ spec.tokens_of offset text.now lexeme) }
{
    if let Some(kind) = lexeme.kind {
        let length = lexeme.end - offset;
        list.push(kind, &text[..length as usize], offset)?;
    }
    Ok(())
}

fn scan(alloc: Global, text: &[char]) -> Result<(Tokens, Faults), AllocError>
    requires { length text.now ≤ 2 ^ 24 }
    ensures tokens { IfOk result (λ found. found.0 ≡ (spec.tokens_in text.now).tokens) }
    ensures faults { IfOk result (λ found.
        found.1.first ≡ leftmost (spec.tokens_in text.now).faults) }
    ensures placed { IfOk result (λ found. IsPlaced text.now 0 (length text.now) found.0) }
{
    let mut list = Tokens::new(alloc);
    let mut faults = Faults::new();
    let mut opens = Vec::new(alloc);
    let mut grammar = false;
    let mut at = 0;
    while at < text.len() {
        let rest = &text[at..];
        let lexeme = front(at as u32, grammar, innermost(&opens), rest, &mut faults);
        push(&mut list, at as u32, rest, lexeme)?;
        apply(&mut opens, lexeme.nest)?;
        grammar = grammar_behind(grammar, lexeme.kind);
        at = lexeme.end as usize;
    }
    note_unclosed(&opens, &mut faults);
    list.push(END, &[], at as u32)?;
    Ok((list, faults))
}

/// The tokens of a module's text, or the leftmost of its faults.
///
/// A token is as long as it can be. Blanks and comments separate tokens. The last token is the end
/// of the text. Where memory is wanting, the answer says so, whatever the text.
pub fn tokens(alloc: Global, text: &Chars) -> Result<Tokens, TokenFault>
    ensures answer { spec.Answers (spec.tokens_in text.now) result }

    // What follows for the tokens: they stand one behind the other, each with the text of its place.
    ensures placed { IfOk result (IsPlaced text.now 0 (length text.now)) }
{
    match scan(alloc, text.as_slice()) {
        Ok((list, faults)) => match faults.first {
            None => Ok(list),
            Some(fault) => Err(fault.told()),
        },
        Err(AllocError) => Err(TokenFault::OutOfMemory),
    }
}
