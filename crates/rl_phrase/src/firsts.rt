//! With which tokens rows may begin, so that rows are passed over that can't.

ghost use Rattle.std.specs.Prelude.{◌≡◌, ◌≤◌, ◌↔◌, true, false, length, IfOk};
ghost use Rattle.rl_phrase.specs.Firsts.{AreFirsts, CannotBegin, LacksKind, anything, bit, covers, either, first_at, first_of_choice, first_of_parts, first_of_rule, is_covered, kinds_of_terminal, or_empty, then_first, unless_empty};

use crate::table::{Form, Rule};
use rl_tokens::Tokens;
use rl_tokens::terminal::{ASSOC, BRACKET, ID, LEFT, LOWER_ID, RIGHT, START, UPPER_ID};
use std::alloc::{AllocError, Global};

// The kinds of the tokens with which a row may begin, as bits, and whether it may take nothing.
#[derive(Clone, Copy)]
pub struct First {
    pub kinds: u128,
    pub may_be_empty: bool,
}

// Rounds in which the sets grow; a table that needs more is read without them.
const ROUNDS: u32 = 100;

fn anything() -> First
    ensures { result ≡ anything }
{
    First {
        kinds: u128::MAX,
        may_be_empty: true,
    }
}

fn bit(kind: u32) -> u128
    ensures { result ≡ bit kind }
{
    if kind < 128 { 1 << kind } else { 0 }
}

// The kinds of the tokens that are the terminal.
fn kinds_of_terminal(terminal: u32) -> u128
    ensures { result ≡ kinds_of_terminal terminal }
{
    let own = bit(terminal);
    match terminal {
        ID => own | bit(UPPER_ID) | bit(LOWER_ID),
        LEFT | RIGHT | ASSOC | BRACKET | START => own | bit(LOWER_ID),
        _ => own,
    }
}

// What is known of a row, or of one that the table lacks.
fn first_at(firsts: &[First], row: u64) -> First
    ensures { result ≡ first_at firsts.now row }
{
    match firsts.get(row as usize) {
        Some(first) => *first,
        None => anything(),
    }
}

// A part, and then others.
fn then_first(part: First, others: First) -> First
    ensures { result ≡ then_first part others }
{
    if part.may_be_empty {
        First {
            kinds: part.kinds | others.kinds,
            may_be_empty: others.may_be_empty,
        }
    } else {
        part
    }
}

// Either of both.
fn either(a: First, b: First) -> First
    ensures { result ≡ either a b }
{
    First {
        kinds: a.kinds | b.kinds,
        may_be_empty: a.may_be_empty || b.may_be_empty,
    }
}

// Parts in turn.
fn first_of_parts(firsts: &[First], first: u32, count: u32) -> First
    ensures { result ≡ first_of_parts firsts.now first count }
{
    let mut found = First {
        kinds: 0,
        may_be_empty: true,
    };
    let mut left = count;
    while left > 0 {
        left -= 1;
        found = then_first(first_at(firsts, first as u64 + left as u64), found);
    }
    found
}

// One of the parts.
fn first_of_choice(firsts: &[First], first: u32, count: u32) -> First
    ensures { result ≡ first_of_choice firsts.now first count }
{
    let mut found = First {
        kinds: 0,
        may_be_empty: false,
    };
    let mut left = count;
    while left > 0 {
        left -= 1;
        found = either(first_at(firsts, first as u64 + left as u64), found);
    }
    found
}

// Parts in turn; a row of which they all may be empty is not known.
fn unless_empty(found: First) -> First
    ensures { result ≡ unless_empty found }
{
    if found.may_be_empty {
        anything()
    } else {
        found
    }
}

fn or_empty(found: First) -> First
    ensures { result ≡ or_empty found }
{
    First {
        kinds: found.kinds,
        may_be_empty: true,
    }
}

// What a row may begin with, where this is known of the rows.
fn first_of_rule(firsts: &[First], rule: Rule) -> First
    ensures { result ≡ first_of_rule firsts.now rule }
{
    let Rule { form, first, count } = rule;
    match form {
        Form::Term(kind) => First {
            kinds: kinds_of_terminal(kind),
            may_be_empty: false,
        },
        Form::Link => first_at(firsts, first as u64),
        Form::Named => unless_empty(first_of_parts(firsts, first, count)),
        Form::Seq | Form::Plus => first_of_parts(firsts, first, count),
        Form::Choice if count == 0 => anything(),
        Form::Choice => first_of_choice(firsts, first, count),
        Form::Star | Form::Opt => or_empty(first_of_parts(firsts, first, count)),
        Form::Not => anything(),
    }
}

// Whether the first knows no more than the second.
fn covers(a: First, b: First) -> bool
    ensures { result ≡ covers a b }
{
    a.kinds | b.kinds == a.kinds && (!b.may_be_empty || a.may_be_empty)
}

fn is_covered(rules: &[Rule], firsts: &[First], row: usize) -> bool
    ensures { result ≡ is_covered rules.now firsts.now row }
{
    match rules.get(row) {
        Some(rule) => covers(first_at(firsts, row as u64), first_of_rule(firsts, *rule)),
        None => false,
    }
}

// What is known of a row grows by what its parts may begin with.
fn grow_row(rules: &[Rule], firsts: &mut Vec<First>, row: usize) {
    let Some(rule) = rules.get(row) else {
        return;
    };
    let found = first_of_rule(firsts, *rule);
    if let Some(known) = firsts.get_mut(row) {
        *known = either(*known, found);
    }
}

// One round over all rows, the last first.
fn grow(rules: &[Rule], firsts: &mut Vec<First>) {
    for row in (0..rules.len()).rev() {
        grow_row(rules, firsts, row);
    }
}

// Whether what is known of the rows follows from what is known of them.
fn are_firsts(rules: &[Rule], firsts: &[First]) -> bool
    ensures { result ≡ true ↔ AreFirsts rules.now firsts.now }
{
    let mut row = 0;
    while row < firsts.len() && is_covered(rules, firsts, row) {
        row += 1;
    }
    row == firsts.len()
}

// What nothing is known of yet.
fn nothing_yet(alloc: Global, rules: &[Rule]) -> Result<Vec<First>, AllocError> {
    let mut firsts = Vec::new(alloc);
    for _ in rules {
        firsts.push(First {
            kinds: 0,
            may_be_empty: false,
        })?;
    }
    Ok(firsts)
}

// With which tokens the rows of the table may begin.
pub fn firsts(alloc: Global, rules: &[Rule]) -> Result<Vec<First>, AllocError>
    ensures { IfOk result (λ firsts. AreFirsts rules.now firsts.items) }
{
    let mut firsts = nothing_yet(alloc, rules)?;
    for _ in 0..ROUNDS {
        grow(rules, &mut firsts);
        if are_firsts(rules, &firsts) {
            return Ok(firsts);
        }
    }
    Ok(Vec::new(alloc))
}

fn has_kind(first: First, kind: u32) -> bool
    ensures { result ≡ false ↔ LacksKind first kind }
{
    kind >= 128 || first.kinds >> kind & 1 == 1
}

// Whether the row is one that takes something, and the token none with which it begins.
pub fn cannot_begin(firsts: &[First], tokens: &Tokens, row: u64, token: u32) -> bool
    ensures { result ≡ true ↔ CannotBegin tokens.now firsts.now row token }
{
    if token >= tokens.len() {
        return false;
    }
    let first = first_at(firsts, row);
    !first.may_be_empty && !has_kind(first, tokens.kind(token))
}
