//! Phrases of small tables.

ghost use Rattle.std.specs.Prelude.{◌≡◌, ◌≤◌, ◌^◌, true, length};
ghost use Rattle.rl_phrase.specs.Answer.{IsNamed};

use crate::phrase::{PhraseFault, phrase};
use crate::table::{Form, Rule};
use crate::tree::{Part, Phrase};
use rl_tokens::Tokens;
use std::alloc::{AllocError, Global};
use std::test::Fail;

macro_rules! rules {
    ($($form:expr, $first:expr, $count:expr;)*) => {
        [$(Rule { form: $form, first: $first, count: $count }),*]
    };
}

// The terminals 0, 1, 2 are "a", "b", "c", and 3 and 4 are "(" and ")".
const TABLE: [Rule; 59] = rules![
    // 0: "(" the same ")" / "a"?
    Form::Named, 1, 1;
    Form::Choice, 2, 2;
    Form::Seq, 4, 3;
    Form::Opt, 7, 1;
    Form::Term(3), 0, 0;
    Form::Link, 0, 0;
    Form::Term(4), 0, 0;
    Form::Term(0), 0, 0;
    // 8: "a" "b"
    Form::Named, 9, 2;
    Form::Term(0), 0, 0;
    Form::Term(1), 0, 0;
    // 11: "a"* "b"
    Form::Named, 12, 2;
    Form::Star, 7, 1;
    Form::Term(1), 0, 0;
    // 14: "a"+
    Form::Named, 15, 1;
    Form::Plus, 7, 1;
    // 16: ("a" / "a" "b") "c"
    Form::Named, 17, 2;
    Form::Choice, 19, 2;
    Form::Term(2), 0, 0;
    Form::Term(0), 0, 0;
    Form::Seq, 9, 2;
    // 21: !"b" "a"
    Form::Named, 22, 2;
    Form::Not, 13, 1;
    Form::Term(0), 0, 0;
    // 24: !("a" "b" "c") "a"
    Form::Named, 25, 2;
    Form::Not, 27, 3;
    Form::Term(0), 0, 0;
    Form::Term(0), 0, 0;
    Form::Term(1), 0, 0;
    Form::Term(2), 0, 0;
    // 30: ("a"?)* "b"
    Form::Named, 31, 2;
    Form::Star, 33, 1;
    Form::Term(1), 0, 0;
    Form::Opt, 7, 1;
    // 34: "a"+, as it is
    Form::Named, 35, 1;
    Form::Link, 14, 0;
    // 36: "a"?
    Form::Named, 33, 1;
    // 37: ("a" "b" "c" / "a") "c"
    Form::Named, 38, 2;
    Form::Choice, 40, 2;
    Form::Term(2), 0, 0;
    Form::Seq, 27, 3;
    Form::Term(0), 0, 0;
    // 42: ("a"?)+
    Form::Named, 43, 1;
    Form::Plus, 33, 1;
    // 44: nested "b" / nested "c"
    Form::Named, 45, 1;
    Form::Choice, 46, 2;
    Form::Seq, 48, 2;
    Form::Seq, 50, 2;
    Form::Link, 52, 0;
    Form::Term(1), 0, 0;
    Form::Link, 52, 0;
    Form::Term(2), 0, 0;
    // 52: nested: "(" the row before ")" / "a"
    Form::Named, 53, 1;
    Form::Choice, 54, 2;
    Form::Seq, 56, 3;
    Form::Term(0), 0, 0;
    Form::Term(3), 0, 0;
    Form::Link, 44, 0;
    Form::Term(4), 0, 0;
];

fn is_named(rules: &[Rule], row: u32) -> bool
    ensures { result ≡ true → IsNamed rules.now row }
{
    match rules.get(row as usize) {
        Some(rule) => matches!(rule.form, Form::Named),
        None => false,
    }
}

// Tokens of these kinds, without texts and places.
fn tokens_of(alloc: Global, kinds: &[u32]) -> Result<Tokens, AllocError>
    requires { length kinds.now ≤ 2 ^ 25 }
{
    let mut list = Tokens::new(alloc);
    for kind in kinds {
        list.push(*kind, &[], 0)?;
    }
    Ok(list)
}

// What a named row of the table gives.
fn parse(alloc: Global, kinds: &[u32], start: u32) -> Result<Phrase, PhraseFault> {
    if kinds.len() > 1_000_000 {
        return Err(PhraseFault::OutOfMemory);
    }
    let tokens = tokens_of(alloc, kinds)?;
    let table = TABLE;
    if !is_named(&table, start) {
        return Err(PhraseFault::OutOfMemory);
    }
    phrase(alloc, &tokens, &table, start)
}

// A node as "(row from-to parts)", a token as its number.
#[cycle(show)]
fn show_phrase(alloc: Global, phrase: &Phrase, out: &mut String) -> Result<(), AllocError> {
    let head = format!(in alloc; "({} {}-{}", phrase.rule, phrase.from, phrase.to)?;
    out.push_str(head.as_str())?;
    for part in &phrase.parts {
        show_part(alloc, part, out)?;
    }
    out.push(')')
}

#[cycle(show)]
fn show_part(alloc: Global, part: &Part, out: &mut String) -> Result<(), AllocError> {
    out.push(' ')?;
    match part {
        Part::Token(token) => out.push_str(format!(in alloc; "{token}")?.as_str()),
        Part::Node(phrase) => show_phrase(alloc, phrase, out),
    }
}

fn shown(alloc: Global, answer: Result<Phrase, PhraseFault>) -> Result<String, AllocError> {
    match answer {
        Ok(phrase) => {
            let mut out = String::new(alloc);
            show_phrase(alloc, &phrase, &mut out)?;
            Ok(out)
        }
        Err(PhraseFault::Stopped { token }) => format!(in alloc; "stopped {token}"),
        Err(PhraseFault::TooDeep { token }) => format!(in alloc; "too deep {token}"),
        Err(PhraseFault::OutOfMemory) => format!(in alloc; "out of memory"),
    }
}

#[test]
fn forms(rt: HostRuntime) -> Result<(), Fail> {
    let cases: [(u32, &[u32], &str); 25] = [
        // a sequence
        (8, &[0, 1], "(8 0-2 0 1)"),
        (8, &[0, 0], "stopped 1"),
        (8, &[0], "stopped 1"),
        (8, &[], "stopped 0"),
        // repetitions
        (11, &[1], "(11 0-1 0)"),
        (11, &[0, 0, 1], "(11 0-3 0 1 2)"),
        (11, &[0, 0, 2], "stopped 2"),
        (14, &[1], "stopped 0"),
        (14, &[0], "(14 0-1 0)"),
        (14, &[0, 0, 1], "(14 0-2 0 1)"),
        // a turn that takes nothing ends a repetition
        (30, &[1], "(30 0-1 0)"),
        (30, &[0, 0, 1], "(30 0-3 0 1 2)"),
        (42, &[1], "(42 0-0)"),
        (42, &[0, 0, 1], "(42 0-2 0 1)"),
        // the first alternative that succeeds is taken, and the other is not tried again
        (16, &[0, 2], "(16 0-2 0 1)"),
        (16, &[0, 1, 2], "stopped 1"),
        // what an alternative tried counts, whatever comes after it
        (37, &[0, 1, 2, 2], "(37 0-4 0 1 2 3)"),
        (37, &[0, 2], "(37 0-2 0 1)"),
        (37, &[0, 1, 0], "stopped 2"),
        // a negation takes nothing, and what it tried counts
        (21, &[0], "(21 0-1 0)"),
        (21, &[1], "stopped 0"),
        (24, &[0, 1, 0], "(24 0-1 0)"),
        (24, &[1], "stopped 0"),
        // a node alone is that node, a token alone is not, and nothing is a node without parts
        (34, &[0], "(14 0-1 0)"),
        (36, &[], "(36 0-0)"),
    ];
    for (start, kinds, wanted) in cases {
        let answer = shown(rt.alloc(), parse(rt.alloc(), kinds, start))?;
        assert_eq!(rt; answer.as_str(), wanted, "row {start}");
    }
    Ok(())
}

// As many "(", then "a", then as many ")", with a "c" after "a" and after each ")" for the row 44.
fn nested(alloc: Global, opened: usize, closed: usize, start: u32) -> Result<Vec<u32>, AllocError> {
    let mut kinds = Vec::new(alloc);
    for _ in 0..opened {
        kinds.push(3)?;
    }
    kinds.push(0)?;
    if start == 44 {
        kinds.push(2)?;
    }
    for _ in 0..closed {
        kinds.push(4)?;
        if start == 44 {
            kinds.push(2)?;
        }
    }
    Ok(kinds)
}

fn nested_answer(
    alloc: Global,
    opened: usize,
    closed: usize,
    start: u32,
) -> Result<String, AllocError> {
    let kinds = nested(alloc, opened, closed, start)?;
    let answer = parse(alloc, &kinds, start);
    match answer {
        Ok(phrase) => format!(in alloc; "{}", phrase.to),
        fault => shown(alloc, fault),
    }
}

// A tree as high as it may be, one that is one higher, and some that are far too high.
#[test]
fn depths(rt: HostRuntime) -> Result<(), Fail> {
    let cases = [
        (0, 2, 2, "5"),
        (0, 999, 999, "1999"),
        (0, 1_000, 1_000, "too deep 1000"),
        (0, 100_000, 100_000, "too deep 1000"),
        // the brackets that are never closed fail, and then nothing is taken
        (0, 100_000, 99_999, "0"),
        // each bracket is tried twice, and what is inside it is worked out once
        (44, 2, 2, "8"),
        (44, 499, 499, "1499"),
        (44, 500, 500, "too deep 500"),
        (44, 100_000, 100_000, "too deep 500"),
        (44, 100_000, 99_999, "stopped 300000"),
    ];
    for (start, opened, closed, wanted) in cases {
        let answer = nested_answer(rt.alloc(), opened, closed, start)?;
        assert_eq!(rt; answer.as_str(), wanted, "row {start}, {opened} brackets");
    }
    Ok(())
}
