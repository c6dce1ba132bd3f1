//! Tokens of small texts.

use crate::terminal::*;
use crate::{TokenFault, tokens};
use rl_base::chars;
use std::alloc::{AllocError, Global};
use std::test::Fail;

fn letter(kind: u32) -> char {
    match kind {
        END => 'E',
        UPPER_ID => 'U',
        LOWER_ID => 'L',
        INTEGER => 'I',
        STRING => 'S',
        STRING_HEAD => 'H',
        STRING_MIDDLE => 'M',
        STRING_TAIL => 'T',
        LOCATION => 'P',
        FRAGMENT => 'B',
        CHARACTER_CLASS => 'C',
        _ => '.',
    }
}

fn fault_shown(alloc: Global, fault: TokenFault) -> Result<String, AllocError> {
    match fault {
        TokenFault::BadCharacter { offset } => format!(in alloc; "bad character {offset}"),
        TokenFault::OpenString { offset } => format!(in alloc; "open string {offset}"),
        TokenFault::OpenComment { offset } => format!(in alloc; "open comment {offset}"),
        TokenFault::WideNumber { offset } => format!(in alloc; "wide number {offset}"),
        TokenFault::BadEscape { offset } => format!(in alloc; "bad escape {offset}"),
        TokenFault::OutOfMemory => format!(in alloc; "out of memory"),
    }
}

// The tokens of the text, each a letter for its kind and its text; or the fault.
fn shown(alloc: Global, text: &str) -> Result<String, Fail> {
    let bytes = text.as_bytes();
    if bytes.len() > 1 << 24 {
        return Err(Fail::from("long"));
    }
    let text = chars(alloc, bytes)?;
    let list = match tokens(alloc, &text) {
        Ok(list) => list,
        Err(fault) => return Ok(fault_shown(alloc, fault)?),
    };
    let mut out = String::new(alloc);
    for i in 0..list.len() {
        out.push(letter(list.kind(i)))?;
        out.push(':')?;
        out.push_str(list.text(i))?;
        out.push(' ')?;
    }
    Ok(out)
}

#[test]
fn token_texts(rt: HostRuntime) -> Result<(), Fail> {
    for (name, text, want) in [
        ("nothing", "", "E: "),
        (
            "names",
            "a _b A1 left Module",
            "L:a L:_b U:A1 L:left U:Module E: ",
        ),
        ("a lone underscore", "_ __", ".:_ L:__ E: "),
        (
            "one word with hyphens",
            "top-down-break",
            ".:top-down-break E: ",
        ),
        ("three tokens", "top - down", "L:top .:- L:down E: "),
        (
            "words with hyphens first",
            "top-downx bottom-up-breaker",
            ".:top-down L:x .:bottom-up-break L:er E: ",
        ),
        (
            "reserved words",
            "syntax o it non-assoc",
            ".:syntax .:o .:it .:non-assoc E: ",
        ),
        ("integers", "0 12 007", "I:0 I:12 I:0 I:0 I:7 E: "),
        (
            "the greatest integer",
            "170141183460469231731687303715884105727",
            "I:170141183460469231731687303715884105727 E: ",
        ),
        (
            "one more",
            "x 170141183460469231731687303715884105728",
            "wide number 2",
        ),
        (
            "longest symbols",
            "a<==>b==>c!:=d",
            "L:a .:<==> L:b .:==> L:c .:!:= L:d E: ",
        ),
        (
            "grammar symbols elsewhere",
            "a>>b<<c",
            "L:a .:> .:> L:b .:< .:< L:c E: ",
        ),
        ("a mark at the start", "\u{FEFF}a", "L:a E: "),
        ("a mark elsewhere", "a\u{FEFF}", "bad character 1"),
        ("comments", "a//b\nc/*d*/e/**/f", "L:a L:c L:e L:f E: "),
        (
            "a comment that does not close itself",
            "a /*/",
            "open comment 2",
        ),
        ("a comment to the end", "a //", "L:a E: "),
        ("a return in a line comment", "//a\rb\nc", "L:c E: "),
        (
            "strings",
            r#""" "a>b" "\"\'\\\<\>\n\t\r\b\f""#,
            r#"S:"" S:"a>b" S:"\"\'\\\<\>\n\t\r\b\f" E: "#,
        ),
        (
            "unicode escapes",
            r#""\u0041\uFFFFx""#,
            r#"S:"\u0041\uFFFFx" E: "#,
        ),
        ("a surrogate", r#""a\uD800""#, "bad escape 2"),
        ("the last surrogate", r#""a\udfff""#, "bad escape 2"),
        (
            "behind the surrogates",
            r#""\uE000\uD7FF""#,
            r#"S:"\uE000\uD7FF" E: "#,
        ),
        ("too few digits", r#""\u00g0""#, "bad escape 1"),
        ("an unknown escape", r#""ab\q""#, "bad escape 3"),
        ("an open string", "x \"ab\n", "open string 2"),
        ("an open string with a bad escape", "\"\\q", "open string 0"),
        ("an interpolation", r#""a<x>b""#, r#"H:"a< L:x T:>b" E: "#),
        (
            "two interpolations",
            r#""<x><y>""#,
            r#"H:"< L:x M:>< L:y T:>" E: "#,
        ),
        (
            "nested brackets",
            r#""<f([<1 + 2>])>""#,
            r#"H:"< L:f .:( .:[ .:< I:1 .:+ I:2 .:> .:] .:) T:>" E: "#,
        ),
        (
            "angles without brackets",
            r#""<<1, 2>>""#,
            r#"H:"< .:< I:1 .:, I:2 .:> T:>" E: "#,
        ),
        (
            "a comparison without brackets",
            r#""<a <= b> >""#,
            r#"H:"< L:a .:< .:= L:b .:> T:>" E: "#,
        ),
        (
            "a comparison in brackets",
            r#""<(a <= b)>""#,
            r#"H:"< .:( L:a .:<= L:b .:) T:>" E: "#,
        ),
        (
            "greater in brackets",
            r#""<(a > b)>""#,
            r#"H:"< .:( L:a .:> L:b .:) T:>" E: "#,
        ),
        (
            "a closer where nothing is open",
            r#""<)>""#,
            r#"H:"< .:) T:>" E: "#,
        ),
        (
            "arrows end nothing",
            r#""<a==>b=>c>""#,
            r#"H:"< L:a .:==> L:b .:=> L:c T:>" E: "#,
        ),
        (
            "strings inside",
            r#""a<f("b<g("c")>d")>e""#,
            r#"H:"a< L:f .:( H:"b< L:g .:( S:"c" .:) T:>d" .:) T:>e" E: "#,
        ),
        ("an open interpolation", "a \"b<c", "open string 2"),
        ("an open middle piece", "\"<a>b\n c\"", "open string 3"),
        (
            "locations",
            "|cwd:///| |cwd:///a/b| |unknown:///|",
            "P:|cwd:///| P:|cwd:///a/b| P:|unknown:///| E: ",
        ),
        (
            "bars",
            "a|b||c|cwd:///d",
            "L:a .:| L:b .:|| L:c .:| L:cwd .:: E: ",
        ),
        (
            "an unknown location with a path",
            "|unknown:///x|",
            ".:| L:unknown .:: E: ",
        ),
        (
            "a fragment",
            "`a\n> \\` \\\\ \\< <A b> < B  c >`",
            "B:`a\n> \\` \\\\ \\< <A b> < B  c >` E: ",
        ),
        ("a hole with a reserved word", "`<A if>`", "bad escape 1"),
        ("a hole without a sort", "`<a b>`", "bad escape 1"),
        ("a hole without a blank", "`<Ab>`", "bad escape 1"),
        ("a bad escape in a fragment", "`a\\n`", "bad escape 2"),
        ("an open fragment", "x `a\\n", "open string 2"),
        (
            "a class",
            "syntax [a-z\\ \\-\\] [ \\n];[a]",
            ".:syntax C:[a-z\\ \\-\\] [ \\n] .:; .:[ L:a .:] E: ",
        ),
        (
            "a class with blanks",
            "lexical [ a - z b ]",
            ".:lexical C:[ a - z b ] E: ",
        ),
        ("a dash in front", "layout [-a]", "bad escape 8"),
        ("a dash at the end", "layout [a-]", "bad escape 9"),
        ("two dashes", "layout [a--b]", "bad escape 9"),
        ("a dash behind a range", "layout [a-b-c]", "bad escape 11"),
        ("a bad escape in a class", "keyword [a\\q]", "bad escape 10"),
        ("an open class", "keyword [a-", "open string 8"),
        (
            "grammar symbols",
            "syntax A >> B !<< \\ ; a >> b",
            ".:syntax U:A .:>> U:B .:!<< .:\\ .:; L:a .:> .:> L:b E: ",
        ),
        ("a backslash elsewhere", "a \\", "bad character 2"),
        ("a bad character", "a $ b", "bad character 2"),
        (
            "a bad character in front of an open comment",
            "$ /*",
            "bad character 0",
        ),
        (
            "an interpolation in front of what is met first",
            "\"<a $ b",
            "open string 0",
        ),
        (
            "the outer of two interpolations",
            "\"<a \"<b",
            "open string 0",
        ),
        (
            "a wide number behind an open string",
            "\"a\n170141183460469231731687303715884105728",
            "open string 0",
        ),
    ] {
        let got = shown(rt.alloc(), text)?;
        assert_eq!(rt; got.as_str(), want, "{name}");
    }
    Ok(())
}

// Offsets and lengths count characters.
#[test]
fn token_places(rt: HostRuntime) -> Result<(), Fail> {
    let text = chars(rt.alloc(), "é\"é\" ab ".as_bytes())?;
    let fault = tokens(rt.alloc(), &text);
    assert!(rt; matches!(fault, Err(TokenFault::BadCharacter { offset: 0 })));
    let text = chars(rt.alloc(), "\"é\" ab ".as_bytes())?;
    let list = tokens(rt.alloc(), &text)?;
    assert_eq!(rt; list.len(), 3);
    for (i, offset, length) in [(0, 0, 3), (1, 4, 2), (2, 7, 0)] {
        assert!(rt; i < list.len());
        assert_eq!(rt; list.offset(i), offset);
        assert_eq!(rt; list.length(i), length);
    }
    Ok(())
}
