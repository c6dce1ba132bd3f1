//! Tests of classes, integers, locations and fragments.

use crate::classes::class;
use crate::fragments::fragment;
use crate::integers::integer;
use crate::locations::location;
use rl_base::Place;
use rl_syntax::Piece;
use std::alloc::{AllocError, Global};
use std::test::Fail;

#[test]
fn classes_are_read(rt: HostRuntime) -> Result<(), Fail> {
    let rows: [(&str, &[(char, char)]); 6] = [
        ("[]", &[]),
        ("[a]", &[('a', 'a')]),
        ("[a-z_ 0 - 9]", &[('a', 'z'), ('_', '_'), ('0', '9')]),
        (
            "[\\ \\n\\]\\[\\-[]",
            &[
                (' ', ' '),
                ('\n', '\n'),
                (']', ']'),
                ('[', '['),
                ('-', '-'),
                ('[', '['),
            ],
        ),
        ("[\\u0041-\\u20AC z]", &[('A', '\u{20AC}'), ('z', 'z')]),
        ("[z-a\\\\]", &[('z', 'a'), ('\\', '\\')]),
    ];
    for (token, want) in rows {
        let found = class(rt.alloc(), token)?;
        assert_eq!(rt; found.as_slice(), want);
    }
    Ok(())
}

#[test]
fn integers_are_read(rt: HostRuntime) {
    assert_eq!(rt; integer("0"), 0);
    assert_eq!(rt; integer("1907"), 1907);
    assert_eq!(rt;
        integer("170141183460469231731687303715884105727"),
        i128::MAX
    );
}

#[test]
fn locations_are_read(rt: HostRuntime) -> Result<(), Fail> {
    let rows = [
        ("|cwd:///|", Some("")),
        ("|cwd:///a/\u{E4} b|", Some("a/\u{E4} b")),
        ("|unknown:///|", None),
    ];
    for (token, want) in rows {
        let path = location(rt.alloc(), token)?;
        assert_eq!(rt; path.is_some(), want.is_some());
        assert_eq!(rt;
            path.as_ref().map_or("", |path| path.as_str()),
            want.unwrap_or("")
        );
    }
    Ok(())
}

// The pieces, a text between bars and a hole between angles.
fn shown(alloc: Global, token: &str) -> Result<String, AllocError> {
    let place = Place {
        module: 0,
        offset: 0,
        line: 1,
        column: 1,
    };
    let mut text = String::new(alloc);
    for piece in fragment(alloc, place, token)?.as_slice() {
        match piece {
            Piece::Text(characters) => {
                text.push('|')?;
                text.push_str(characters.as_str())?;
                text.push('|')?;
            }
            Piece::Hole { sort, variable } => {
                text.push('<')?;
                text.push_str(sort.as_str())?;
                text.push(' ')?;
                text.push_str(variable.name.as_str())?;
                text.push('>')?;
            }
        }
    }
    Ok(text)
}

#[test]
fn fragments_are_read(rt: HostRuntime) -> Result<(), Fail> {
    let rows = [
        ("``", ""),
        ("`a b`", "|a b|"),
        ("`<E a>`", "<E a>"),
        (
            "`<E a> + < E2  _b ><X y>.\n`",
            "<E a>| + |<E2 _b><X y>|.\n|",
        ),
        ("`\\`\\\\\\<E a\\>>`", "|`\\<E a>>|"),
    ];
    for (token, want) in rows {
        let text = shown(rt.alloc(), token)?;
        assert_eq!(rt; text.as_str(), want);
    }
    Ok(())
}
