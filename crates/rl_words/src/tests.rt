//! What lists of words ask for.

use crate::asked_of;
use std::alloc::Global;
use std::test::Fail;

// Words, and the root, the name and the units that they ask for.
type Case = (
    &'static [&'static str],
    Option<(&'static str, &'static str, u64)>,
);

const DEFAULT: u64 = 50_000_000;

const CASES: [Case; 62] = [
    (&[], None),
    (&["run"], None),
    (&["run", "M"], Some(("", "M", DEFAULT))),
    (&["run", "a::b"], Some(("", "a::b", DEFAULT))),
    (&["run", "_a1::B_2::c"], Some(("", "_a1::B_2::c", DEFAULT))),
    (&["run", ""], None),
    (&["run", "1a"], None),
    (&["run", "a:b"], None),
    (&["run", "a::"], None),
    (&["run", "::a"], None),
    (&["run", "a:::b"], None),
    (&["run", "a.b"], None),
    (&["run", "é"], None),
    (&["check", "M"], None),
    (&["Run", "M"], None),
    (&["", "M"], None),
    (&["M", "run"], None),
    (&["run", "M", "x"], None),
    (&["run", "M", ""], None),
    (&["run", "M", "--steps", "5"], Some(("", "M", 5))),
    (&["run", "--steps", "5", "M"], Some(("", "M", 5))),
    (&["--steps=5", "run", "M"], Some(("", "M", 5))),
    (&["--steps", "0", "run", "M"], Some(("", "M", 0))),
    (&["run", "M", "--steps=007"], Some(("", "M", 7))),
    (&["run", "--root", "d", "M"], Some(("d", "M", DEFAULT))),
    (
        &["run", "--root=a/b", "M", "--steps", "1"],
        Some(("a/b", "M", 1)),
    ),
    (&["run", "M", "--root=a=b"], Some(("a=b", "M", DEFAULT))),
    (&["run", "M", "--root", "run"], Some(("run", "M", DEFAULT))),
    (&["run", "M", "--steps"], None),
    (&["run", "M", "--root"], None),
    (&["--root", "run", "M"], None),
    (&["run", "M", "--steps", "5", "--steps", "5"], None),
    (&["run", "M", "--steps=5", "--steps", "6"], None),
    (&["run", "M", "--root", "a", "--root=a"], None),
    (
        &["run", "M", "--steps", "18446744073709551615"],
        Some(("", "M", 18446744073709551615)),
    ),
    (&["run", "M", "--steps", "18446744073709551616"], None),
    (&["run", "M", "--steps", "0x1"], None),
    (&["run", "M", "--steps", "+1"], None),
    (&["run", "M", "--steps", "-1"], None),
    (&["run", "M", "--steps", "1 "], None),
    (&["run", "M", "--steps", ""], None),
    (&["run", "M", "--steps="], None),
    (&["run", "M", "--root="], None),
    (&["run", "M", "--root", ""], None),
    (&["run", "M", "--root", "-"], None),
    (&["run", "M", "--root=-x"], None),
    (&["run", "M", "--root", "-x"], None),
    (&["run", "M", "--root", "--"], None),
    (&["run", "M", "--root", "--steps", "5"], None),
    (&["--", "run", "M"], Some(("", "M", DEFAULT))),
    (&["run", "--", "M"], Some(("", "M", DEFAULT))),
    (&["run", "M", "--"], Some(("", "M", DEFAULT))),
    (&["--steps", "5", "--", "run", "M"], Some(("", "M", 5))),
    (&["run", "--", "--root", "M"], None),
    (&["run", "M", "--", "--"], None),
    (&["run", "M", "-x"], None),
    (&["run", "-"], None),
    (&["-", "M"], None),
    (&["run", "M", "--other"], None),
    (&["run", "M", "--other=1"], None),
    (&["run", "M", "--roo", "d"], None),
    (&["run", "M", "--help"], None),
];

fn texts(alloc: Global, words: &[&str]) -> Result<Vec<String>, Fail> {
    let mut texts = Vec::new(alloc);
    for word in words {
        texts.push(String::from_str(alloc, word)?)?;
    }
    Ok(texts)
}

#[test]
fn words_ask_for_a_run_or_for_nothing(rt: HostRuntime) -> Result<(), Fail> {
    let alloc = rt.alloc();
    for (words, expected) in CASES.as_slice() {
        let texts = texts(alloc, words)?;
        let asked = asked_of(alloc, texts.as_slice())?;
        let seen = asked.map(|it| (it.root, it.name, it.units));
        assert!(rt; seen == *expected, "{words:?}");
    }
    Ok(())
}
