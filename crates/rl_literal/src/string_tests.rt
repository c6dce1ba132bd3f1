//! Tests of strings.

use crate::strings::string;
use std::test::Fail;

#[test]
fn escapes_are_read(rt: HostRuntime) -> Result<(), Fail> {
    let rows: [(&str, &str); 7] = [
        ("\"\"", ""),
        ("\"hi\"", "hi"),
        ("\"\\\"\\'\\\\\\<\\>\"", "\"'\\<>"),
        ("\"a\\n\\t\\r\\b\\fz\"", "a\n\t\r\u{8}\u{C}z"),
        ("\"\\u0041\\u20AC\\uFfFd1\"", "A\u{20AC}\u{FFFD}1"),
        (">b \u{E4}<", "b \u{E4}"),
        (">c>\"", "c>"),
    ];
    for (token, want) in rows {
        let text = string(rt.alloc(), token)?;
        assert_eq!(rt; text.as_str(), want);
    }
    Ok(())
}
