//! Places in texts, and bytes that are no text.

use crate::{Place, TextFault, chars};
use std::test::Fail;

// A text of the bytes, the offset asked for, and the line and column there.
#[test]
fn places(rt: HostRuntime) -> Result<(), Fail> {
    for (bytes, offset, line, column) in [
        (&b""[..], 0, 1, 1),
        (&b"ab"[..], 2, 1, 3),
        (&b"a\nb"[..], 1, 1, 2),
        (&b"a\nb"[..], 2, 2, 1),
        (&b"a\r\n\nb"[..], 4, 3, 1),
        (&b"\n\n"[..], 2, 3, 1),
        (&b"\xC3\xA9\xE2\x82\xAC\n\xF0\x9F\x99\x82x"[..], 2, 1, 3),
        (&b"\xC3\xA9\xE2\x82\xAC\n\xF0\x9F\x99\x82x"[..], 5, 2, 3),
    ] {
        assert!(rt; bytes.len() <= 1 << 24);
        let text = chars(rt.alloc(), bytes)?;
        assert!(rt; offset <= text.len());
        let place = text.place(7, offset);
        let want = Place {
            module: 7,
            offset,
            line,
            column,
        };
        assert_eq!(rt; place, want);
    }
    Ok(())
}

// Bytes that are no text, and how many characters stand in front.
#[test]
fn refusals(rt: HostRuntime) -> Result<(), Fail> {
    for (bytes, offset) in [
        (&b"\xFF"[..], 0),
        (&b"ab\x80"[..], 2),
        (&b"\xC3\xA9\xE2\x82"[..], 1),
        (&b"\xED\xA0\x80"[..], 0),
    ] {
        assert!(rt; bytes.len() <= 1 << 24);
        match chars(rt.alloc(), bytes) {
            Ok(_) => assert!(rt; false, "read"),
            Err(fault) => assert_eq!(rt; fault, TextFault::NotUtf8 { offset }),
        }
    }
    let text = chars(rt.alloc(), b"\xE2\x82\xACx")?;
    assert!(rt; text.len() == 2);
    assert_eq!(rt; text.at(0), '€');
    assert_eq!(rt; text.at(1), 'x');
    Ok(())
}
