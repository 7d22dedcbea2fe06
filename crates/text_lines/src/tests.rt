// Each public call on its happy path, and at the ends of a text.
use super::*;
use std::test::Fail;

#[test]
fn cuts_texts(rt: HostRuntime) -> Result<(), Fail> {
    let rows: [(&[u8], &[u8], Option<&[u8]>); 4] = [
        (b"a b c", b"a", Some(b"b c")),
        (b" ", b"", Some(b"")),
        (b"ab", b"ab", None),
        (b"", b"", None),
    ];
    for (text, part, rest) in rows {
        assert!(rt; cut_at(b' ', text) == (part, rest));
    }
    Ok(())
}

#[test]
fn cuts_lines(rt: HostRuntime) -> Result<(), Fail> {
    let rows: [(&[u8], &[u8], &[u8]); 4] = [
        (b"a\nb\n", b"a", b"b\n"),
        (b"\n\n", b"", b"\n"),
        (b"ab\n", b"ab", b""),
        (b"ab", b"ab", b""),
    ];
    for (text, line, rest) in rows {
        assert!(rt; cut_line(text) == (line, rest));
    }
    Ok(())
}

#[test]
fn passes_over_comments(rt: HostRuntime) {
    assert!(rt; is_passed_over(b"") && is_passed_over(b"#") && is_passed_over(b"# a"));
    assert!(rt; !is_passed_over(b" ") && !is_passed_over(b"a#"));
}
