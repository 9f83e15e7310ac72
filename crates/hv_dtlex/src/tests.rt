//! Tokens worked out by hand.
use super::*;
use std::test::Fail;

fn shown(text: &[u8], at: usize, mode: Mode) -> (u8, usize, usize) {
    if at > text.len() {
        return (3, 0, 0);
    }
    match next_token(text, at, mode) {
        Ok(Some(token)) => (0, token.start, token.end),
        Ok(None) => (1, 0, 0),
        Err(bad) => (2, bad.0, 0),
    }
}

#[test]
fn finds_tokens_and_offsets(rt: HostRuntime) {
    let long = b"a123456789b123456789c123456789d:";
    let longer = b"a123456789b123456789c123456789de:";
    let rows: [(&[u8], usize, Mode, (u8, usize, usize)); 32] = [
        (b"/dts-v1/;", 0, Mode::Name, (0, 0, 8)),
        (b" / {", 0, Mode::Name, (0, 1, 2)),
        (b"/* a */ // b\n}", 0, Mode::Name, (0, 13, 14)),
        (b"uart: a", 0, Mode::Name, (0, 0, 5)),
        (b"uart : a", 0, Mode::Name, (0, 0, 4)),
        (b"a@1,b#c?", 0, Mode::Name, (0, 0, 8)),
        (b"1a: b", 0, Mode::Name, (0, 0, 2)),
        (long, 0, Mode::Name, (0, 0, 32)),
        (longer, 0, Mode::Name, (0, 0, 32)),
        (b"// a\r b", 0, Mode::Name, (1, 0, 0)),
        (b"a /* b", 1, Mode::Name, (2, 2, 0)),
        (b"/*/", 0, Mode::Name, (2, 0, 0)),
        (b" \t\r\n\x0b\x0c", 0, Mode::Value, (1, 0, 0)),
        (b"<", 0, Mode::Value, (0, 0, 1)),
        (b"{", 0, Mode::Value, (2, 0, 0)),
        (b"0x1F,", 0, Mode::Value, (0, 0, 4)),
        (b"0X1", 0, Mode::Value, (2, 0, 0)),
        (b"08", 0, Mode::Value, (2, 0, 0)),
        (b"12_3", 0, Mode::Value, (0, 0, 2)),
        (b"12_3", 2, Mode::Value, (2, 2, 0)),
        (b"4294967295", 0, Mode::Value, (0, 0, 10)),
        (b"4294967296", 0, Mode::Value, (2, 0, 0)),
        (b"0x", 0, Mode::Value, (2, 0, 0)),
        (b"\"a\\\"b\" ", 0, Mode::Value, (0, 0, 6)),
        (b" \"\\377\"", 0, Mode::Value, (0, 1, 7)),
        (b" \"\\400\"", 0, Mode::Value, (2, 1, 0)),
        (b"\"\\xg\"", 0, Mode::Value, (2, 0, 0)),
        (b"; \"a", 1, Mode::Value, (2, 2, 0)),
        (b"&cpu0 &1", 0, Mode::Value, (0, 0, 5)),
        (b"&cpu0 &1", 5, Mode::Value, (2, 6, 0)),
        (b"0A b]", 0, Mode::Hex, (0, 0, 2)),
        (b"0A b]", 2, Mode::Hex, (2, 3, 0)),
    ];
    for (text, at, mode, want) in rows {
        assert!(rt; shown(text, at, mode) == want, "at {}", text.escape_ascii());
    }
}

#[test]
fn gives_the_values(rt: HostRuntime) -> Result<(), Fail> {
    assert!(rt; number_value(b"0x1f") == Some(31));
    assert!(rt; number_value(b"017") == Some(15));
    assert!(rt; number_value(b"0") == Some(0));
    let bytes = string_value(rt.alloc(), b"\\a\\x4a\\1012\\q\"")?;
    assert!(rt; bytes.as_slice() == b"\x07JA2q".as_slice());
    Ok(())
}
