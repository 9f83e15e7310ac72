//! Numbers, lines and paths from the worked examples of their forms.
use super::*;
use std::test::Fail;

#[test]
fn numbers_both_ways(rt: HostRuntime) -> Result<(), Fail> {
    let cases: [(&[u8], Result<u64, NumberRefusal>); 8] = [
        (b"007", Ok(7)),
        (b"0xfF", Ok(255)),
        (b"18446744073709551615", Ok(u64::MAX)),
        (b"18446744073709551616", Err(NumberRefusal::TooLarge)),
        (b"", Err(NumberRefusal::NotANumber(0))),
        (b"0x", Err(NumberRefusal::NotANumber(2))),
        (b"12a", Err(NumberRefusal::NotANumber(2))),
        (b"0X1", Err(NumberRefusal::NotANumber(1))),
    ];
    for (text, number) in cases {
        assert_eq!(rt; read_number(text), number);
    }
    assert_eq!(rt; digits_len(b"12a", 10), 2);
    assert_eq!(rt; digits_value(b"fF", 16), Some(255));
    let mut text = Bytes::from_vec(Vec::new(rt.alloc()));
    assert!(rt; text.is_empty());
    push_decimal(rt.alloc(), &mut text, 90)?;
    text.append(b" ")?;
    push_hex(rt.alloc(), &mut text, 0xbeef, 6)?;
    assert_eq!(rt; text.as_slice(), b"90 00beef".as_slice());
    assert_eq!(rt; text.len(), 9);
    Ok(())
}

#[test]
fn lines_with_and_without_returns(rt: HostRuntime) {
    let text = b"a\r\n\nb\r\r\nc\r".as_slice();
    let cases = [
        (0, Some((0, 1, 3))),
        (3, Some((3, 3, 4))),
        (4, Some((4, 6, 8))),
        (8, Some((8, 10, 10))),
        (10, None),
    ];
    for (from, line) in cases {
        assert!(rt; from <= text.len());
        assert_eq!(rt; line_at(text, from), line, "from {from}");
    }
}

#[test]
fn names_and_other_texts(rt: HostRuntime) {
    let cases: [(&[u8], bool); 8] = [
        (b"a", true),
        (b"-", true),
        (b"...", true),
        (b"boot.xscript", true),
        (b".", false),
        (b"..", false),
        (b"", false),
        (b"a/b", false),
    ];
    for (text, name) in cases {
        assert_eq!(rt; is_name(text), name);
    }
}

#[test]
fn paths_both_ways(rt: HostRuntime) -> Result<(), Fail> {
    let alloc = rt.alloc();
    assert_eq!(rt; Path::root(alloc).text(alloc)?.as_slice(), b"/".as_slice());
    for text in [b"/".as_slice(), b"/boot.xscript", b"/a/b-c/_d"] {
        let Ok(path) = Path::read(alloc, text) else {
            assert!(rt; false);
            return Ok(());
        };
        assert_eq!(rt; path.text(alloc)?.as_slice(), text);
        assert_eq!(rt; path.at(path.len()), None);
        assert!(rt; path.clone()? == path);
        assert!(rt; path.is_prefix_of(&path));
        let mut parent = path.clone()?;
        if let Some(name) = parent.pop() {
            assert!(rt; parent != path);
            parent.push(name)?;
        }
        assert!(rt; parent == path);
    }
    Ok(())
}

#[test]
fn strings_in_their_order(rt: HostRuntime) -> Result<(), Fail> {
    assert_eq!(rt; Strings::from_vec(Vec::new(rt.alloc())).len(), 0);
    let mut strings = Strings::new(rt.alloc())?;
    strings.push(Bytes::from_vec(b"one".to_vec(rt.alloc())?))?;
    assert_eq!(rt; strings.len(), 1);
    assert_eq!(rt; strings.at(0), Some(b"one".as_slice()));
    Ok(())
}

#[test]
fn texts_cut_in_two(rt: HostRuntime) {
    let text = b"file /a 3".as_slice();
    assert_eq!(rt; strip_front(text, b"file "), Some(b"/a 3".as_slice()));
    assert_eq!(rt; strip_end(text, b" 4"), None);
    assert_eq!(rt; front_len(text, b'/'), 5);
    assert_eq!(rt; word_at(text, b'4').is_some(), false);
    assert_eq!(rt; hex_pair(0xa7), *b"a7");
}
