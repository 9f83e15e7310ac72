//! Lists printed and read.
use super::*;
use hv_data::WordRefusal;
use hv_text::Bytes;
use std::alloc::Global;
use std::test::Fail;

const GUESTS: &[&[u8]] = &[b"-", b"a,b:3:Made,-:7:Ending"];

const NO_GUESTS: &[&[u8]] = &[b"g0:0:Free", b"g0:0:Made,-", b"g:0:0:Made"];

const WINDOWS: &[&[u8]] = &[b"-", b"0:0:memory:0x0:0x1:0x0,3:0:io:0x10000000:0x100:0x40"];

const NO_WINDOWS: &[&[u8]] = &[
    b"0:0:memory:0x0:0x1",
    b"0:0:memory:0x00:0x1:0x0",
    b"0:0:memory:0x0:0x1:0x0,",
];

/// Whether a word is read as guests that are printed as this word.
fn are_guests(alloc: Global, word: &[u8]) -> Result<bool, Fail> {
    match guests_word(alloc, word) {
        Ok(guests) => {
            let mut printed = Bytes::from_vec(Vec::new(alloc));
            print_guests(alloc, &mut printed, &guests)?;
            Ok(printed.as_slice() == word)
        }
        Err(_) => Ok(false),
    }
}

/// Whether a word is read as windows that are printed as this word.
fn are_windows(alloc: Global, word: &[u8]) -> Result<bool, Fail> {
    match windows_word(alloc, word) {
        Ok(windows) => {
            let mut printed = Bytes::from_vec(Vec::new(alloc));
            print_windows(alloc, &mut printed, &windows)?;
            Ok(printed.as_slice() == word)
        }
        Err(_) => Ok(false),
    }
}

#[test]
fn reads_guests_as_they_are_printed(rt: HostRuntime) -> Result<(), Fail> {
    for word in GUESTS {
        assert!(rt; are_guests(rt.alloc(), word)?, "word {word:?}");
    }
    for word in NO_GUESTS {
        assert!(rt; matches!(guests_word(rt.alloc(), word), Err(WordRefusal::BadWord)));
    }
    Ok(())
}

#[test]
fn reads_windows_as_they_are_printed(rt: HostRuntime) -> Result<(), Fail> {
    for word in WINDOWS {
        assert!(rt; are_windows(rt.alloc(), word)?, "word {word:?}");
    }
    for word in NO_WINDOWS {
        assert!(rt; matches!(windows_word(rt.alloc(), word), Err(WordRefusal::BadWord)));
    }
    lists_are_unambiguous();
    lists_have_no_space();
    Ok(())
}
