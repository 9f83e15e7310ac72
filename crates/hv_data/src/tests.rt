//! The words of data, read and printed.
use super::*;
use hv_text::Bytes;
use std::test::Fail;

/// One word of each kind, as it is written by hand.
const LINE: &[u8] = b"7 255 0x1f 00ff a,b/ -> /d/e @3.17 end";

#[test]
fn reads_the_words_of_data(rt: HostRuntime) -> Result<(), Fail> {
    let words = split_at_byte(rt.alloc(), LINE, b' ')?;
    let (number, words) = take_number(rt.alloc(), &words)?;
    let (small, words) = take_number8(rt.alloc(), words)?;
    let (address, words) = take_address(rt.alloc(), words)?;
    let (bytes, words) = take_bytes(rt.alloc(), words)?;
    let (names, words) = take_names(rt.alloc(), words)?;
    let (name, words) = take_name(rt.alloc(), words)?;
    let (path, words) = take_path(rt.alloc(), words)?;
    let (generation, words) = take_generation(rt.alloc(), words)?;
    assert!(rt; number == 7 && small == 255 && address == 31);
    assert_eq!(rt; bytes.as_slice(), [0, 255].as_slice());
    assert_eq!(rt; name.as_slice(), b"->".as_slice());
    assert!(rt; names.len() == 2 && path.len() == 2);
    assert!(rt; matches!(behind_word(words, b"end"), Some(rest) if rest.is_empty()));
    let mut text = Bytes::from_vec(Vec::new(rt.alloc()));
    push_address(rt.alloc(), &mut text, address)?;
    push_generation(rt.alloc(), &mut text, generation)?;
    assert_eq!(rt; text.as_slice(), b"0x1f@3.17".as_slice());
    Ok(())
}

#[test]
fn prints_the_choices_that_it_reads(rt: HostRuntime) -> Result<(), Fail> {
    let line = b"Ending Free io Running2 Paused w x m1.a";
    let words = split_at_byte(rt.alloc(), line, b' ')?;
    let (stage, words) = take_stage(&words)?;
    let (next, words) = take_next_stage(words)?;
    let (kind, words) = take_address_type(words)?;
    let (state, words) = take_state(rt.alloc(), words)?;
    let (name, words) = take_state_name(words)?;
    let (direction, words) = take_direction(words)?;
    let (access, words) = take_access_kind(words)?;
    let (changes, words) = take_changes(words)?;
    assert!(rt; words.is_empty());
    let mut text = Bytes::from_vec(Vec::new(rt.alloc()));
    push_stage(&mut text, stage)?;
    push_next_stage(&mut text, next)?;
    push_address_type(&mut text, kind)?;
    push_state(rt.alloc(), &mut text, state)?;
    push_state_name(&mut text, name)?;
    push_direction(&mut text, direction)?;
    push_access_kind(&mut text, access)?;
    push_changes(rt.alloc(), &mut text, changes)?;
    assert_eq!(rt;
        text.as_slice(),
        b"EndingFreeioRunning2Pausedwxm1.a".as_slice()
    );
    Ok(())
}
