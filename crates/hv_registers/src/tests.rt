//! Words per context that come and go, and places past the last register.
use super::*;
use std::test::Fail;

#[test]
fn a_context_that_comes_back_is_new(rt: HostRuntime) -> Result<(), Fail> {
    let mut words = ContextWords::new();
    resize(&mut words, 2, 7);
    set_word(&mut words, 1, 8);
    set_word(&mut words, 2, 8);
    assert!(rt; words.as_slice() == [7, 8].as_slice());
    assert_eq!(rt; word_at(words.as_slice(), 2), 0);
    resize(&mut words, 1, 7);
    resize(&mut words, 4, 9);
    assert!(rt; words.as_slice() == [7, 9, 9, 9].as_slice());
    assert_eq!(rt; index_at(0x2000, 0x80, 4, 0x2180), Some(3));
    assert_eq!(rt; index_at(0x2000, 0x80, 3, 0x2180), None);
    Ok(())
}
