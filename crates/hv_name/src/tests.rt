//! Names of steps and their words.
use super::*;
use hv_text::Bytes;
use std::test::Fail;

/// Words that name a step.
const WORDS: [&[u8]; 3] = [b"bad", b"cat", b"devreset"];

#[test]
fn finds_each_name_by_its_word(rt: HostRuntime) -> Result<(), Fail> {
    for word in WORDS {
        let Some(name) = find_name(word) else {
            assert!(rt; false, "word {word:?}");
            continue;
        };
        let mut text = Bytes::from_vec(Vec::new(rt.alloc()));
        push_name(&mut text, name)?;
        assert_eq!(rt; text.as_slice(), word);
    }
    assert!(rt; matches!(find_name(b"Cat"), None));
    names_are_unambiguous();
    Ok(())
}
