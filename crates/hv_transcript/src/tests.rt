//! A transcript at the start.
use super::*;
use std::test::Fail;

#[test]
fn shows_nothing_at_the_start(rt: HostRuntime) -> Result<(), Fail> {
    let transcript = Transcript::new(rt.alloc());
    assert!(rt; transcript.text().is_empty());
    assert!(rt; transcript.into_text().is_empty());
    Ok(())
}
