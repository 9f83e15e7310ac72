//! Causes and limits by their words.
use super::*;
use std::test::Fail;

#[test]
fn finds_a_cause_by_its_name(rt: HostRuntime) -> Result<(), Fail> {
    assert_eq!(rt; Cause::SourceUsed.name(), "SourceUsed");
    assert!(rt; matches!(Cause::named(b"AliasTarget"), Some(Cause::AliasTarget)));
    assert!(rt; matches!(Cause::named(b"missing"), None));
    assert_eq!(rt; LimitName::Guests.name(), "guests");
    Ok(())
}
