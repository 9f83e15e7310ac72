//! The words of replies, printed and read.
use super::*;
use hv_data::{WordRefusal, split_at_byte};
use hv_name::StepName;
use hv_text::Bytes;
use std::alloc::Global;
use std::test::Fail;

/// Replies of different kinds, as they are written by hand.
const REPLIES: [(StepName, &[u8]); 10] = [
    (StepName::Bad, b"refused BadWords 3"),
    (StepName::Ls, b"ok a,b/,-"),
    (StepName::Cat, b"ok 68690a"),
    (StepName::Name, b"ok 0 17"),
    (StepName::Drop, b"refused NotLive"),
    (StepName::Tick, b"ok m1.1"),
    (StepName::Leave, b"Paused/wfi"),
    (StepName::Fetch, b"0xffffffff trap 2"),
    (StepName::Balance, b"move 3 0 1"),
    (StepName::Pin, b"100 woke"),
];

/// Texts that are no reply of the step.
const OTHERS: [(StepName, &[u8]); 4] = [
    (StepName::Ls, b"ok a,"),
    (StepName::Drop, b"refused Live"),
    (StepName::Fetch, b"0x093 done"),
    (StepName::Pin, b"102 kept"),
];

/// Whether a reply is printed as this text.
fn is_printed_as(alloc: Global, reply: &Reply, text: &[u8]) -> Result<bool, Fail> {
    let mut printed = Bytes::from_vec(Vec::new(alloc));
    print_reply(alloc, &mut printed, reply)?;
    Ok(printed.as_slice() == text)
}

/// Whether a text is read as a reply that is printed as this text.
fn is_read_back(alloc: Global, name: StepName, text: &[u8]) -> Result<bool, Fail> {
    let words = split_at_byte(alloc, text, b' ')?;
    match read_reply(alloc, name, &words) {
        Ok(reply) => is_printed_as(alloc, &reply, text),
        Err(_) => Ok(false),
    }
}

#[test]
fn reads_what_it_prints(rt: HostRuntime) -> Result<(), Fail> {
    for (name, text) in REPLIES {
        assert!(rt; is_read_back(rt.alloc(), name, text)?, "text {text:?}");
    }
    Ok(())
}

#[test]
fn refuses_other_words(rt: HostRuntime) -> Result<(), Fail> {
    for (name, text) in OTHERS {
        let words = split_at_byte(rt.alloc(), text, b' ')?;
        assert!(rt;
            matches!(
                read_reply(rt.alloc(), name, &words),
                Err(WordRefusal::BadWord)
            ),
            "text {text:?}"
        );
    }
    replies_are_unambiguous();
    replies_have_no_space();
    Ok(())
}
