//! The words of steps, printed and read.
use super::*;
use hv_data::{WordRefusal, split_at_byte};
use hv_name::StepName;
use hv_text::Bytes;
use std::alloc::Global;
use std::test::Fail;

/// Texts of steps with words of different kinds, as they are written by hand.
const STEPS: [(StepName, &[u8]); 5] = [
    (StepName::Balance, b"balance"),
    (StepName::Write, b"write /d/x 612062"),
    (StepName::Stage, b"stage g0 Ending Free"),
    (StepName::Kick, b"kick 1 g0 @-"),
    (StepName::Access, b"access 1 2 0x10000000 1 w 0x41 @0.17"),
];

/// Texts that are nearly those of steps.
const OTHERS: [&[u8]; 3] = [b"Balance", b"stage g0 Free Ending", b"kick 256"];

/// Whether a step has this name and is printed as this text.
fn is_printed_as(alloc: Global, step: &Step, name: StepName, text: &[u8]) -> Result<bool, Fail> {
    let mut printed = Bytes::from_vec(Vec::new(alloc));
    print_step(alloc, &mut printed, step)?;
    Ok(step_name(step) == name && printed.as_slice() == text)
}

/// Whether a text is read as a step of this name, behind which no word is left, that is printed as
/// this text.
fn is_read_back(alloc: Global, name: StepName, text: &[u8]) -> Result<bool, Fail> {
    let words = split_at_byte(alloc, text, b' ')?;
    match read_step(alloc, &words) {
        Ok((step, rest)) => Ok(rest.is_empty() && is_printed_as(alloc, &step, name, text)?),
        Err(_) => Ok(false),
    }
}

#[test]
fn reads_what_it_prints(rt: HostRuntime) -> Result<(), Fail> {
    for (name, text) in STEPS {
        assert!(rt; is_read_back(rt.alloc(), name, text)?, "text {text:?}");
    }
    steps_are_unambiguous();
    Ok(())
}

#[test]
fn refuses_other_words(rt: HostRuntime) -> Result<(), Fail> {
    for text in OTHERS {
        let words = split_at_byte(rt.alloc(), text, b' ')?;
        assert!(rt;
            matches!(read_step(rt.alloc(), &words), Err(WordRefusal::BadWord)),
            "text {text:?}"
        );
    }
    Ok(())
}
