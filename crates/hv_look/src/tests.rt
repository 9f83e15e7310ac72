//! Looks printed and read.
use super::*;
use hv_data::{WordRefusal, split_at_byte};
use hv_text::Bytes;
use std::test::Fail;

/// A VCPU that runs on hart 1, with pc 0x80000004, x5 0x10000000 and mstatus 0x1800.
const RUNNING: &[u8] =
    b"Running1 3 8 0x80000004 0x0 0x0 0x0 0x0 0x10000000 0x0 0x0 0x0 0x0 0x0 0x0 0x0 0x0 0x0 0x0 0x0 0x0 0x0 0x0 0x0 0x0 0x0 0x0 0x0 0x0 0x0 0x0 0x0 0x0 0x0 0x0 0x1800 0x0 0x0 0x0 0x0 0x0 0x0";

#[test]
fn reads_what_it_prints(rt: HostRuntime) -> Result<(), Fail> {
    let words = split_at_byte(rt.alloc(), RUNNING, b' ')?;
    match read_look(rt.alloc(), &words) {
        Ok(look) => {
            assert_eq!(rt; look.registers.x[4], 0x1000_0000);
            assert_eq!(rt; look.registers.csrs.mstatus, 0x1800);
            let boxed = BoxedLook::new(rt.alloc(), look)?;
            let mut printed = Bytes::from_vec(Vec::new(rt.alloc()));
            print_look(rt.alloc(), &mut printed, boxed.as_look())?;
            assert_eq!(rt; printed.as_slice(), RUNNING);
        }
        Err(_) => assert!(rt; false),
    }
    let short = split_at_byte(rt.alloc(), b"Unknown 0 0 0x0", b' ')?;
    assert!(rt; matches!(read_look(rt.alloc(), &short), Err(WordRefusal::BadWord)));
    looks_are_unambiguous();
    looks_have_no_space();
    Ok(())
}
