//! Guests that come and go.

use super::*;
use hv_kinds::Stage;
use std::test::Fail;

#[test]
fn gives_a_freed_slot_to_the_next_claim(rt: HostRuntime) -> Result<(), Fail> {
    let alloc = rt.alloc();
    let mut dir = Dir::new();
    for slot in 0..8u8 {
        let name = [b'a' + slot];
        assert_eq!(rt; dir.claim(alloc, &name), Ok((slot, u64::from(slot))));
    }
    assert_eq!(rt; dir.claim(alloc, b"c"), Err(DirRefusal::NameUsed));
    assert_eq!(rt; dir.claim(alloc, b"i"), Err(DirRefusal::NoSlot));
    assert_eq!(rt;
        dir.turn_to(b"c", Stage::Making, Some(Stage::Ending)),
        Ok(())
    );
    assert_eq!(rt; dir.turn_to(b"c", Stage::Ending, None), Ok(()));
    assert!(rt; dir.at_slot(2).is_none());
    assert_eq!(rt; dir.claim(alloc, b"i"), Ok((2, 8)));
    let entry = dir.at_slot(2).expect(&rt, "a guest has the slot");
    assert!(rt; entry.name.as_slice() == b"i".as_slice() && entry.slot == 2 && entry.birth == 8);
    assert!(rt; dir.at_slot(8).is_none());
    Ok(())
}

#[test]
fn refuses_a_guest_at_another_stage(rt: HostRuntime) -> Result<(), Fail> {
    let mut dir = Dir::new();
    assert_eq!(rt; dir.claim(rt.alloc(), b"guest0"), Ok((0, 0)));
    assert_eq!(rt; dir.at(b"guest0", Stage::Making), Ok((0, 0)));
    assert_eq!(rt;
        dir.at(b"guest", Stage::Making),
        Err(DirRefusal::NoSuchGuest)
    );
    let turned = dir.turn_to(b"guest0", Stage::Made, None);
    assert_eq!(rt; turned, Err(DirRefusal::GuestState(Stage::Making)));
    assert_eq!(rt;
        dir.turn_to(b"guest0", Stage::Making, Some(Stage::Made)),
        Ok(())
    );
    assert_eq!(rt; dir.at(b"guest0", Stage::Made), Ok((0, 0)));
    Ok(())
}
