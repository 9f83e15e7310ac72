//! Transcripts of answers, ends and VCPUs.

use super::*;
use hv_answer::Reply;
use hv_kinds::State;
use hv_look::{Csrs, Look, Registers};
use hv_programs::{Asked, Change};
use hv_refusal::Refusal;
use hv_step::{Regions, Step};
use hv_text::Bytes;
use std::alloc::{AllocError, Global};
use std::test::Fail;

#[test]
fn shows_replies(rt: HostRuntime) -> Result<(), Fail> {
    let alloc = rt.alloc();
    let mut to = Bytes::from_vec(Vec::new(alloc));
    show_begun(&mut to, b"vfs asm /a /b")?;
    show_reply(alloc, &mut to, &Reply::Asm(Ok(3)))?;
    show_reply(alloc, &mut to, &Reply::Kick(Err(Refusal::NoSuchGuest)))?;
    assert!(rt;
        to.as_slice() == b"> vfs asm /a /b\n3 words\n< ok\n< refused NoSuchGuest\n".as_slice()
    );
    Ok(())
}

#[test]
fn shows_ends(rt: HostRuntime) -> Result<(), Fail> {
    let alloc = rt.alloc();
    let mut to = Bytes::from_vec(Vec::new(alloc));
    let name = Bytes::from_vec(Vec::new(alloc));
    let asked = Asked::EachVcpu(Change::Kick, name);
    show_end(alloc, &mut to, &asked, None, 1, 4, None)?;
    show_end(
        alloc,
        &mut to,
        &asked,
        None,
        1,
        4,
        Some(&Refusal::NoSuchGuest),
    )?;
    show_slot(alloc, &mut to, Some((7, 9)))?;
    show_count(alloc, &mut to, 2, 2)?;
    show_done(&mut to)?;
    show_refused(alloc, &mut to, &Refusal::NoRegion)?;
    assert!(rt;
        to.as_slice()
            == b"1 of 4\n< ok\n< refused NoSuchGuest\nslot 7\n2 of 2\n< ok\n< refused NoRegion\n".as_slice()
    );
    Ok(())
}

// Shows that the regions of a guest aren't listed.
fn show_no_regions(alloc: Global, to: &mut Bytes) -> Result<(), AllocError> {
    let name = Bytes::from_vec(Vec::new(alloc));
    let step = Step::Regions(Regions {
        name,
        generation: None,
    });
    let reply = Reply::Regions(Err(Refusal::NoSuchGuest));
    let shown = show_step(alloc, to, &[], &step, &reply);
    shown
}

#[test]
fn shows_a_step(rt: HostRuntime) -> Result<(), Fail> {
    let alloc = rt.alloc();
    let mut to = Bytes::from_vec(Vec::new(alloc));
    show_no_regions(alloc, &mut to)?;
    assert!(rt; to.as_slice() == b"< refused NoSuchGuest\n".as_slice());
    Ok(())
}

#[test]
fn shows_states(rt: HostRuntime) -> Result<(), Fail> {
    let alloc = rt.alloc();
    let mut to = Bytes::from_vec(Vec::new(alloc));
    show_state(alloc, &mut to, 5, State::Running(1))?;
    show_state(alloc, &mut to, 6, State::Unknown)?;
    assert!(rt; to.as_slice() == b"5 Running1\n".as_slice());
    Ok(())
}

#[test]
fn shows_a_dump(rt: HostRuntime) -> Result<(), Fail> {
    let alloc = rt.alloc();
    let mut to = Bytes::from_vec(Vec::new(alloc));
    let look = Look {
        state: State::Ready,
        priority: 3,
        slice: 8,
        registers: Registers {
            pc: 16,
            x: [0; 31],
            csrs: Csrs {
                mstatus: 0,
                mie: 0,
                mtvec: 0,
                mscratch: 0,
                mepc: 0,
                mcause: 0,
                mtval: 1,
            },
        },
    };
    show_dump(alloc, &mut to, 5, &look)?;
    assert!(rt;
        to.as_slice()
            == b"vcpu 5 Ready priority 3 slice 8\npc 0000000000000010\nmtval 0000000000000001\n".as_slice()
    );
    Ok(())
}
