#![tactic(auto, unfolding(hv_exec::specs::Fields::IsWellFormed, hv_exec::specs::Operation::operation_of))]

use crate::csr::mstatus;
use crate::entry::{choose, trap};
use crate::instructions::system;
use hv_exec::{After, Ctx, Inst};
use hv_kinds::Pins;

fn context() -> Ctx {
    let mut x = [0; 32];
    x[1] = u64::MAX;
    let pins = Pins {
        ext: false,
        soft: false,
        timer: false,
    };
    Ctx {
        pc: 0x1000,
        x,
        mstatus: 0,
        mie: 0,
        mtvec: 0,
        mscratch: 0,
        mepc: 0,
        mcause: 0,
        mtval: 0,
        hartid: 5,
        pins,
    }
}

// mhartid may be read and not written, and mstatus keeps the bits that the manual gives it.
#[test]
fn registers_keep_their_bits(rt: HostRuntime) {
    let mut ctx = context();
    let written = system(
        &mut ctx,
        Inst::Csrrw {
            rd: 3,
            rs1: 1,
            csr: 0x300,
        },
    );
    assert!(rt; written == After::Done);
    assert!(rt; ctx.x[3] == 0x1800);
    assert!(rt; mstatus(&ctx) == 0x1888);
    let refused = system(
        &mut ctx,
        Inst::Csrrs {
            rd: 3,
            rs1: 1,
            csr: 0xf14,
        },
    );
    assert!(rt;
        refused
            == After::Trap {
                cause: 2,
                value: 0xf140_a1f3
            }
    );
    assert!(rt; ctx.pc == 0x1004);
}

#[test]
fn an_interrupt_is_taken_and_left(rt: HostRuntime) {
    let mut ctx = context();
    ctx.mstatus = 8;
    ctx.mie = 0x888;
    ctx.mtvec = 0x2000;
    ctx.pins.timer = true;
    assert!(rt; choose(&ctx) == Some(9_223_372_036_854_775_815));
    ctx.pins.ext = true;
    assert!(rt; choose(&ctx) == Some(9_223_372_036_854_775_819));
    trap(&mut ctx, 9_223_372_036_854_775_819, 0);
    assert!(rt; choose(&ctx).is_none());
    assert!(rt; mstatus(&ctx) == 0x1880);
    assert!(rt; ctx.pc == 0x2000);
    assert!(rt; system(&mut ctx, Inst::Mret) == After::Done);
    assert!(rt; mstatus(&ctx) == 0x1888);
    assert!(rt; ctx.pc == 0x1000);
}
