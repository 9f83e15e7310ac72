#![tactic(auto, unfolding(crate::specs::Fields::IsWellFormed))]

use crate::context::{After, Ctx};
use crate::inst::Inst;
use crate::operation::Alu;
use crate::perform::{exec, finish_load, finish_store};
use crate::result::result_of;
use hv_kinds::Pins;

fn zero_context() -> Ctx {
    let pins = Pins {
        ext: false,
        soft: false,
        timer: false,
    };
    Ctx {
        pc: 0,
        x: [0; 32],
        mstatus: 0,
        mie: 0,
        mtvec: 0,
        mscratch: 0,
        mepc: 0,
        mcause: 0,
        mtval: 0,
        hartid: 0,
        pins,
    }
}

// Results that the manual names: quotients and remainders by zero and past the greatest number.
#[test]
fn each_result_is_the_manual_s(rt: HostRuntime) {
    let rows = [
        (Alu::ShiftRightSigned, 1 << 63, 64, 1 << 63),
        (Alu::MultiplyHighMixed, u64::MAX, u64::MAX, u64::MAX),
        (Alu::Divide, 1 << 63, u64::MAX, 1 << 63),
        (Alu::Divide, 5, 0, u64::MAX),
        (Alu::DivideUnsigned, 5, 0, u64::MAX),
        (Alu::Remain, 1 << 63, u64::MAX, 0),
        (Alu::Remain, 5, 0, 5),
        (Alu::DivideWord, 5, 1 << 32, u64::MAX),
    ];
    for (how, left, right, want) in rows {
        assert!(rt; result_of(how, left, right) == want);
    }
}

#[test]
fn a_jump_between_words_traps(rt: HostRuntime) {
    let mut ctx = zero_context();
    let answer = exec(&mut ctx, Inst::Jal { rd: 1, offset: 2 });
    assert!(rt; answer == After::Trap { cause: 0, value: 2 });
    assert!(rt; ctx.register(1) == 0);
    assert!(rt; ctx.pc == 0);
}

#[test]
fn a_load_ends_with_its_value(rt: HostRuntime) {
    let mut ctx = zero_context();
    finish_load(&mut ctx, 1, true, 7, 0x180);
    assert!(rt; ctx.x[7] == 0xffff_ffff_ffff_ff80);
    finish_store(&mut ctx);
    assert!(rt; ctx.pc == 8);
}
