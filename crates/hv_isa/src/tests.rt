use crate::decoding::decode;
use crate::encoding::encode;
use hv_exec::{After, Ctx, Inst, exec};
use hv_kinds::Pins;

fn context_with(left: u64, right: u64) -> Ctx {
    let mut x = [0; 32];
    x[1] = left;
    x[2] = right;
    let pins = Pins {
        ext: false,
        soft: false,
        timer: false,
    };
    Ctx {
        pc: 0x1000,
        x,
        mstatus: 0,
        mie: 0,
        mtvec: 0,
        mscratch: 0,
        mepc: 0,
        mcause: 0,
        mtval: 0,
        hartid: 0,
        pins,
    }
}

// Words of instructions that read x1 and x2 and write x3, and what x3 is then.
#[test]
fn words_compute_as_the_manual_says(rt: HostRuntime) {
    let rows: [(u32, u64, u64, u64); 12] = [
        (
            0x402081b3,
            0x8000000080000001,
            0x7fffffff,
            0x8000000000000002,
        ),
        (
            0x4020d1b3,
            0x8000000080000001,
            0x7fffffff,
            0xffffffffffffffff,
        ),
        (0x220a1b3, 0x8000000000000000, 0x2, 0xffffffffffffffff),
        (
            0x220c1b3,
            0x8000000000000000,
            0xffffffffffffffff,
            0x8000000000000000,
        ),
        (0x220e1bb, 0x80000000, 0xffffffff, 0x0),
        (0x220f1bb, 0x80000000, 0x0, 0xffffffff80000000),
        (0x8000b193, 0x7ffffff0, 0x0, 0x1),
        (0x43f0d193, 0x8000000000000000, 0x0, 0xffffffffffffffff),
        (0x41f0d19b, 0x80000000, 0x0, 0xffffffffffffffff),
        (0x80000197, 0x0, 0x0, 0xffffffff80001000),
        (0xff1ff1ef, 0x0, 0x0, 0x1004),
        (0xfff081e7, 0x2002, 0x0, 0x1004),
    ];
    for (word, left, right, want) in rows {
        let mut ctx = context_with(left, right);
        let inst = decode(word);
        assert!(rt; inst.is_some());
        if let Some(inst) = inst {
            assert!(rt; encode(inst) == word);
            assert!(rt; exec(&mut ctx, inst) == After::Done);
            assert!(rt; ctx.x[3] == want);
        }
    }
}

// Words of branches, jumps and fences, and where the hart is then.
#[test]
fn words_move_as_the_manual_says(rt: HostRuntime) {
    let rows: [(u32, u64, u64, u64); 7] = [
        (0x80208063, 0x5, 0x5, 0x0),
        (0x7e209ee3, 0x5, 0x6, 0x1ffc),
        (0x20c463, 0x0, 0xffffffffffffffff, 0x1004),
        (0x8020f063, 0xffffffffffffffff, 0x0, 0x0),
        (0x7fdff06f, 0x0, 0x0, 0x100ffc),
        (0x308067, 0x2002, 0x0, 0x2004),
        (0x100f, 0x0, 0x0, 0x1004),
    ];
    for (word, left, right, want) in rows {
        let mut ctx = context_with(left, right);
        let inst = decode(word);
        assert!(rt; inst.is_some());
        if let Some(inst) = inst {
            assert!(rt; encode(inst) == word);
            assert!(rt; exec(&mut ctx, inst) == After::Done);
            assert!(rt; ctx.pc == want);
        }
    }
}

// Words of instructions that leave something to do, where x1 is 0x1000.
#[test]
fn words_answer_as_the_manual_says(rt: HostRuntime) {
    let rows = [
        (
            0x80009183,
            After::Load {
                addr: 0x800,
                size: 2,
                signed: true,
                rd: 3,
            },
        ),
        (
            0x7e209fa3,
            After::Store {
                addr: 0x17ff,
                size: 2,
                value: 0xeeff,
            },
        ),
        (
            0x73,
            After::Trap {
                cause: 11,
                value: 0,
            },
        ),
        (
            0x163,
            After::Trap {
                cause: 0,
                value: 0x1002,
            },
        ),
        (0x10500073, After::Wait),
        (0x30029073, After::System),
    ];
    for (word, want) in rows {
        let mut ctx = context_with(0x1000, 0x8899aabbccddeeff);
        let inst = decode(word);
        assert!(rt; inst.is_some());
        if let Some(inst) = inst {
            assert!(rt; exec(&mut ctx, inst) == want);
        }
    }
}

#[test]
fn other_words_are_no_instruction(rt: HostRuntime) {
    let words = [
        0x0, 0xffffffff, 0x2063, 0x42001013, 0x1067, 0x4001033, 0x10200073, 0x200f,
    ];
    for word in words {
        assert!(rt; decode(word).is_none());
    }
    assert!(rt;
        matches!(
            decode(0x30029073),
            Some(Inst::Csrrw {
                rd: 0,
                rs1: 5,
                csr: 0x300
            })
        )
    );
}
