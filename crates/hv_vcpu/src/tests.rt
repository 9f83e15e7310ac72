//! VCPUs led by hand.

use super::*;
use hv_exec::After;
use hv_kinds::{Pins, State};
use hv_region::VcpuPlan;
use std::test::Fail;

const ADD: Move = Move::Add {
    birth: 7,
    index: 2,
    plan: VcpuPlan {
        start: 0x8000_0000,
        priority: 3,
        slice: 8,
    },
};

const WFI: u32 = 0x1050_0073;

// Makes a move, of which an addition is always the same.
fn step(vcpu: &mut Vcpu, to: Move) -> Result<(), WrongState> {
    match to {
        Move::Add { .. } => vcpu.step(ADD),
        _ => vcpu.step(to),
    }
}

// Fetches a word where a hart runs the VCPU.
fn fetch(vcpu: &mut Vcpu, word: u32) -> Option<After> {
    match vcpu.state() {
        State::Running(_) => Some(vcpu.fetched(word)),
        _ => None,
    }
}

// A VCPU that was led to a state.
fn led_to(state: State) -> Vcpu {
    let mut vcpu = Vcpu::new();
    if state == State::Unknown {
        return vcpu;
    }
    let _ = step(&mut vcpu, ADD);
    if state == State::Reset {
        return vcpu;
    }
    let _ = step(&mut vcpu, Move::Kick);
    let _ = match state {
        State::Running(hart) => step(&mut vcpu, Move::Dispatch(hart)),
        State::Paused(true) => step(&mut vcpu, Move::Dispatch(0)),
        State::Paused(false) => step(&mut vcpu, Move::Pause),
        State::Halted => step(&mut vcpu, Move::Halt),
        _ => Ok(()),
    };
    if state == State::Paused(true) {
        let _ = fetch(&mut vcpu, WFI);
    }
    vcpu
}

#[test]
fn walks_the_table(rt: HostRuntime) -> Result<(), Fail> {
    let states: [State; 8] = [
        State::Unknown,
        State::Reset,
        State::Ready,
        State::Running(0),
        State::Running(1),
        State::Paused(false),
        State::Paused(true),
        State::Halted,
    ];
    let reset = Some(State::Reset);
    let ready = Some(State::Ready);
    let paused = Some(State::Paused(false));
    let halted = Some(State::Halted);
    let gone = Some(State::Unknown);
    let runs = Some(State::Running(1));
    // By the states above.
    let rows: [(Move, [Option<State>; 8]); 9] = [
        (ADD, [reset, None, None, None, None, None, None, None]),
        (
            Move::Kick,
            [None, ready, None, None, None, None, None, None],
        ),
        (
            Move::Resume,
            [None, None, None, None, None, ready, ready, None],
        ),
        (
            Move::Dispatch(1),
            [None, None, runs, None, None, None, None, None],
        ),
        (
            Move::Preempt,
            [None, None, None, ready, ready, None, None, None],
        ),
        (
            Move::Pause,
            [None, None, paused, paused, paused, None, None, None],
        ),
        (
            Move::Halt,
            [None, None, halted, halted, halted, None, None, None],
        ),
        (
            Move::Reset,
            [None, None, reset, reset, reset, reset, reset, reset],
        ),
        (Move::Drop, [None, gone, gone, gone, gone, gone, gone, gone]),
    ];
    for (to, leads) in rows {
        for at in 0..8 {
            let state = states[at];
            let mut vcpu = led_to(state);
            assert!(rt; vcpu.state() == state, "state {state:?}");
            let (answer, next) = match leads[at] {
                Some(next) => (Ok(()), next),
                None => (Err(WrongState(state)), state),
            };
            assert!(rt; step(&mut vcpu, to) == answer, "{to:?} from {state:?}");
            assert!(rt; vcpu.state() == next, "{to:?} from {state:?}");
        }
    }
    Ok(())
}

#[test]
fn runs_on_one_hart(rt: HostRuntime) -> Result<(), Fail> {
    let mut vcpu = Vcpu::new();
    assert!(rt; vcpu.birth().is_none());
    assert!(rt; vcpu.plan().is_none());
    let rows: [(Move, Result<(), WrongState>); 7] = [
        (ADD, Ok(())),
        (Move::Kick, Ok(())),
        (Move::Dispatch(1), Ok(())),
        (Move::Dispatch(0), Err(WrongState(State::Running(1)))),
        (Move::Preempt, Ok(())),
        (Move::Pause, Ok(())),
        (Move::Kick, Err(WrongState(State::Paused(false)))),
    ];
    for (to, answer) in rows {
        assert!(rt; step(&mut vcpu, to) == answer, "{to:?}");
    }
    assert!(rt; vcpu.birth() == Some(7));
    assert!(rt; vcpu.plan().map(|plan| plan.priority) == Some(3));
    assert!(rt; vcpu.ctx().hartid == 2);
    Ok(())
}

#[test]
fn carries_out_a_program(rt: HostRuntime) -> Result<(), Fail> {
    let mut vcpu = led_to(State::Running(0));
    // addi x5, x0, -1; slli x6, x5, 63; div x7, x6, x0; rem x8, x6, x5; div x9, x6, x5; mulhsu x10, x5, x5
    let words: [u32; 6] = [
        0xfff0_0293,
        0x03f2_9313,
        0x0203_43b3,
        0x0253_6433,
        0x0253_44b3,
        0x0252_a533,
    ];
    for word in words {
        assert!(rt; fetch(&mut vcpu, word) == Some(After::Done), "{word:x}");
    }
    assert!(rt; fetch(&mut vcpu, WFI) == Some(After::Wait));
    assert!(rt; vcpu.state() == State::Paused(true));
    let ctx = vcpu.ctx();
    assert!(rt; ctx.pc == 0x8000_001c);
    let least = 1 << 63;
    let registers = [u64::MAX, least, u64::MAX, 0, least, u64::MAX];
    assert!(rt; ctx.x[5..11] == registers[..]);
    assert!(rt; hv_trap::mstatus(ctx) == 0x1800);
    Ok(())
}

#[test]
fn wakes_by_an_enabled_pin(rt: HostRuntime) -> Result<(), Fail> {
    let none = Pins {
        ext: false,
        soft: false,
        timer: false,
    };
    let mut vcpu = led_to(State::Running(0));
    // addi x5, x0, 8; csrrw x0, mie, x5
    assert!(rt; fetch(&mut vcpu, 0x0080_0293) == Some(After::Done));
    assert!(rt; fetch(&mut vcpu, 0x3042_9073) == Some(After::Done));
    assert!(rt; fetch(&mut vcpu, WFI) == Some(After::Wait));
    assert!(rt;
        !vcpu.set_pins(
            1,
            Pins {
                timer: true,
                ..none
            }
        )
    );
    assert!(rt; vcpu.state() == State::Paused(true));
    assert!(rt; vcpu.set_pins(2, Pins { soft: true, ..none }));
    assert!(rt; vcpu.state() == State::Ready);
    assert!(rt; !vcpu.set_pins(3, none));
    assert!(rt;
        vcpu.ctx().pins
            == Pins {
                ext: false,
                soft: true,
                timer: true
            }
    );
    assert!(rt; !vcpu.set_pins(1, none));
    assert!(rt; vcpu.ctx().pins == Pins { soft: true, ..none });
    // A VCPU does not wait where the interrupt is there.
    assert!(rt; step(&mut vcpu, Move::Dispatch(0)) == Ok(()));
    assert!(rt; fetch(&mut vcpu, WFI) == Some(After::Done));
    assert!(rt; step(&mut vcpu, Move::Reset) == Ok(()));
    assert!(rt; vcpu.ctx().pins.soft && vcpu.ctx().pc == 0x8000_0000);
    Ok(())
}

#[test]
fn leaves_accesses_and_enters_traps(rt: HostRuntime) -> Result<(), Fail> {
    let mut vcpu = led_to(State::Running(0));
    // lw x6, 4(x0)
    let load = After::Load {
        addr: 4,
        size: 4,
        signed: true,
        rd: 6,
    };
    assert!(rt; fetch(&mut vcpu, 0x0040_2303) == Some(load));
    if let State::Running(_) = vcpu.state() {
        vcpu.loaded(4, true, 6, 0xffff_ffff);
    }
    assert!(rt; vcpu.ctx().x[6] == u64::MAX);
    // sd x6, 8(x0)
    let store = After::Store {
        addr: 8,
        size: 8,
        value: u64::MAX,
    };
    assert!(rt; fetch(&mut vcpu, 0x0060_3423) == Some(store));
    if let State::Running(_) = vcpu.state() {
        vcpu.stored();
    }
    assert!(rt; vcpu.ctx().pc == 0x8000_0008);
    // lw x6, 1(x0); sd x0, 4(x0); no instruction
    let rows: [(u32, u64, u64); 3] = [(0x0010_2303, 4, 1), (0x0000_3223, 6, 4), (0, 2, 0)];
    for (word, cause, value) in rows {
        assert!(rt;
            fetch(&mut vcpu, word) == Some(After::Trap { cause, value }),
            "{word:x}"
        );
        assert!(rt;
            vcpu.ctx().mcause == cause && vcpu.ctx().mtval == value,
            "{word:x}"
        );
    }
    if let State::Running(_) = vcpu.state() {
        vcpu.trapped(5, 0x9000_0000);
    }
    assert!(rt; vcpu.ctx().mcause == 5 && vcpu.ctx().pc == 0);
    Ok(())
}
