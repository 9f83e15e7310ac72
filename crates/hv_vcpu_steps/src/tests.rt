//! Each step made once.

use super::*;
use hv_answer::{Outcome, Reply};
use hv_emu::Emulator;
use hv_handed::Handed;
use hv_kinds::{AccessKind, Direction, Generation, Pins};
use hv_queue::Queue;
use hv_region::VcpuPlan;
use hv_step::{
    Access, Balance, Dispatch, Fault, Fetch, Halt, Idle, Kick, Leave, Look, Pause, Pin, Preempt,
    Reset, Resume, Take, Vadd, Vdrop,
};
use hv_vcpu::{Move, Vcpu};
use std::test::Fail;

type Device = Box<dyn Emulator + Send>;

const PLAN: VcpuPlan = VcpuPlan {
    start: 0x8000_0000,
    priority: 3,
    slice: 8,
};

const GENERATION: Generation = Generation { slot: 1, birth: 7 };

// The VCPU of a guest, which hart 0 runs.
fn running() -> Vcpu {
    let mut vcpu = Vcpu::new();
    let _: (Reply, Handed<Device>) = vadd(Vadd { vcpu: 5, birth: 7 }, 0, PLAN, &mut vcpu);
    let _ = vcpu.step(Move::Kick);
    let _ = vcpu.step(Move::Dispatch(0));
    vcpu
}

#[test]
fn leads_a_vcpu_by_commands(rt: HostRuntime) -> Result<(), Fail> {
    let mut vcpu = Vcpu::new();
    let mut queue = Queue::new(rt.alloc())?;
    let added: (Reply, Handed<Device>) = vadd(Vadd { vcpu: 5, birth: 7 }, 0, PLAN, &mut vcpu);
    assert!(rt; matches!(&added.0, Reply::Vadd(Ok(()))));
    let kick_it = Kick {
        vcpu: 5,
        guest: None,
    };
    let kicked: (Reply, Handed<Device>) = kick(&kick_it, &mut queue, &mut vcpu);
    assert!(rt; matches!(&kicked.0, Reply::Kick(Ok(()))));
    assert!(rt; queue.head() == Some(5));
    let pause_it = Pause {
        vcpu: 5,
        guest: None,
    };
    let paused: (Reply, Handed<Device>) = pause(&pause_it, &mut vcpu);
    leave_queue(&mut queue, 5, &paused.0);
    assert!(rt; queue.head() == None);
    let resume_it = Resume {
        vcpu: 5,
        guest: None,
    };
    let resumed: (Reply, Handed<Device>) = resume(&resume_it, &mut queue, &mut vcpu);
    assert!(rt; matches!(&resumed.0, Reply::Resume(Ok(()))));
    assert!(rt; queue.head() == Some(5));
    Ok(())
}

#[test]
fn ends_a_vcpu_by_commands(rt: HostRuntime) -> Result<(), Fail> {
    let mut vcpu = running();
    let halt_it = Halt {
        vcpu: 5,
        guest: None,
    };
    let halted: (Reply, Handed<Device>) = halt(&halt_it, &mut vcpu);
    assert!(rt; matches!(&halted.0, Reply::Halt(Ok(()))));
    let reset_it = Reset {
        vcpu: 5,
        guest: None,
    };
    let was_reset: (Reply, Handed<Device>) = reset(&reset_it, &mut vcpu);
    assert!(rt; matches!(&was_reset.0, Reply::Reset(Ok(()))));
    let looked: (Reply, Handed<Device>) = look(rt.alloc(), Look { vcpu: 5 }, &vcpu)?;
    assert!(rt; matches!(&looked.0, Reply::Look(_)));
    let dropped: (Reply, Handed<Device>) = vdrop(Vdrop { vcpu: 5 }, &mut vcpu);
    assert!(rt; matches!(&dropped.0, Reply::Vdrop(Ok(()))));
    Ok(())
}

#[test]
fn gives_a_hart_its_turns(rt: HostRuntime) -> Result<(), Fail> {
    let mut vcpu = running();
    let mut queue = Queue::new(rt.alloc())?;
    let idled: Option<(Reply, Handed<Device>)> = idle(Idle, &queue);
    assert!(rt; idled.is_some());
    let taken: Option<(Reply, Handed<Device>)> = take(0, Take { vcpu: 5 }, &mut vcpu);
    assert!(rt; taken.is_none());
    let preempted: Option<(Reply, Handed<Device>)> = preempt(
        0,
        Preempt { vcpu: 5 },
        &mut queue,
        &mut vcpu,
    );
    assert!(rt; preempted.is_some());
    let left: Option<(Reply, Handed<Device>)> = leave(0, Leave { vcpu: 5 }, &vcpu);
    assert!(rt; left.is_some());
    let began: Option<(Reply, Handed<Device>)> = dispatch(
        1,
        Dispatch { vcpu: 5 },
        &mut queue,
        &mut vcpu,
    );
    assert!(rt; began.is_some());
    assert!(rt; queue.head() == None);
    assert!(rt; uneven(&[1, 3, 0]) == Some((1, 2)));
    Ok(())
}

// Fetches an instruction, and answers its access with 9.
fn carry_out(vcpu: &mut Vcpu, word: u32) -> Option<Executed> {
    if fetches_at(0, 7, vcpu).is_none() {
        return None;
    }
    let step = Fetch {
        vcpu: 5,
        row: 0,
        generation: GENERATION,
    };
    let executed = fetch(0, step, Some(word), vcpu);
    if let Some(pending) = executed.pending {
        let step = Access {
            vcpu: 5,
            row: 0,
            address: 4,
            size: 4,
            direction: Direction::Read,
            value: 0,
            generation: GENERATION,
        };
        if is_run_of(0, 7, vcpu) {
            access(0, step, pending, Some(9), vcpu);
        }
    }
    Some(executed)
}

#[test]
fn carries_out_a_load(rt: HostRuntime) -> Result<(), Fail> {
    let mut vcpu = running();
    // lw x6, 4(x0)
    let executed = carry_out(&mut vcpu, 0x0040_2303).ok_or("it runs")?;
    assert!(rt; executed.pc == 0x8000_0000);
    assert!(rt; executed.shown.map(|shown| shown.outcome) == Some(Outcome::Access));
    assert!(rt; vcpu.ctx().x[6] == 9);
    Ok(())
}

#[test]
fn takes_faults_and_pins(rt: HostRuntime) -> Result<(), Fail> {
    let mut vcpu = running();
    let mut queue = Queue::new(rt.alloc())?;
    let pins = Pins {
        ext: false,
        soft: true,
        timer: false,
    };
    let step = Pin {
        row: 2,
        vcpu: 5,
        generation: GENERATION,
    };
    let pinned: (Reply, Handed<Device>) = pin(step, pins, &mut queue, &mut vcpu);
    assert!(rt; matches!(&pinned.0, Reply::Pin(Some(_))));
    let step = Fault {
        vcpu: 5,
        address: 0x8000_0000,
        size: 4,
        access: AccessKind::Execute,
        generation: GENERATION,
    };
    let faulted: Option<(Reply, Handed<Device>)> = fault(0, step, &mut vcpu);
    assert!(rt; faulted.is_some());
    assert!(rt; vcpu.ctx().mcause == 1);
    Ok(())
}

#[test]
fn moves_the_last_entry_of_the_longest(rt: HostRuntime) -> Result<(), Fail> {
    let mut longest = Queue::new(rt.alloc())?;
    let mut shortest = Queue::new(rt.alloc())?;
    longest.push(1, 3);
    longest.push(2, 5);
    let moved = longest.last();
    balance_queue(0, &[2, 0], moved, &mut longest);
    balance_queue(1, &[2, 0], moved, &mut shortest);
    assert!(rt; longest.head() == Some(1));
    assert!(rt; shortest.head() == Some(2));
    let told = tell_move(&[2, 0], moved);
    assert!(rt; matches!(told, Reply::Balance(Some(_))));
    Ok(())
}

#[test]
fn balances_where_the_orphan_runs(rt: HostRuntime) -> Result<(), Fail> {
    let orphan = running();
    let mut lengths = Vec::with_capacity(rt.alloc(), 1)?;
    measure(&Queue::new(rt.alloc())?, &mut lengths);
    let made: Option<(Reply, Handed<Device>)> = balance(0, Balance, &lengths, None, &orphan);
    assert!(rt; made.is_some());
    let left: Option<(Reply, Handed<Device>)> = balance(1, Balance, &lengths, None, &orphan);
    assert!(rt; left.is_none());
    let _: Handed<Device> = hand_balance(&lengths, None);
    assert!(rt; runs_on(0, &orphan));
    Ok(())
}
