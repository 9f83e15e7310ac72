//! Steps made at parts.

use super::*;
use hv_answer::Reply;
use hv_body::BodyOf;
use hv_device_steps::window_reached;
use hv_emu::Emulator;
use hv_handed::Handed;
use hv_kinds::{AccessKind, Generation, Pins};
use hv_parts::{Boxed, Part};
use hv_queue::Queue;
use hv_region::VcpuPlan;
use hv_space::Space;
use hv_step::{Balance, Dispatch, Fault, Fetch, Idle, Leave, Preempt, Take, Tick, Vadd};
use hv_trap::choose;
use hv_vcpu::{Move, Vcpu};
use hv_vcpu_steps::{fetch, fetches_at, is_run_of, runs_on, vadd};
use std::test::Fail;

type Device = Box<dyn Emulator + Send>;

const PLAN: VcpuPlan = VcpuPlan {
    start: 0x8000_0000,
    priority: 3,
    slice: 8,
};

const GENERATION: Generation = Generation { slot: 1, birth: 7 };

// The VCPU of a guest, which hart 0 runs.
fn running() -> Vcpu {
    let mut vcpu = Vcpu::new();
    let _: (Reply, Handed<Device>) = vadd(Vadd { vcpu: 5, birth: 7 }, 0, PLAN, &mut vcpu);
    let _ = vcpu.step(Move::Kick);
    let _ = vcpu.step(Move::Dispatch(0));
    vcpu
}

// Carries an instruction out.
fn carry_out(vcpu: &mut Vcpu, word: u32) {
    if fetches_at(0, 7, vcpu).is_some() {
        let step = Fetch {
            vcpu: 5,
            row: 0,
            generation: GENERATION,
        };
        let _ = fetch(0, step, Some(word), vcpu);
    }
}

#[test]
fn finds_no_vcpu_to_run(rt: HostRuntime) -> Result<(), Fail> {
    let parts: [Part<Device>; 1] = [Part::Queue(Queue::new(rt.alloc())?)];
    let made = idle_at(0, Idle, &parts);
    assert!(rt; matches!(&made.reply, Reply::Idle));
    Ok(())
}

#[test]
fn dispatches_no_unknown_vcpu(rt: HostRuntime) -> Result<(), Fail> {
    let mut queue = Queue::new(rt.alloc())?;
    queue.push(5, 3);
    assert!(rt; queue.head() == Some(5));
    let mut parts: [Part<Device>; 2] = [
        Part::Queue(queue),
        Part::Vcpu(Boxed::new(rt.alloc(), Vcpu::new())?),
    ];
    let made = dispatch_at(0, Dispatch { vcpu: 5 }, &mut parts);
    assert!(rt; matches!(&made.reply, Reply::Dispatch(Err(_))));
    Ok(())
}

#[test]
fn puts_a_vcpu_back(rt: HostRuntime) -> Result<(), Fail> {
    let vcpu = running();
    assert!(rt; runs_on(0, &vcpu));
    let mut parts: [Part<Device>; 2] = [
        Part::Queue(Queue::new(rt.alloc())?),
        Part::Vcpu(Boxed::new(rt.alloc(), vcpu)?),
    ];
    let made = preempt_at(0, Preempt { vcpu: 5 }, &mut parts);
    assert!(rt; matches!(&made.reply, Reply::Preempt));
    Ok(())
}

#[test]
fn leaves_a_vcpu_of_another_hart(rt: HostRuntime) -> Result<(), Fail> {
    let vcpu = running();
    assert!(rt; !runs_on(1, &vcpu));
    let parts: [Part<Device>; 1] = [Part::Vcpu(Boxed::new(rt.alloc(), vcpu)?)];
    let made = leave_at(1, Leave { vcpu: 5 }, &parts);
    assert!(rt; matches!(&made.reply, Reply::Leave(_)));
    Ok(())
}

#[test]
fn takes_a_software_interrupt(rt: HostRuntime) -> Result<(), Fail> {
    let mut vcpu = running();
    // csrsi mie, 8
    carry_out(&mut vcpu, 0x3044_6073);
    // csrsi mstatus, 8
    carry_out(&mut vcpu, 0x3004_6073);
    let pins = Pins {
        ext: false,
        soft: true,
        timer: false,
    };
    let _ = vcpu.set_pins(0, pins);
    assert!(rt; runs_on(0, &vcpu));
    assert!(rt; choose(vcpu.ctx()).is_some());
    let mut parts: [Part<Device>; 1] = [Part::Vcpu(Boxed::new(rt.alloc(), vcpu)?)];
    let made = take_at(0, Take { vcpu: 5 }, &mut parts);
    assert!(rt; matches!(&made.reply, Reply::Take(_)));
    Ok(())
}

#[test]
fn faults_where_no_window_is(rt: HostRuntime) -> Result<(), Fail> {
    let vcpu = running();
    assert!(rt; is_run_of(0, 7, &vcpu));
    let space = Space::new(rt.alloc())?;
    assert!(rt; window_reached(&space, 0x1000, 8).is_none());
    let mut parts: [Part<Device>; 2] = [
        Part::Space(space),
        Part::Vcpu(Boxed::new(rt.alloc(), vcpu)?),
    ];
    let step = Fault {
        vcpu: 5,
        address: 0x1000,
        size: 8,
        access: AccessKind::Read,
        generation: GENERATION,
    };
    let made = fault_at(0, step, &mut parts);
    assert!(rt; matches!(&made.reply, Reply::Fault(5)));
    Ok(())
}

#[test]
fn ticks_no_clock(rt: HostRuntime) -> Result<(), Fail> {
    let parts: [Part<Device>; 1] = [Part::Space(Space::new(rt.alloc())?)];
    let made = tick_nothing_at(Tick { slot: 1 }, &parts);
    assert!(rt; matches!(&made.reply, Reply::Tick(None)));
    assert!(rt; made.told.clock.is_none());
    Ok(())
}

#[test]
fn tells_which_clock_ticks(rt: HostRuntime) -> Result<(), Fail> {
    let mut space = Space::new(rt.alloc())?;
    space.set_clock(Some((2, 7)));
    let body: BodyOf<Device> = BodyOf::new(rt.alloc())?;
    let mut parts = [
        Part::Space(space),
        Part::Body(Boxed::new(rt.alloc(), body)?),
    ];
    let made = tick_at(Tick { slot: 1 }, 2, &mut parts);
    assert!(rt; matches!(&made.reply, Reply::Tick(Some(_))));
    assert!(rt; made.told.clock == Some((2, 7)));
    Ok(())
}

#[test]
fn moves_an_entry_to_the_shortest_queue(rt: HostRuntime) -> Result<(), Fail> {
    let mut longest = Queue::new(rt.alloc())?;
    longest.push(1, 3);
    longest.push(2, 5);
    let orphan = running();
    assert!(rt; runs_on(0, &orphan));
    let mut parts: [Part<Device>; 3] = [
        Part::Queue(longest),
        Part::Queue(Queue::new(rt.alloc())?),
        Part::Vcpu(Boxed::new(rt.alloc(), orphan)?),
    ];
    let made = balance_at(rt.alloc(), 0, 2, Balance, &mut parts)?;
    assert!(rt; matches!(&made.reply, Reply::Balance(Some(_))));
    Ok(())
}
