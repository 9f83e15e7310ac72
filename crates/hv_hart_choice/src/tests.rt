//! Each choice made once.

use super::*;
use hv_handed::Pending;
use hv_kinds::{AccessKind, AddressType, Generation};
use hv_programs::Running;
use hv_queue::Queue;
use hv_region::{VcpuPlan, Window};
use hv_space::Space;
use hv_step::Step;
use hv_vcpu::{Move, Vcpu};
use std::test::Fail;

const GENERATION: Generation = Generation { slot: 1, birth: 7 };

const START: u64 = 0x8000_0000;

const RAM: Window = Window {
    owner: 3,
    target: 3,
    birth: 7,
    kind: AddressType::Memory,
    base: START,
    size: 0x1000,
    offset: 0,
};

// The VCPU of a guest, which hart 0 runs.
fn running() -> Vcpu {
    let mut vcpu = Vcpu::new();
    let plan = VcpuPlan {
        start: START,
        priority: 3,
        slice: 8,
    };
    let _ = vcpu.step(Move::Add {
        birth: 7,
        index: 0,
        plan,
    });
    let _ = vcpu.step(Move::Kick);
    let _ = vcpu.step(Move::Dispatch(0));
    vcpu
}

fn turn_of(vcpu: u8, used: u32) -> Running {
    Running {
        vcpu,
        slice: 8,
        used,
    }
}

#[test]
fn dispatches_the_head(rt: HostRuntime) -> Result<(), Fail> {
    let mut queue = Queue::new(rt.alloc())?;
    assert!(rt; matches!(choose_free(&queue).step(), Step::Idle(_)));
    queue.push(5, 3);
    let HartStep::Dispatch(chosen) = choose_free(&queue) else {
        return Err(Fail::from("it is dispatched"));
    };
    assert!(rt; chosen.vcpu == 5);
    Ok(())
}

#[test]
fn gives_a_vcpu_its_turn(rt: HostRuntime) -> Result<(), Fail> {
    let vcpu = running();
    assert!(rt;
        matches!(
            choose_turn(1, turn_of(5, 0), &vcpu),
            Some(HartStep::Leave(_))
        )
    );
    assert!(rt;
        matches!(
            choose_turn(0, turn_of(5, 8), &vcpu),
            Some(HartStep::Preempt(_))
        )
    );
    assert!(rt;
        matches!(
            choose_turn(0, turn_of(0, 0), &vcpu),
            Some(HartStep::Balance(_))
        )
    );
    assert!(rt; choose_turn(0, turn_of(5, 7), &vcpu).is_none());
    Ok(())
}

#[test]
fn fetches_where_a_window_leads(rt: HostRuntime) -> Result<(), Fail> {
    let vcpu = running();
    let mut space = Space::new(rt.alloc())?;
    let faults = choose_running(0, turn_of(5, 0), &vcpu, &space);
    assert!(rt; matches!(faults, HartStep::Fault(fault) if fault.access == AccessKind::Execute));
    assert!(rt; space.windows_mut().add(RAM) == Ok(()));
    let fetches = choose_running(0, turn_of(5, 0), &vcpu, &space);
    assert!(rt; matches!(fetches, HartStep::Fetch(fetch) if fetch.row == 3));
    Ok(())
}

#[test]
fn makes_the_access_that_is_pending(rt: HostRuntime) -> Result<(), Fail> {
    let vcpu = running();
    let mut space = Space::new(rt.alloc())?;
    assert!(rt; space.windows_mut().add(RAM) == Ok(()));
    let pending = Pending::Store {
        address: START + 4,
        size: 4,
        value: 9,
    };
    let made = choose_waiting(0, 5, pending, GENERATION, &vcpu, &space);
    assert!(rt; matches!(made, Some(HartStep::Access(access)) if access.value == 9));
    let left = choose_waiting(1, 5, pending, GENERATION, &vcpu, &space);
    assert!(rt; matches!(left, Some(HartStep::Leave(_))));
    Ok(())
}
