//! Steps made at parts.

use super::*;
use hv_answer::Reply;
use hv_body::BodyOf;
use hv_emu::Emulator;
use hv_handed::Pending;
use hv_kinds::Generation;
use hv_memory_steps::access_step;
use hv_parts::{Boxed, Part};
use hv_step::Fetch;
use hv_vcpu::Vcpu;
use std::test::Fail;

type Device = Box<dyn Emulator + Send>;

const GENERATION: Generation = Generation { slot: 1, birth: 7 };

/// The row of the region.
const ROW: u8 = 2;

const FETCH: Fetch = Fetch {
    vcpu: 5,
    row: ROW,
    generation: GENERATION,
};

#[test]
fn fetches_nothing_for_another_hart(rt: HostRuntime) -> Result<(), Fail> {
    let alloc = rt.alloc();
    let mut parts: [Part<Device>; 2] = [
        Part::Vcpu(Boxed::new(alloc, Vcpu::new())?),
        Part::Body(Boxed::new(alloc, BodyOf::new(alloc)?)?),
    ];
    if area_of_fetch(0, FETCH, &parts).is_none() {
        let made = fetch_at(0, FETCH, None, &mut parts);
        assert!(rt; made.is_none());
    }
    Ok(())
}

#[test]
fn accesses_nothing_for_another_hart(rt: HostRuntime) -> Result<(), Fail> {
    let alloc = rt.alloc();
    let mut parts: [Part<Device>; 2] = [
        Part::Vcpu(Boxed::new(alloc, Vcpu::new())?),
        Part::Body(Boxed::new(alloc, BodyOf::new(alloc)?)?),
    ];
    let pending = Pending::Load {
        address: 4,
        size: 4,
        is_signed: false,
        register: 6,
    };
    let step = access_step(5, ROW, pending, GENERATION);
    if area_of_access(0, step, pending, &parts).is_none() {
        let made = access_at(0, step, pending, None, &mut parts);
        assert!(rt; made.is_none());
    }
    Ok(())
}
