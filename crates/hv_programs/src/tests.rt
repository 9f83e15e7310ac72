//! Programs over a few steps, with ample memory.
ghost use Rattle.std.specs.Prelude.{◌≡◌, ◌≤◌, length, IfOk};
ghost use Rattle.hv_programs.specs.Line.{IsPlanned};

use super::*;
use hv_answer::Reply;
use hv_kinds::{AddressType, Generation, SignalChanges, Stage};
use hv_region::{Form, GuestPlan, RegionPlan, VcpuPlan};
use hv_step::{Pin, Sample, Step, Tick};
use hv_text::Bytes;
use std::alloc::{AllocError, Global};
use std::test::Fail;

const GUEST: Generation = Generation { slot: 1, birth: 0 };

fn is_pin(step: &Step) -> bool {
    matches!(step, Step::Pin(_))
}

fn is_claim(step: &Option<Step>) -> bool {
    matches!(step, Some(Step::Name(_)))
}

#[test]
fn owes_the_sample_before_the_pins(rt: HostRuntime) -> Result<(), Fail> {
    let mut owed = Owed::new(rt.alloc());
    owed.make_room(MOST_OWED)?;
    let changes = SignalChanges {
        line: true,
        pins: 2,
    };
    owed.owe(GUEST, 3, Some((2, 7)), changes);
    owed.owe_children(GUEST, 3, &[]);
    let first = owed.next();
    owed.pop();
    let second = owed.next();
    owed.pop();
    let third = owed.next();
    assert!(rt; matches!(first, Some(OwedStep::Sample(Sample { parent: 2, .. }))));
    assert!(rt; matches!(second, Some(OwedStep::Pin(Pin { vcpu: 6, .. }))));
    assert!(rt; third.is_none());
    Ok(())
}

#[test]
fn an_owed_pin_is_a_pin_step(rt: HostRuntime) -> Result<(), Fail> {
    let step = OwedStep::Pin(Pin {
        row: 3,
        vcpu: 6,
        generation: GUEST,
    })
    .step();
    let pin = is_pin(&step);
    drop(step);
    assert!(rt; pin);
    Ok(())
}

#[test]
fn a_hart_is_free_once_it_has_ticked(rt: HostRuntime) -> Result<(), Fail> {
    let mut hart = HartProgram::new(rt.alloc(), 2, 1);
    hart.make_room()?;
    let before = hart.due(0);
    hart.took(
        &Step::Tick(Tick { slot: 0 }),
        &Reply::Tick(None),
        None,
        None,
        None,
    );
    let after = hart.due(0);
    assert!(rt; matches!(before, Row::Ticks { slot: 0 }));
    assert!(rt; matches!(after, Row::Free));
    Ok(())
}

/// A guest with one VCPU and one region.
fn small_plan(alloc: Global) -> Result<GuestPlan, AllocError>
    ensures vcpus { IfOk result (λ plan. length plan.vcpus.items ≡ 1) }
    ensures regions { IfOk result (λ plan. length plan.regions.items ≡ 1) }
{
    let mut vcpus = Vec::new(alloc);
    vcpus.push(VcpuPlan {
        start: 0x8000_0000,
        priority: 1,
        slice: 4,
    })?;
    let mut regions = Vec::new(alloc);
    regions.push(RegionPlan {
        name: Bytes::from_vec(Vec::new(alloc)),
        kind: AddressType::Memory,
        base: 0x8000_0000,
        size: 0x1000,
        form: Form::Ram,
        detached: false,
        clock: false,
        parent: None,
    })?;
    Ok(GuestPlan {
        name: Bytes::from_vec(Vec::new(alloc)),
        vcpus,
        regions,
    })
}

/// Takes the reply to a claim, and says whether it refuses.
fn take_claim(line: &mut Line) -> bool {
    let reply = Reply::Name(Ok(GUEST));
    let refuses = line.why_refused(&reply).is_some();
    line.took(&reply, None);
    refuses
}

#[test]
fn a_creation_claims_and_then_adds(rt: HostRuntime) -> Result<(), Fail> {
    let plan = small_plan(rt.alloc())?;
    let name = Bytes::from_vec(Vec::new(rt.alloc()));
    let mut line = Line::begin(rt.alloc(), Asked::Create(name), Some(&plan))?;
    let step = line.next_step(rt.alloc(), None)?;
    let claims = is_claim(&step);
    drop(step);
    let refuses = take_claim(&mut line);
    let next = line.next_ask();
    assert!(rt; claims && !refuses);
    assert!(rt; matches!(next, Some(Ask::Add(0))));
    Ok(())
}
