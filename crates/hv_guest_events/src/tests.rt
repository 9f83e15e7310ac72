//! What steps touch that actors owe.

use crate::owed::touched;
use hv_event::CellId;
use hv_kinds::Generation;
use hv_step::{Pin, Sample, Step};
use std::test::Fail;

const GUEST: Generation = Generation { slot: 1, birth: 7 };

#[test]
fn locks_a_parent_before_a_higher_row(rt: HostRuntime) -> Result<(), Fail> {
    let step = Step::Sample(Sample {
        row: 5,
        parent: 2,
        source: 3,
        generation: GUEST,
    });
    let xs = touched(rt.alloc(), 2, &step)?;
    let parts = [CellId::Body(1, 2), CellId::Body(1, 5)];
    assert!(rt; xs.as_slice() == parts.as_slice());
    Ok(())
}

#[test]
fn pins_at_the_home_queue(rt: HostRuntime) -> Result<(), Fail> {
    let step = Step::Pin(Pin {
        row: 5,
        vcpu: 3,
        generation: GUEST,
    });
    let xs = touched(rt.alloc(), 2, &step)?;
    let parts = [CellId::Queue(1), CellId::Vcpu(3), CellId::Body(1, 5)];
    assert!(rt; xs.as_slice() == parts.as_slice());
    Ok(())
}
