//! The states that a history tells.
ghost use Rattle.std.specs.Prelude.{◌≡◌, ◌++◌, OnOk};
ghost use Rattle.hv_model.specs.States.{states_text};

use crate::vcpus::VcpuStates;
use hv_event::Event;
use hv_text::Bytes;
use std::alloc::{AllocError, Global};

/// Appends the states that the VCPUs of a board had, as a history tells them: all of them, or
/// briefly their number and the last one. When memory runs out, what was appended so far may stand.
pub fn push_states(
    alloc: Global,
    to: &mut Bytes,
    brief: bool,
    history: &[Event],
) -> Result<(), AllocError>
    ensures { OnOk result (to.new ≡ to.old ++ states_text brief history.now) }
{
    let mut states = VcpuStates::new(alloc)?;
    for event in history {
        states.take(event)?;
    }
    states.push_text(alloc, to, brief)
}
