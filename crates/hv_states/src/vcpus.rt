//! The states of all VCPUs.
ghost use Rattle.std.specs.Prelude.{◌≡◌, ◌++◌, IfOk, OnOk, OnErr, Some};
ghost use Rattle.hv_model.specs.States.{first_states, led_to, states_shown};
ghost use Rattle.hv_states.specs.ByNumber.{by_number, states_in, with_change};

use crate::led::led_to;
use crate::print::push_lines;
use hv_event::Event;
use hv_kinds::State;
use hv_text::{Bytes, VCPUS};
use std::alloc::{AllocError, Global};
use std::marker::Model;

/// The states that each VCPU of a board had, in order of change, which contracts see as the list of
/// the VCPUs' lists, by number.
#[derive(Drop)]
pub struct VcpuStates {
    lists: Vec<Vec<State>>,
}

impl Model for VcpuStates {
    ghost use Rattle.std.specs.Prelude.{◌≡◌, List, length, map};
    ghost use Rattle.hv_kinds.specs.declared.state.State.{State};
    ghost use Rattle.hv_text.specs.declared.limits.TheConstants.{VCPUS};

    ghost Value = { List (List State) };

    ghost view = { λ s. map (λ states. states.items) s.lists.items };

    ghost invariant = { λ s. length s.lists.items ≡ VCPUS };
}

// The states of a VCPU at the start.
fn first_states(alloc: Global, vcpu: usize) -> Result<Vec<State>, AllocError>
    ensures { IfOk result (λ states. states.items ≡ first_states vcpu) }
{
    let mut states = Vec::new(alloc);
    if vcpu == 0 {
        states.push(State::Reset)?;
    }
    Ok(states)
}

impl VcpuStates {
    /// The states at the start.
    pub fn new(alloc: Global) -> Result<VcpuStates, AllocError>
        ensures { IfOk result (λ states. states ≡ by_number first_states) }
    {
        let mut lists = Vec::new(alloc);
        for vcpu in 0..VCPUS {
            lists.push(first_states(alloc, vcpu)?)?;
        }
        Ok(VcpuStates { lists })
    }

    // Adds a state to which a VCPU came. A number past those of VCPUs is left out.
    fn add(&mut self, vcpu: u8, state: State) -> Result<(), AllocError>
        ensures ok { OnOk result (self.new ≡ with_change self.old (Some (vcpu, state))) }
        ensures err { OnErr result (self.new ≡ self.old) }
    {
        match self.lists.get_mut(usize::from(vcpu)) {
            Some(states) => {
                states.push(state)?;
                Ok(())
            }
            None => Ok(()),
        }
    }

    /// Takes the state to which an event leads. At `Err` nothing has changed.
    pub fn take(&mut self, event: &Event) -> Result<(), AllocError>
        ensures ok { OnOk result
            (self.new ≡ with_change self.old (led_to event.now.actor event.now.step event.now.reply)) }
        ensures err { OnErr result (self.new ≡ self.old) }
    {
        match led_to(event.actor, &event.step, &event.reply) {
            Some((vcpu, state)) => self.add(vcpu, state),
            None => Ok(()),
        }
    }

    /// Appends a line for each VCPU that had a state, by number: with all of them, or briefly with
    /// their number and the last one. When memory runs out, what was appended so far may stand.
    pub fn push_text(&self, alloc: Global, to: &mut Bytes, brief: bool) -> Result<(), AllocError>
        ensures { OnOk result (to.new ≡ to.old ++ states_shown brief (states_in self.now)) }
    {
        to.append(b"states\n")?;
        push_lines(alloc, to, brief, &self.lists)
    }
}
