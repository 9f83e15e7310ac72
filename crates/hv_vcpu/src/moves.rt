//! What is asked of a VCPU.

use hv_kinds::State;
use hv_region::VcpuPlan;

/// What leads a VCPU to another state.
#[derive(Clone, Copy, Debug, PartialEq, Eq)]
pub enum Move {
    /// It is there from now on.
    Add {
        /// How many guests were claimed before.
        birth: u64,
        /// Its number in the guest, 0 to 3.
        index: u8,
        plan: VcpuPlan,
    },
    Kick,
    Resume,
    /// The hart of this number begins to run it.
    Dispatch(u8),
    Preempt,
    Pause,
    Halt,
    Reset,
    /// It isn't there any more.
    Drop,
}

/// No move of this kind may be made in this state.
#[derive(Clone, Copy, Debug, PartialEq, Eq)]
pub struct WrongState(pub State);
