//! What steps do to VCPUs and to queues: a function a step, over exactly these components.
//! home: the queue to which a VCPU goes that becomes ready
//! orphan: VCPU 0, which is of no guest and balances the queues
#![tactic(auto)]

mod additions;
mod arrivals;
mod balancing;
mod departures;
mod hands;
mod instructions;
mod lengths;
mod looks;
mod moves;
mod signals;
#[cfg(test)]
mod tests;
mod turns;

pub use additions::vadd;
pub use arrivals::{kick, resume};
pub use balancing::{balance, balance_queue, measure};
pub use departures::{halt, leave_queue, pause, reset, vdrop};
pub use hands::hand_balance;
pub use instructions::{Executed, access, fault, fetch, fetches_at, is_run_of};
pub use lengths::{tell_move, uneven};
pub use looks::look;
pub use moves::runs_on;
pub use signals::pin;
pub use turns::{dispatch, idle, leave, preempt, take};
