//! The transitions between the states.
ghost use Rattle.std.specs.Prelude.{◌≡◌};
ghost use Rattle.hv_vcpu.specs.Table.{led};

use crate::moves::{Move, WrongState};
use hv_kinds::State;

/// The state that a move leads to.
pub(crate) fn led(to: Move, from: State) -> Result<State, WrongState>
    ensures { result ≡ led to from }
{
    match (to, from) {
        (Move::Add { .. }, State::Unknown) => Ok(State::Reset),
        (Move::Kick, State::Reset) => Ok(State::Ready),
        (Move::Resume, State::Paused(_)) => Ok(State::Ready),
        (Move::Dispatch(hart), State::Ready) => Ok(State::Running(hart)),
        (Move::Preempt, State::Running(_)) => Ok(State::Ready),
        (Move::Pause, State::Ready | State::Running(_)) => Ok(State::Paused(false)),
        (Move::Halt, State::Ready | State::Running(_)) => Ok(State::Halted),
        (Move::Reset, State::Ready | State::Running(_) | State::Paused(_) | State::Halted) => Ok(
            State::Reset,
        ),
        (
            Move::Drop,
            State::Reset | State::Ready | State::Running(_) | State::Paused(_) | State::Halted,
        ) => Ok(State::Unknown),
        _ => Err(WrongState(from)),
    }
}
