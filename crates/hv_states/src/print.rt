//! States as text.
ghost use Rattle.std.specs.Prelude.{◌≡◌, ◌++◌, ◌∷◌, OnOk, codes, false, length, map, true};
ghost use Rattle.std.specs.Fmt.{decimal};
ghost use Rattle.std.specs.List.{flat_map, range_with_len};
ghost use Rattle.hv_data.specs.Text.{state_text};
ghost use Rattle.hv_model.specs.States.{last_of, states_line};
ghost use Rattle.hv_states.specs.ByNumber.{states_in};

use hv_data::push_state;
use hv_kinds::State;
use hv_text::{Bytes, push_decimal};
use std::alloc::{AllocError, Global};

// A state with a space before it.
fn push_spaced(alloc: Global, to: &mut Bytes, state: State) -> Result<(), AllocError>
    ensures { OnOk result (to.new ≡ to.old ++ 32 ∷ state_text state) }
{
    to.append(b" ")?;
    push_state(alloc, to, state)
}

fn push_each(alloc: Global, to: &mut Bytes, states: &[State]) -> Result<(), AllocError>
    ensures { OnOk result (to.new ≡ to.old ++ flat_map (λ s. 32 ∷ state_text s) states.now) }
{
    for state in states {
        push_spaced(alloc, to, *state)?;
    }
    Ok(())
}

fn push_vcpu(alloc: Global, to: &mut Bytes, vcpu: u64) -> Result<(), AllocError>
    ensures { OnOk result (to.new ≡ to.old ++ codes "vcpu " ++ decimal vcpu) }
{
    to.append(b"vcpu ")?;
    push_decimal(alloc, to, vcpu)
}

// All states of a VCPU, of which this is the first one.
fn push_full_line(
    alloc: Global,
    to: &mut Bytes,
    vcpu: u64,
    first: State,
    further: &[State],
) -> Result<(), AllocError>
    ensures { OnOk result (to.new ≡ to.old ++ states_line false vcpu (first ∷ further.now)) }
{
    push_vcpu(alloc, to, vcpu)?;
    push_spaced(alloc, to, first)?;
    push_each(alloc, to, further)?;
    to.append(b"\n")
}

fn last_of(first: State, further: &[State]) -> State
    ensures { result ≡ last_of first further.now }
{
    match further {
        [] => first,
        [.., last] => *last,
    }
}

// How many states a VCPU had, of which this is the first one, and the last one.
fn push_brief_line(
    alloc: Global,
    to: &mut Bytes,
    vcpu: u64,
    first: State,
    further: &[State],
) -> Result<(), AllocError>
    ensures { OnOk result (to.new ≡ to.old ++ states_line true vcpu (first ∷ further.now)) }
{
    push_vcpu(alloc, to, vcpu)?;
    to.append(b" ")?;
    push_decimal(alloc, to, further.len() as u64 + 1)?;
    push_spaced(alloc, to, last_of(first, further))?;
    to.append(b"\n")
}

// A VCPU, if it had a state.
fn push_line(
    alloc: Global,
    to: &mut Bytes,
    brief: bool,
    vcpu: u64,
    states: &[State],
) -> Result<(), AllocError>
    ensures { OnOk result (to.new ≡ to.old ++ states_line brief vcpu states.now) }
{
    match states {
        [] => Ok(()),
        [first, further @ ..] => if brief {
            push_brief_line(alloc, to, vcpu, *first, further)
        } else {
            push_full_line(alloc, to, vcpu, *first, further)
        },
    }
}

/// The VCPUs by number, with these states.
pub(crate) fn push_lines(
    alloc: Global,
    to: &mut Bytes,
    brief: bool,
    lists: &[Vec<State>],
) -> Result<(), AllocError>
    ensures { OnOk result (to.new ≡ to.old
        ++ flat_map (λ v. states_line brief v (states_in (map (λ states. states.items) lists.now) v))
        (range_with_len 0 (length lists.now))) }
{
    for (vcpu, states) in lists.iter().enumerate() {
        push_line(alloc, to, brief, vcpu as u64, states.as_slice())?;
    }
    Ok(())
}
