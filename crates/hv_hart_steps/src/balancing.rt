//! The balancing of all queues, by the hart that runs VCPU 0.
ghost use Rattle.std.specs.Prelude.{◌≡◌, ◌+◌, ◌<◌, ◌≤◌, ◌∷◌, ◌++◌, [], All, drop, length, map, take, true, IfOk, OnErr};
ghost use Rattle.hv_event.specs.declared.event.ActorId.TheVariants.{Hart};
ghost use Rattle.hv_event.specs.declared.event.CellId.TheVariants as component;
ghost use Rattle.hv_handed.specs.Given.{given};
ghost use Rattle.hv_hart_steps.specs.Allowed.{HasVcpu};
ghost use Rattle.hv_parts.specs.Kinds.{AreOf, IsPartOf};
ghost use Rattle.hv_parts.specs.Takes.{IsMadeAt};
ghost use Rattle.hv_parts.specs.Value.{valued};
ghost use Rattle.hv_rules.specs.Footprint.{all_queues};
ghost use Rattle.hv_rules.specs.Vcpu.{runs_on};
ghost use Rattle.hv_step.specs.declared.step.Step.TheVariants as steps;
ghost use Rattle.hv_text.specs.declared.limits.TheConstants.{HARTS};

use crate::lengths::{entry_moved, lengths_of};
use crate::queues::balance_queues;
use hv_emu::Emulator;
use hv_handed::{Made, Told};
use hv_parts::{Part, vcpu};
use hv_step::Balance;
use hv_vcpu_steps::balance;
use std::alloc::{AllocError, Global};

/// Balances the queues of all harts, where VCPU 0 runs on the hart; at Err the parts are as they were.
pub fn balance_at<E: Emulator>(
    alloc: Global,
    hart: u8,
    harts: u8,
    step: Balance,
    parts: &mut [Part<E>],
) -> Result<Made<E>, AllocError>
    requires some { 0 < harts }
    requires few { harts ≤ HARTS }
    requires parts { AreOf (all_queues harts ++ component.Vcpu 0 ∷ [])
        (map (valued E.state) parts.old) }
    requires runs { HasVcpu (λ vcpu. runs_on (Hart hart) vcpu.state ≡ true)
        (map (valued E.state) parts.old) }
    ensures made { IfOk result (λ made. IsMadeAt E.state harts (Hart hart)
        (all_queues harts ++ component.Vcpu 0 ∷ []) (steps.Balance step) made
        parts.old parts.new) }
    ensures lengths { IfOk result (λ made. length (given E.state made.handed.value).lengths
        ≡ harts) }
    ensures kept { OnErr result (map (valued E.state) parts.new ≡ map (valued E.state) parts.old) }
{
    balance_behind(alloc, hart, harts, step, parts)
}

// The same where all queues stand before VCPU 0.
fn balance_behind<E: Emulator>(
    alloc: Global,
    hart: u8,
    harts: u8,
    step: Balance,
    parts: &mut [Part<E>],
) -> Result<Made<E>, AllocError>
    requires some { 0 < harts }
    requires few { harts ≤ HARTS }
    requires long { length parts.old ≡ harts + 1 }
    requires queues { All (λ place. IsPartOf (component.Queue 0) (valued E.state place))
        (take harts parts.old) }
    requires vcpu { AreOf (component.Vcpu 0 ∷ []) (map (valued E.state) (drop harts parts.old)) }
    requires runs { HasVcpu (λ vcpu. runs_on (Hart hart) vcpu.state ≡ true)
        (map (valued E.state) (drop harts parts.old)) }
    ensures made { IfOk result (λ made. IsMadeAt E.state harts (Hart hart)
        (all_queues harts ++ component.Vcpu 0 ∷ []) (steps.Balance step) made
        parts.old parts.new) }
    ensures lengths { IfOk result (λ made. length (given E.state made.handed.value).lengths
        ≡ harts) }
    ensures kept { OnErr result (map (valued E.state) parts.new ≡ map (valued E.state) parts.old) }
{
    let (queues, places) = parts.split_at_mut(harts as usize);
    let lengths = lengths_of(alloc, queues)?;
    let moved = entry_moved(&lengths, queues);
    let Some((reply, handed)) = balance(hart, step, &lengths, moved, vcpu(&places[0])) else {
        unreachable!()
    };
    balance_queues(&lengths, moved, queues);
    Ok(Made {
        reply,
        handed,
        told: Told::nothing(),
    })
}
