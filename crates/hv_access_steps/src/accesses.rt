//! Accesses, at a VCPU and the region that it reaches.
ghost use Rattle.std.specs.Prelude.{◌≡◌, ◌+◌, ◌∷◌, [], ℕ, map, None, Some, IfSome};
ghost use Rattle.hv_answer.specs.declared.reply.Reply.{Reply};
ghost use Rattle.hv_event.specs.declared.event.ActorId.TheVariants.{Hart};
ghost use Rattle.hv_event.specs.declared.event.CellId.TheVariants as component;
ghost use Rattle.hv_kinds.specs.declared.changes.SignalChanges.{SignalChanges};
ghost use Rattle.hv_memory_steps.specs.Accesses.{Makes};
ghost use Rattle.hv_parts.specs.Kinds.{AreOf};
ghost use Rattle.hv_parts.specs.Takes.{IsMadeAt};
ghost use Rattle.hv_parts.specs.Value.{valued};
ghost use Rattle.hv_rules.specs.Body.{ShowsAccess, area_in};
ghost use Rattle.hv_rules.specs.Footprint.{reached};
ghost use Rattle.hv_step.specs.declared.step.Step.TheVariants as steps;
ghost use Rattle.hv_vcpu_steps.specs.Instructions.{IsPending};
ghost use Rattle.hv_access_steps.specs.First.{HasBytes, LastHas, access_first};

use hv_emu::Emulator;
use hv_handed::{Made, Pending};
use hv_memory_steps::{access, access_shared};
use hv_parts::{Part, area_mut, body, body_mut, vcpu_mut};
use hv_step::Access;

/// Makes the access that a VCPU's instruction left pending, and ends the instruction. Where the
/// region shares an area, the area and the offset there are told, and it stands last. None where the
/// VCPU doesn't run on the hart, or no window of the region holds the access.
pub fn access_at<E: Emulator>(
    hart: u8,
    step: Access,
    pending: Pending,
    place: Option<(u8, u64)>,
    parts: &mut [Part<E>],
) -> Option<Made<E>>
    requires pending { IsPending pending }
    requires step { Makes pending step }
    requires parts { AreOf (component.Vcpu step.vcpu ∷ reached step.generation step.row place)
        (map (valued E.state) parts.old) }
    requires place { place ≡ area_in (access_first hart step (map (valued E.state) parts.old)) }
    requires bytes { HasBytes step.size place (map (valued E.state) parts.old) }
    ensures made { IfSome result (λ made. (harts : ℕ) → IsMadeAt E.state harts (Hart hart)
        (component.Vcpu step.vcpu ∷ reached step.generation step.row place) (steps.Access step) made
        parts.old parts.new) }
    ensures none { result ≡ None → (changed : SignalChanges) (r : Reply)
        → ShowsAccess (access_first hart step (map (valued E.state) parts.old)) changed r → ⊥ }
    ensures kept { result ≡ None → map (valued E.state) parts.new ≡ map (valued E.state) parts.old }
{
    match place {
        None => access_own(hart, step, pending, parts),
        Some(place) => Some(access_area(hart, step, pending, place, parts)),
    }
}

// Makes the access at what the region has of its own.
fn access_own<E: Emulator>(
    hart: u8,
    step: Access,
    pending: Pending,
    parts: &mut [Part<E>],
) -> Option<Made<E>>
    requires pending { IsPending pending }
    requires step { Makes pending step }
    requires parts { AreOf (component.Vcpu step.vcpu
        ∷ component.Body step.generation.slot step.row ∷ []) (map (valued E.state) parts.old) }
    requires own { area_in (access_first hart step (map (valued E.state) parts.old)) ≡ None }
    ensures made { IfSome result (λ made. (harts : ℕ) → IsMadeAt E.state harts (Hart hart)
        (component.Vcpu step.vcpu ∷ component.Body step.generation.slot step.row ∷ [])
        (steps.Access step) made parts.old parts.new) }
    ensures none { result ≡ None → (changed : SignalChanges) (r : Reply)
        → ShowsAccess (access_first hart step (map (valued E.state) parts.old)) changed r → ⊥ }
    ensures kept { result ≡ None → map (valued E.state) parts.new ≡ map (valued E.state) parts.old }
{
    let (first, others) = parts.split_at_mut(1);
    access(
        hart,
        step,
        pending,
        vcpu_mut(&mut first[0]),
        body_mut(&mut others[0]),
    )
}

// Makes the access at the area that the region shares.
fn access_area<E: Emulator>(
    hart: u8,
    step: Access,
    pending: Pending,
    place: (u8, u64),
    parts: &mut [Part<E>],
) -> Made<E>
    requires pending { IsPending pending }
    requires step { Makes pending step }
    requires parts { AreOf (component.Vcpu step.vcpu
        ∷ component.Body step.generation.slot step.row ∷ component.Area place.0 ∷ [])
        (map (valued E.state) parts.old) }
    requires shared { area_in (access_first hart step (map (valued E.state) parts.old))
        ≡ Some place }
    requires bytes { LastHas (place.1 + step.size) (map (valued E.state) parts.old) }
    ensures { (harts : ℕ) → IsMadeAt E.state harts (Hart hart) (component.Vcpu step.vcpu
        ∷ component.Body step.generation.slot step.row ∷ component.Area place.0 ∷ [])
        (steps.Access step) result parts.old parts.new }
{
    let _ = place;
    let (first, others) = parts.split_at_mut(1);
    let (second, third) = others.split_at_mut(1);
    access_shared(
        hart,
        step,
        pending,
        vcpu_mut(&mut first[0]),
        body(&second[0]),
        area_mut(&mut third[0]),
    )
}
