//! Fetches, at a VCPU and the region that holds its pc.
ghost use Rattle.std.specs.Prelude.{◌≡◌, ◌+◌, ◌∷◌, [], ℕ, map, None, Some, IfSome};
ghost use Rattle.hv_answer.specs.declared.reply.Reply.{Reply};
ghost use Rattle.hv_event.specs.declared.event.ActorId.TheVariants.{Hart};
ghost use Rattle.hv_event.specs.declared.event.CellId.TheVariants as component;
ghost use Rattle.hv_parts.specs.Kinds.{AreOf};
ghost use Rattle.hv_parts.specs.Takes.{IsMadeAt};
ghost use Rattle.hv_parts.specs.Value.{valued};
ghost use Rattle.hv_rules.specs.Body.{ShowsWord, area_in};
ghost use Rattle.hv_rules.specs.Footprint.{reached};
ghost use Rattle.hv_step.specs.declared.step.Step.TheVariants as steps;
ghost use Rattle.hv_vcpu_steps.specs.Instructions.{IsPending};
ghost use Rattle.hv_access_steps.specs.First.{HasBytes, LastHas, fetch_first};

use hv_emu::Emulator;
use hv_handed::Made;
use hv_memory_steps::{fetch, fetch_shared};
use hv_parts::{Part, area, body, vcpu_mut};
use hv_step::Fetch;

/// Fetches an instruction of a VCPU that a hart runs, and carries it out. Where the region shares an
/// area, the area and the offset there are told, and it stands last. None where the VCPU doesn't
/// fetch for the hart, or no window of the region holds its pc.
pub fn fetch_at<E: Emulator>(
    hart: u8,
    step: Fetch,
    place: Option<(u8, u64)>,
    parts: &mut [Part<E>],
) -> Option<Made<E>>
    requires parts { AreOf (component.Vcpu step.vcpu ∷ reached step.generation step.row place)
        (map (valued E.state) parts.old) }
    requires place { place ≡ area_in (fetch_first hart step (map (valued E.state) parts.old)) }
    requires bytes { HasBytes 4 place (map (valued E.state) parts.old) }
    ensures made { IfSome result (λ made. (harts : ℕ) → IsMadeAt E.state harts (Hart hart)
        (component.Vcpu step.vcpu ∷ reached step.generation step.row place) (steps.Fetch step) made
        parts.old parts.new) }
    ensures pending { IfSome result (λ made. IfSome made.told.pending IsPending) }
    ensures none { result ≡ None → (r : Reply)
        → ShowsWord (fetch_first hart step (map (valued E.state) parts.old)) r → ⊥ }
    ensures kept { result ≡ None → map (valued E.state) parts.new ≡ map (valued E.state) parts.old }
{
    match place {
        None => fetch_own(hart, step, parts),
        Some(place) => Some(fetch_area(hart, step, place, parts)),
    }
}

// Fetches what the region has of its own.
fn fetch_own<E: Emulator>(hart: u8, step: Fetch, parts: &mut [Part<E>]) -> Option<Made<E>>
    requires parts { AreOf (component.Vcpu step.vcpu
        ∷ component.Body step.generation.slot step.row ∷ []) (map (valued E.state) parts.old) }
    requires own { area_in (fetch_first hart step (map (valued E.state) parts.old)) ≡ None }
    ensures made { IfSome result (λ made. (harts : ℕ) → IsMadeAt E.state harts (Hart hart)
        (component.Vcpu step.vcpu ∷ component.Body step.generation.slot step.row ∷ []) (steps.Fetch step) made
        parts.old parts.new) }
    ensures pending { IfSome result (λ made. IfSome made.told.pending IsPending) }
    ensures none { result ≡ None → (r : Reply)
        → ShowsWord (fetch_first hart step (map (valued E.state) parts.old)) r → ⊥ }
    ensures kept { result ≡ None → map (valued E.state) parts.new ≡ map (valued E.state) parts.old }
{
    let (first, others) = parts.split_at_mut(1);
    fetch(hart, step, vcpu_mut(&mut first[0]), body(&others[0]))
}

// Fetches what the area has that the region shares.
fn fetch_area<E: Emulator>(
    hart: u8,
    step: Fetch,
    place: (u8, u64),
    parts: &mut [Part<E>],
) -> Made<E>
    requires parts { AreOf (component.Vcpu step.vcpu
        ∷ component.Body step.generation.slot step.row ∷ component.Area place.0 ∷ [])
        (map (valued E.state) parts.old) }
    requires shared { area_in (fetch_first hart step (map (valued E.state) parts.old))
        ≡ Some place }
    requires bytes { LastHas (place.1 + 4) (map (valued E.state) parts.old) }
    ensures made { (harts : ℕ) → IsMadeAt E.state harts (Hart hart) (component.Vcpu step.vcpu
        ∷ component.Body step.generation.slot step.row ∷ component.Area place.0 ∷ [])
        (steps.Fetch step) result parts.old parts.new }
    ensures pending { IfSome result.told.pending IsPending }
{
    let _ = place;
    let (first, others) = parts.split_at_mut(1);
    fetch_shared(
        hart,
        step,
        vcpu_mut(&mut first[0]),
        body(&others[0]),
        area(&others[1]),
    )
}
