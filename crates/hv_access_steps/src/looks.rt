//! Looks at the memory of guests.
ghost use Rattle.std.specs.Prelude.{◌≡◌, ◌+◌, ◌∷◌, [], ℕ, map, None, Some, IfOk};
ghost use Rattle.hv_event.specs.declared.event.ActorId.{ActorId};
ghost use Rattle.hv_event.specs.declared.event.CellId.TheVariants as component;
ghost use Rattle.hv_handed.specs.Given.{given};
ghost use Rattle.hv_kinds.specs.declared.stage.Stage.TheVariants as stages;
ghost use Rattle.hv_memory_steps.specs.Hands.{mem_carry};
ghost use Rattle.hv_parts.specs.Admission.{IsAdmitted};
ghost use Rattle.hv_parts.specs.Kinds.{AreOf};
ghost use Rattle.hv_parts.specs.Takes.{IsMadeAt, IsTakenAt};
ghost use Rattle.hv_parts.specs.Value.{valued};
ghost use Rattle.hv_rules.specs.Carry.{nothing};
ghost use Rattle.hv_rules.specs.Footprint.{past_dir, reached_by};
ghost use Rattle.hv_step.specs.declared.step.Step.TheVariants as steps;
ghost use Rattle.hv_access_steps.specs.First.{HasBytes, LastHas, area_first, behind, window_first};

use hv_emu::Emulator;
use hv_handed::Made;
use hv_kinds::Generation;
use hv_memory_steps::{mem, mem_nowhere, mem_shared};
use hv_parts::{Part, area, body, space};
use hv_region::Window;
use hv_step::Mem;
use std::alloc::{AllocError, Global};

/// Looks at the memory of a guest that the directory admits. The window that holds it is told, and
/// the area that its region shares with the offset there, which stands last.
pub fn mem_at<E: Emulator>(
    alloc: Global,
    step: &Mem,
    window: Option<Window>,
    place: Option<(u8, u64)>,
    parts: &[Part<E>],
) -> Result<Made<E>, AllocError>
    requires admitted { IsAdmitted (map (valued E.state) parts.now) step.now.name stages.Made
        step.now.generation }
    requires parts { AreOf (past_dir step.now.generation
        (λ g. component.Space g.slot ∷ reached_by g window place)) (map (valued E.state) parts.now) }
    requires window { window ≡ window_first step.now.address step.now.count
        (behind (map (valued E.state) parts.now)) }
    requires place { place ≡ area_first window step.now.address step.now.count
        (behind (map (valued E.state) parts.now)) }
    requires bytes { HasBytes step.now.count place (behind (map (valued E.state) parts.now)) }
    ensures { IfOk result (λ made. (harts : ℕ) (by : ActorId) → IsMadeAt E.state harts by
        (past_dir step.now.generation (λ g. component.Space g.slot ∷ reached_by g window place))
        (steps.Mem step.now) made parts.now parts.now) }
{
    let Some(generation) = step.generation else {
        unreachable!();
    };
    let (_, others) = parts.split_at(1);
    match window {
        None => Ok(mem_outside(step, generation, others)),
        Some(window) => match place {
            None => mem_own(alloc, step, generation, window, others),
            Some(place) => mem_area(alloc, step, generation, window, place, others),
        },
    }
}

// Looks where no window is, behind the directory.
fn mem_outside<E: Emulator>(step: &Mem, generation: Generation, parts: &[Part<E>]) -> Made<E>
    requires parts { AreOf (component.Space generation.slot ∷ []) (map (valued E.state) parts.now) }
    requires window { window_first step.now.address step.now.count (map (valued E.state) parts.now)
        ≡ None }
    ensures taken { IsTakenAt E.state (component.Space generation.slot ∷ []) (steps.Mem step.now)
        result parts.now parts.now }
    ensures handed { given E.state result.handed.value ≡ nothing }
{
    let _ = generation;
    mem_nowhere(step, space(&parts[0]))
}

// Looks at what a region has of its own, behind the directory.
fn mem_own<E: Emulator>(
    alloc: Global,
    step: &Mem,
    generation: Generation,
    window: Window,
    parts: &[Part<E>],
) -> Result<Made<E>, AllocError>
    requires parts { AreOf (component.Space generation.slot
        ∷ component.Body generation.slot window.target ∷ []) (map (valued E.state) parts.now) }
    requires window { window_first step.now.address step.now.count (map (valued E.state) parts.now)
        ≡ Some window }
    requires own { area_first (Some window) step.now.address step.now.count
        (map (valued E.state) parts.now) ≡ None }
    ensures taken { IfOk result (λ made. IsTakenAt E.state (component.Space generation.slot
        ∷ component.Body generation.slot window.target ∷ []) (steps.Mem step.now) made
        parts.now parts.now) }
    ensures handed { IfOk result (λ made. given E.state made.handed.value ≡ mem_carry window None) }
{
    let _ = generation;
    mem(alloc, step, space(&parts[0]), window, body(&parts[1]))
}

// Looks at the area that a region shares, behind the directory.
fn mem_area<E: Emulator>(
    alloc: Global,
    step: &Mem,
    generation: Generation,
    window: Window,
    place: (u8, u64),
    parts: &[Part<E>],
) -> Result<Made<E>, AllocError>
    requires parts { AreOf (component.Space generation.slot
        ∷ component.Body generation.slot window.target ∷ component.Area place.0 ∷ [])
        (map (valued E.state) parts.now) }
    requires window { window_first step.now.address step.now.count (map (valued E.state) parts.now)
        ≡ Some window }
    requires shared { area_first (Some window) step.now.address step.now.count
        (map (valued E.state) parts.now) ≡ Some place }
    requires bytes { LastHas (place.1 + step.now.count) (map (valued E.state) parts.now) }
    ensures taken { IfOk result (λ made. IsTakenAt E.state (component.Space generation.slot
        ∷ component.Body generation.slot window.target ∷ component.Area place.0 ∷ [])
        (steps.Mem step.now) made parts.now parts.now) }
    ensures handed { IfOk result (λ made. given E.state made.handed.value
        ≡ mem_carry window (Some place)) }
{
    let _ = generation;
    let _ = place;
    mem_shared(
        alloc,
        step,
        space(&parts[0]),
        window,
        body(&parts[1]),
        area(&parts[2]),
    )
}
