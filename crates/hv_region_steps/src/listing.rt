//! The list of a guest's windows, at the directory and at the guest's space.
ghost use Rattle.std.specs.Prelude.{◌∷◌, [], ℕ, map, IfOk};
ghost use Rattle.hv_event.specs.declared.event.ActorId.{ActorId};
ghost use Rattle.hv_event.specs.declared.event.CellId.TheVariants as component;
ghost use Rattle.hv_kinds.specs.declared.stage.Stage.TheVariants as stages;
ghost use Rattle.hv_parts.specs.Admission.{IsAdmitted};
ghost use Rattle.hv_parts.specs.Kinds.{AreOf};
ghost use Rattle.hv_parts.specs.Takes.{IsMadeAt};
ghost use Rattle.hv_parts.specs.Value.{valued};
ghost use Rattle.hv_rules.specs.Footprint.{past_dir};
ghost use Rattle.hv_step.specs.declared.step.Step.TheVariants as steps;

use hv_emu::Emulator;
use hv_guest_steps::regions;
use hv_handed::{Made, Told};
use hv_parts::{Part, space};
use hv_step::Regions;
use std::alloc::{AllocError, Global};

/// Lists the windows of a guest that is admitted.
pub fn regions_at<E: Emulator>(
    alloc: Global,
    step: &Regions,
    parts: &[Part<E>],
) -> Result<Made<E>, AllocError>
    requires parts { AreOf (past_dir step.now.generation (λ guest.
        component.Space guest.slot ∷ [])) (map (valued E.state) parts.now) }
    requires admitted { IsAdmitted (map (valued E.state) parts.now) step.now.name stages.Made
        step.now.generation }
    ensures { IfOk result (λ made. (harts : ℕ) (by : ActorId) → IsMadeAt E.state harts by
        (past_dir step.now.generation (λ guest. component.Space guest.slot ∷ []))
        (steps.Regions step.now) made parts.now parts.now) }
{
    let _ = step;
    let made = regions(alloc, space(&parts[1]))?;
    let (reply, handed) = made;
    Ok(Made {
        reply,
        handed,
        told: Told::nothing(),
    })
}
