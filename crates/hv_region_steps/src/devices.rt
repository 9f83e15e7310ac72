//! Steps on the devices of regions, at the directory and at the body of the region's row.
ghost use Rattle.std.specs.Prelude.{◌≡◌, ◌∷◌, [], ℕ, map, Some, IfOk};
ghost use Rattle.hv_body.specs.Body.{seen};
ghost use Rattle.hv_event.specs.declared.event.ActorId.{ActorId};
ghost use Rattle.hv_event.specs.declared.event.CellId.TheVariants as component;
ghost use Rattle.hv_handed.specs.Given.{given};
ghost use Rattle.hv_handed.specs.Told.{IsTold};
ghost use Rattle.hv_kinds.specs.declared.stage.Stage.TheVariants as stages;
ghost use Rattle.hv_parts.specs.Admission.{IsAdmitted};
ghost use Rattle.hv_parts.specs.Kinds.{AreOf};
ghost use Rattle.hv_parts.specs.Takes.{IsMadeAt};
ghost use Rattle.hv_parts.specs.Value.{valued};
ghost use Rattle.hv_rules.specs.Body.{parent_of};
ghost use Rattle.hv_rules.specs.Carry.{nothing};
ghost use Rattle.hv_rules.specs.Footprint.{past_dir};
ghost use Rattle.hv_step.specs.declared.step.Step.TheVariants as steps;

use hv_body::BodyOf;
use hv_device_steps::{devreset, feed, output};
use hv_emu::Emulator;
use hv_handed::{Made, Told};
use hv_parts::{Part, body, body_mut};
use hv_signals::parent_of;
use hv_step::{Devreset, Feed, Output};
use std::alloc::{AllocError, Global};

/// Resets the device of a region, of a guest that is admitted. The actor learns where the region's
/// interrupts go.
pub fn devreset_at<E: Emulator>(step: &Devreset, row: u8, parts: &mut [Part<E>]) -> Made<E>
    requires parts { AreOf (past_dir step.now.generation (λ guest.
        component.Body guest.slot row ∷ [])) (map (valued E.state) parts.old) }
    requires admitted { IsAdmitted (map (valued E.state) parts.old) step.now.name stages.Made
        step.now.generation }
    ensures made { (harts : ℕ) (by : ActorId) → IsMadeAt E.state harts by
        (past_dir step.now.generation (λ guest. component.Body guest.slot row ∷ []))
        (steps.Devreset step.now) result parts.old parts.new }
    ensures row { (given E.state result.handed.value).row ≡ Some row }
{
    let _ = step;
    let body = body_mut(&mut parts[1]);
    let told = told_parent(body);
    let (reply, handed) = devreset(row, body);
    Made {
        reply,
        handed,
        told,
    }
}

/// Sends bytes to the serial device of a region, of a guest that is admitted. The actor learns where
/// the region's interrupts go.
pub fn feed_at<E: Emulator>(step: &Feed, row: u8, parts: &mut [Part<E>]) -> Made<E>
    requires parts { AreOf (past_dir step.now.generation (λ guest.
        component.Body guest.slot row ∷ [])) (map (valued E.state) parts.old) }
    requires admitted { IsAdmitted (map (valued E.state) parts.old) step.now.name stages.Made
        step.now.generation }
    ensures made { (harts : ℕ) (by : ActorId) → IsMadeAt E.state harts by
        (past_dir step.now.generation (λ guest. component.Body guest.slot row ∷ []))
        (steps.Feed step.now) result parts.old parts.new }
    ensures row { (given E.state result.handed.value).row ≡ Some row }
{
    let body = body_mut(&mut parts[1]);
    let told = told_parent(body);
    let (reply, handed) = feed(step, row, body);
    Made {
        reply,
        handed,
        told,
    }
}

/// Reads what the serial device of a region has sent, of a guest that is admitted.
pub fn output_at<E: Emulator>(
    alloc: Global,
    step: &Output,
    row: u8,
    parts: &[Part<E>],
) -> Result<Made<E>, AllocError>
    requires parts { AreOf (past_dir step.now.generation (λ guest.
        component.Body guest.slot row ∷ [])) (map (valued E.state) parts.now) }
    requires admitted { IsAdmitted (map (valued E.state) parts.now) step.now.name stages.Made
        step.now.generation }
    ensures made { IfOk result (λ made. (harts : ℕ) (by : ActorId) → IsMadeAt E.state harts by
        (past_dir step.now.generation (λ guest. component.Body guest.slot row ∷ []))
        (steps.Output step.now) made parts.now parts.now) }
    ensures row { IfOk result (λ made. (given E.state made.handed.value).row ≡ Some row) }
{
    let _ = step;
    let made = output(alloc, row, body(&parts[1]))?;
    let (reply, handed) = made;
    Ok(Made {
        reply,
        handed,
        told: Told::nothing(),
    })
}

// What the actor learns of a region with this body: where its interrupts go.
fn told_parent<E: Emulator>(body: &BodyOf<E>) -> Told
    ensures { (row : ℕ) → IsTold (record nothing {
      row = Some row;
      parent = parent_of (seen E.state body.now);
    }) result }
{
    let mut told = Told::nothing();
    told.parent = parent_of(body);
    told
}
