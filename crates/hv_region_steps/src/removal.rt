//! Regions of guests that are dropped, at the directory, the pool, the guest's space and a body.
ghost use Rattle.std.specs.Prelude.{◌≡◌, ◌∷◌, [], ℕ, map, find, Some, None, IfOk, OnErr};
ghost use Rattle.hv_body.specs.Body.{seen};
ghost use Rattle.hv_event.specs.declared.event.ActorId.{ActorId};
ghost use Rattle.hv_event.specs.declared.event.CellId.TheVariants as component;
ghost use Rattle.hv_handed.specs.Given.{given};
ghost use Rattle.hv_parts.specs.Admission.{IsAdmitted};
ghost use Rattle.hv_parts.specs.Kinds.{AreOf};
ghost use Rattle.hv_parts.specs.Takes.{IsMadeAt};
ghost use Rattle.hv_parts.specs.Value.{valued};
ghost use Rattle.hv_rules.specs.Body.{parent_of, unless_alias};
ghost use Rattle.hv_rules.specs.Footprint.{past_dir};
ghost use Rattle.hv_rules.specs.Space.{alias_in, is_of};
ghost use Rattle.hv_step.specs.declared.step.Step.TheVariants as steps;
ghost use Rattle.hv_region_steps.specs.Regions.{changed_row, space_in};

use hv_body::BodyOf;
use hv_emu::Emulator;
use hv_guest_steps::{drop, not_live};
use hv_handed::{Made, Told};
use hv_parts::{Part, body_mut, shelf_mut, space_mut};
use hv_region::Window;
use hv_signals::parent_of;
use hv_step::Drop;
use std::alloc::{AllocError, Global};

/// Refuses to drop a region that isn't live, of a guest that is admitted.
pub fn not_live_at<E: Emulator>(step: &Drop, row: u8, parts: &[Part<E>]) -> Made<E>
    requires parts { AreOf (past_dir step.now.generation (λ guest. component.Shelf
        ∷ component.Space guest.slot ∷ [])) (map (valued E.state) parts.now) }
    requires admitted { IsAdmitted (map (valued E.state) parts.now) step.now.name step.now.stage
        step.now.generation }
    requires gone { find (is_of row) (space_in (map (valued E.state) parts.now)).windows ≡ None }
    ensures made { (harts : ℕ) (by : ActorId) → IsMadeAt E.state harts by
        (past_dir step.now.generation (λ guest. component.Shelf
        ∷ component.Space guest.slot ∷ [])) (steps.Drop step.now) result parts.now parts.now }
    ensures row { (given E.state result.handed.value).row ≡ Some row }
{
    let _ = step;
    let _ = parts;
    let (reply, handed) = not_live(row);
    Made {
        reply,
        handed,
        told: Told::nothing(),
    }
}

/// Drops a region that has this window, of a guest that is admitted. The last part is the body of its
/// row, or of the target of an alias. The actor learns where the region's interrupts went.
pub fn drop_at<E: Emulator>(
    alloc: Global,
    step: &Drop,
    row: u8,
    window: Window,
    parts: &mut [Part<E>],
) -> Result<Made<E>, AllocError>
    requires parts { AreOf (past_dir step.now.generation (λ guest. component.Shelf
        ∷ component.Space guest.slot ∷ component.Body guest.slot (changed_row row
        (alias_in window)) ∷ [])) (map (valued E.state) parts.old) }
    requires admitted { IsAdmitted (map (valued E.state) parts.old) step.now.name step.now.stage
        step.now.generation }
    requires live { find (is_of row) (space_in (map (valued E.state) parts.old)).windows
        ≡ Some window }
    ensures made { IfOk result (λ made. (harts : ℕ) (by : ActorId) → IsMadeAt E.state harts by
        (past_dir step.now.generation (λ guest. component.Shelf
        ∷ component.Space guest.slot ∷ component.Body guest.slot (changed_row row
        (alias_in window)) ∷ [])) (steps.Drop step.now) made parts.old parts.new) }
    ensures row { IfOk result (λ made. (given E.state made.handed.value).row ≡ Some row) }
    ensures kept { OnErr result (map (valued E.state) parts.new ≡ map (valued E.state) parts.old) }
{
    let _ = step;
    let (front, back) = parts.split_at_mut(2);
    let (spaces, bodies) = back.split_at_mut(1);
    let shelf = shelf_mut(&mut front[1]);
    let space = space_mut(&mut spaces[0]);
    let body = body_mut(&mut bodies[0]);
    let mut told = Told::nothing();
    told.parent = parent_dropped(window, body);
    let made = drop(alloc, shelf, space, body, row, window)?;
    let (reply, handed) = made;
    Ok(Made {
        reply,
        handed,
        told,
    })
}

// Where the interrupts of a region with this window and this body go; those of an alias go nowhere.
fn parent_dropped<E: Emulator>(window: Window, body: &BodyOf<E>) -> Option<(u8, u8)>
    ensures { result ≡ unless_alias (alias_in window) (parent_of (seen E.state body.now)) }
{
    if window.owner == window.target {
        parent_of(body)
    } else {
        None
    }
}
