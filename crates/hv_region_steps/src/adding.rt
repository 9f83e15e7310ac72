//! Regions that are added to guests, at the directory, the pool, the guest's space and a body.
ghost use Rattle.std.specs.Prelude.{◌≡◌, ◌∷◌, [], ℕ, map, Some, IfOk, OnErr};
ghost use Rattle.hv_event.specs.declared.event.ActorId.{ActorId};
ghost use Rattle.hv_event.specs.declared.event.CellId.TheVariants as component;
ghost use Rattle.hv_guest_steps.specs.Additions.{CanBe, MayAdd, MayNotAdd, region_at};
ghost use Rattle.hv_handed.specs.Given.{given};
ghost use Rattle.hv_parts.specs.Admission.{IsAdmitted};
ghost use Rattle.hv_parts.specs.Kinds.{AreOf};
ghost use Rattle.hv_parts.specs.Takes.{IsMadeAt};
ghost use Rattle.hv_parts.specs.Value.{valued};
ghost use Rattle.hv_rules.specs.Footprint.{past_dir};
ghost use Rattle.hv_step.specs.declared.step.Step.TheVariants as steps;
ghost use Rattle.hv_region_steps.specs.Regions.{changed_row, pool_in, space_in};

use hv_emu::Emulator;
use hv_guest_steps::{GuestRow, NotAdded, add, not_added};
use hv_handed::{Made, Told};
use hv_parts::{Part, body_mut, shelf_mut, space_mut};
use hv_region::RegionPlan;
use hv_step::Add;
use std::alloc::{AllocError, Global};

/// Refuses to add a region to a guest that is admitted: its row has a window, or the window would
/// meet another, or it is an alias of nothing, or no device would do.
pub fn not_added_at<E: Emulator>(
    step: &Add,
    at: GuestRow,
    plan: &RegionPlan,
    why: NotAdded,
    parts: &[Part<E>],
) -> Made<E>
    requires guest { step.now.generation ≡ Some at.guest }
    requires parts { AreOf (past_dir step.now.generation (λ guest. component.Shelf
        ∷ component.Space guest.slot ∷ [])) (map (valued E.state) parts.now) }
    requires admitted { IsAdmitted (map (valued E.state) parts.now) step.now.name step.now.stage
        step.now.generation }
    requires refused { MayNotAdd (space_in (map (valued E.state) parts.now)).windows
        (pool_in (map (valued E.state) parts.now)) (region_at at plan.now) why }
    ensures made { (harts : ℕ) (by : ActorId) → IsMadeAt E.state harts by
        (past_dir step.now.generation (λ guest. component.Shelf
        ∷ component.Space guest.slot ∷ [])) (steps.Add step.now) result parts.now parts.now }
    ensures row { (given E.state result.handed.value).row ≡ Some at.row }
    ensures plan { (given E.state result.handed.value).plan ≡ Some (plan.now, at.vcpus) }
{
    let _ = step;
    let _ = parts;
    let (reply, handed) = not_added(at, plan, why);
    Made {
        reply,
        handed,
        told: Told::nothing(),
    }
}

/// Adds a region to a guest that is admitted, and that may be added. The last part is the body of its
/// row, or of the target of an alias. The actor learns where the region's interrupts go.
pub fn add_at<E: Emulator>(
    alloc: Global,
    step: &Add,
    at: GuestRow,
    plan: &RegionPlan,
    target: Option<(u8, u64)>,
    parts: &mut [Part<E>],
) -> Result<Made<E>, AllocError>
    requires can_be { CanBe (region_at at plan.now) }
    requires guest { step.now.generation ≡ Some at.guest }
    requires parts { AreOf (past_dir step.now.generation (λ guest. component.Shelf
        ∷ component.Space guest.slot ∷ component.Body guest.slot (changed_row at.row target)
        ∷ [])) (map (valued E.state) parts.old) }
    requires admitted { IsAdmitted (map (valued E.state) parts.old) step.now.name step.now.stage
        step.now.generation }
    requires may_add { MayAdd (space_in (map (valued E.state) parts.old)).windows
        (pool_in (map (valued E.state) parts.old)) (region_at at plan.now) target }
    ensures made { IfOk result (λ made. (harts : ℕ) (by : ActorId) → IsMadeAt E.state harts by
        (past_dir step.now.generation (λ guest. component.Shelf
        ∷ component.Space guest.slot ∷ component.Body guest.slot (changed_row at.row target)
        ∷ [])) (steps.Add step.now) made parts.old parts.new) }
    ensures row { IfOk result (λ made. (given E.state made.handed.value).row ≡ Some at.row) }
    ensures plan { IfOk result (λ made. (given E.state made.handed.value).plan
        ≡ Some (plan.now, at.vcpus)) }
    ensures kept { OnErr result (map (valued E.state) parts.new ≡ map (valued E.state) parts.old) }
{
    let _ = step;
    let (front, back) = parts.split_at_mut(2);
    let (spaces, bodies) = back.split_at_mut(1);
    let shelf = shelf_mut(&mut front[1]);
    let space = space_mut(&mut spaces[0]);
    let body = body_mut(&mut bodies[0]);
    let made = add(alloc, shelf, space, body, at, plan, target)?;
    let (reply, handed) = made;
    let mut told = Told::nothing();
    told.parent = plan.parent;
    Ok(Made {
        reply,
        handed,
        told,
    })
}
