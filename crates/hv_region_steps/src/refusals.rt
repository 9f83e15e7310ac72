//! Steps by guest that the directory refuses.
ghost use Rattle.std.specs.Prelude.{◌≡◌, ◌∷◌, [], ℕ, map};
ghost use Rattle.std.specs.Option.{option_map};
ghost use Rattle.hv_event.specs.declared.event.ActorId.{ActorId};
ghost use Rattle.hv_event.specs.declared.event.CellId.TheVariants as component;
ghost use Rattle.hv_handed.specs.Given.{given};
ghost use Rattle.hv_parts.specs.Kinds.{AreOf};
ghost use Rattle.hv_parts.specs.Takes.{IsMadeAt};
ghost use Rattle.hv_parts.specs.Value.{valued};
ghost use Rattle.hv_rules.specs.Carry.{nothing};
ghost use Rattle.hv_region_steps.specs.Refused.{IsRefused, refused_carry};

use hv_emu::Emulator;
use hv_guest_steps::refused;
use hv_handed::{Carry, Handed, Made, Told, hand_nothing};
use hv_parts::Part;
use hv_refusal::Refusal;
use hv_region::RegionPlan;
use hv_step::Step;
use std::snapshot::Snapshot;

/// Makes a step by guest that the directory refuses: the reply says why, and nothing else is touched.
/// A step on a region hands its row over, if the guest's plan has it, and an addition its plan too.
pub fn refused_at<E: Emulator>(
    step: &Step,
    why: Refusal,
    row: Option<u8>,
    plan: Option<(Snapshot<RegionPlan>, u8)>,
    parts: &[Part<E>],
) -> Made<E>
    requires parts { AreOf (component.Dir ∷ []) (map (valued E.state) parts.now) }
    requires refused { IsRefused (map (valued E.state) parts.now) step.now row why }
    ensures made { (harts : ℕ) (by : ActorId) → IsMadeAt E.state harts by (component.Dir ∷ [])
        step.now result parts.now parts.now }
    ensures handed { given E.state result.handed.value
        ≡ refused_carry step.now row (option_map (λ plan. (plan.0.value, plan.1)) plan) }
{
    let _ = parts;
    Made {
        reply: refused(step, why),
        handed: hand_asked(step, row, plan),
        told: Told::nothing(),
    }
}

// What a step hands over that is refused.
fn hand_asked<E: Emulator>(
    step: &Step,
    row: Option<u8>,
    plan: Option<(Snapshot<RegionPlan>, u8)>,
) -> Handed<E>
    ensures { given E.state result.value
        ≡ refused_carry step.now row (option_map (λ plan. (plan.0.value, plan.1)) plan) }
{
    match step {
        Step::Add(_) => hand_row(row, plan),
        Step::Drop(_) => hand_row(row, None),
        Step::Devreset(_) => hand_row(row, None),
        Step::Feed(_) => hand_row(row, None),
        Step::Output(_) => hand_row(row, None),
        _ => hand_nothing(),
    }
}

// A row and a plan.
fn hand_row<E: Emulator>(row: Option<u8>, plan: Option<(Snapshot<RegionPlan>, u8)>) -> Handed<E>
    ensures { given E.state result.value ≡ record nothing {
      row = row;
      plan = option_map (λ plan. (plan.0.value, plan.1)) plan;
    } }
{
    let mut carry = Carry::nothing();
    carry.row = row;
    carry.plan = plan;
    Snapshot::of(&carry)
}
