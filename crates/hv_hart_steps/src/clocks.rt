//! Ticks of a guest's clock, at the guest's address space and the body of the region that the clock is.
ghost use Rattle.std.specs.Prelude.{◌≡◌, ◌∷◌, [], ℕ, map, None, Some};
ghost use Rattle.std.specs.Option.{option_map};
ghost use Rattle.hv_event.specs.declared.event.ActorId.{ActorId};
ghost use Rattle.hv_event.specs.declared.event.CellId.TheVariants as component;
ghost use Rattle.hv_handed.specs.Told.{IsTold};
ghost use Rattle.hv_hart_steps.specs.Allowed.{HasSpace};
ghost use Rattle.hv_parts.specs.Kinds.{AreOf};
ghost use Rattle.hv_parts.specs.Takes.{IsMadeAt};
ghost use Rattle.hv_parts.specs.Value.{valued};
ghost use Rattle.hv_rules.specs.Carry.{nothing};
ghost use Rattle.hv_step.specs.declared.step.Step.TheVariants as steps;

use hv_device_steps::{tick, tick_nothing};
use hv_emu::Emulator;
use hv_handed::{Made, Told};
use hv_parts::{Part, body_mut, space};
use hv_signals::parent_of;
use hv_step::Tick;

/// Ticks no clock, where none is live.
pub fn tick_nothing_at<E: Emulator>(step: Tick, parts: &[Part<E>]) -> Made<E>
    requires parts { AreOf (component.Space step.slot ∷ []) (map (valued E.state) parts.now) }
    requires none { HasSpace (λ space. space.clock ≡ None) (map (valued E.state) parts.now) }
    ensures { (harts : ℕ) (by : ActorId) → IsMadeAt E.state harts by
        (component.Space step.slot ∷ []) (steps.Tick step) result parts.now parts.now }
{
    let (reply, handed) = tick_nothing(space(&parts[0]));
    Made {
        reply,
        handed,
        told: Told::nothing(),
    }
}

/// Ticks the clock that is live, which is the region in this row.
pub fn tick_at<E: Emulator>(step: Tick, row: u8, parts: &mut [Part<E>]) -> Made<E>
    requires parts { AreOf (component.Space step.slot ∷ component.Body step.slot row ∷ [])
        (map (valued E.state) parts.old) }
    requires clock { HasSpace (λ space. option_map (λ clock. clock.0) space.clock ≡ Some row)
        (map (valued E.state) parts.old) }
    ensures { (harts : ℕ) (by : ActorId) → IsMadeAt E.state harts by
        (component.Space step.slot ∷ component.Body step.slot row ∷ []) (steps.Tick step)
        result parts.old parts.new }
{
    let _ = row;
    let (front, back) = parts.split_at_mut(1);
    let space = space(&front[0]);
    let body = body_mut(&mut back[0]);
    let told = tell_clock(space.clock(), parent_of(body));
    let (reply, handed) = tick(space, body);
    Made {
        reply,
        handed,
        told,
    }
}

// The hart learns which clock ticked, and where its interrupts go.
fn tell_clock(clock: Option<(u8, u64)>, parent: Option<(u8, u8)>) -> Told
    ensures { IsTold (record nothing { clock = clock; parent = parent }) result }
{
    let mut told = Told::nothing();
    told.clock = clock;
    told.parent = parent;
    told
}
