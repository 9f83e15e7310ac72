//! Ticks of a guest's clock.
ghost use Rattle.std.specs.Prelude.{◌≡◌, ℕ, None, IsSome};
ghost use Rattle.hv_body.specs.Body.{seen};
ghost use Rattle.hv_handed.specs.Given.{given};
ghost use Rattle.hv_handed.specs.Takes.{BodyTakes, SpaceTakes};
ghost use Rattle.hv_rules.specs.Body.{parent_of};
ghost use Rattle.hv_rules.specs.Carry.{nothing};
ghost use Rattle.hv_step.specs.declared.step.Step.TheVariants as steps;
ghost use Rattle.hv_step.specs.declared.step.Tick.{Tick};

use crate::handed::hand_clock;
use hv_answer::Reply;
use hv_body::BodyOf;
use hv_emu::Emulator;
use hv_handed::{Handed, hand_nothing};
use hv_signals::{Signals, changes, parent_of};
use hv_space::Space;

/// Ticks no clock, where none is live.
pub fn tick_nothing<E: Emulator>(space: &Space) -> (Reply, Handed<E>)
    requires { space.now.clock ≡ None }
    ensures space { (s : Tick) → SpaceTakes (steps.Tick s) result.0 (given E.state result.1.value)
        space.now space.now }
    ensures alone { given E.state result.1.value ≡ nothing }
{
    let _none = space.clock();
    (Reply::Tick(None), hand_nothing())
}

/// Ticks the clock that is live, whose body is that of the row that the space names.
pub fn tick<E: Emulator>(space: &Space, body: &mut BodyOf<E>) -> (Reply, Handed<E>)
    requires { IsSome space.now.clock }
    ensures space { (s : Tick) → SpaceTakes (steps.Tick s) result.0 (given E.state result.1.value)
        space.now space.now }
    ensures body { (row : ℕ) (s : Tick) → BodyTakes row (steps.Tick s) result.0
        (given E.state result.1.value) (seen E.state body.old) (seen E.state body.new) }
    ensures alone { given E.state result.1.value
        ≡ record nothing { clock = space.now.clock; parent = parent_of (seen E.state body.old) } }
{
    let handed = hand_clock(space.clock(), parent_of(body));
    let before = Signals::of(body);
    body.tick();
    (
        Reply::Tick(Some(changes(before, Signals::of(body)))),
        handed,
    )
}
