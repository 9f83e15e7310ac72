//! Whose a body is, and where its interrupts go.
ghost use Rattle.std.specs.Prelude.{◌≡◌};
ghost use Rattle.hv_body.specs.Body.{seen};
ghost use Rattle.hv_rules.specs.Body.{is_born, parent_of};

use hv_body::BodyOf;
use hv_emu::Emulator;

/// The row of the region that takes a body's interrupts, and the source there.
pub fn parent_of<E: Emulator>(body: &BodyOf<E>) -> Option<(u8, u8)>
    ensures { result ≡ parent_of (seen E.state body.now) }
{
    match body.plan() {
        Some(plan) => plan.parent,
        None => None,
    }
}

/// Whether a body is that of a guest with this birth.
pub fn is_born<E: Emulator>(body: &BodyOf<E>, birth: u64) -> bool
    ensures { result ≡ is_born birth (seen E.state body.now) }
{
    match body.birth() {
        Some(there) => there == birth,
        None => false,
    }
}
