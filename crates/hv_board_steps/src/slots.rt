//! Slots of guests that the directory admits.
ghost use Rattle.std.specs.Prelude.{◌≡◌, ◌<◌, Ok};
ghost use Rattle.hv_rules.specs.Dir.{guest_in};
ghost use Rattle.hv_text.specs.declared.limits.TheConstants.{SLOTS};

use hv_dir::Dir;
use hv_kinds::{Generation, Stage};

/// The slot of a guest that the directory gives by its name and stage.
pub fn slot_of(dir: &Dir, name: &[u8], stage: Stage, guest: Generation) -> u8
    requires { guest_in dir.now name.now stage ≡ Ok guest }
    ensures slot { result ≡ guest.slot }
    ensures within { result < SLOTS }
{
    let _ = guest;
    match dir.at(name, stage) {
        Ok((slot, _)) => slot,
        Err(_) => unreachable!(),
    }
}
