//! Steps at the directory alone.
ghost use Rattle.std.specs.Prelude.{◌≡◌, ◌∷◌, [], ℕ, map, IfOk, OnErr};
ghost use Rattle.std.specs.Result.{result_ok};
ghost use Rattle.hv_dir.specs.Directory.{guest_at};
ghost use Rattle.hv_event.specs.declared.event.ActorId.{ActorId};
ghost use Rattle.hv_event.specs.declared.event.CellId.TheVariants as component;
ghost use Rattle.hv_handed.specs.Given.{given};
ghost use Rattle.hv_parts.specs.Kinds.{AreOf};
ghost use Rattle.hv_parts.specs.Takes.{IsMadeAt};
ghost use Rattle.hv_parts.specs.Value.{valued};
ghost use Rattle.hv_step.specs.declared.step.Step.TheVariants as steps;

use hv_dir::Dir;
use hv_emu::Emulator;
use hv_guest_steps::{guests, name, stage};
use hv_handed::{Made, Told};
use hv_parts::{Part, directory, directory_mut};
use hv_refusal::Refusal;
use hv_step::{Guests, Name, Stage};
use std::alloc::{AllocError, Global};

/// Lists the guests.
pub fn guests_at<E: Emulator>(
    alloc: Global,
    step: Guests,
    parts: &[Part<E>],
) -> Result<Made<E>, AllocError>
    requires { AreOf (component.Dir ∷ []) (map (valued E.state) parts.now) }
    ensures { IfOk result (λ made. (harts : ℕ) (by : ActorId) → IsMadeAt E.state harts by
        (component.Dir ∷ []) (steps.Guests step) made parts.now parts.now) }
{
    let _ = step;
    let made = guests(alloc, directory(&parts[0]))?;
    let (reply, handed) = made;
    Ok(Made {
        reply,
        handed,
        told: Told::nothing(),
    })
}

/// Claims a slot for a guest, unless its name was refused before.
pub fn name_at<E: Emulator>(
    alloc: Global,
    step: &Name,
    stopped: Option<Refusal>,
    parts: &mut [Part<E>],
) -> Result<Made<E>, AllocError>
    requires { AreOf (component.Dir ∷ []) (map (valued E.state) parts.old) }
    ensures made { IfOk result (λ made. (harts : ℕ) (by : ActorId) → IsMadeAt E.state harts by
        (component.Dir ∷ []) (steps.Name step.now) made parts.old parts.new) }
    ensures stopped { IfOk result (λ made. (given E.state made.handed.value).stopped ≡ stopped) }
    ensures kept { OnErr result (map (valued E.state) parts.new ≡ map (valued E.state) parts.old) }
{
    let named = step.name.as_slice();
    let made = name(alloc, directory_mut(&mut parts[0]), named, stopped)?;
    let (reply, handed) = made;
    Ok(Made {
        reply,
        handed,
        told: Told::nothing(),
    })
}

/// Turns a guest to its next stage, or gives its slot up. The actor learns which guest it is.
pub fn stage_at<E: Emulator>(step: &Stage, parts: &mut [Part<E>]) -> Made<E>
    requires { AreOf (component.Dir ∷ []) (map (valued E.state) parts.old) }
    ensures { (harts : ℕ) (by : ActorId) → IsMadeAt E.state harts by
        (component.Dir ∷ []) (steps.Stage step.now) result parts.old parts.new }
{
    let directory = directory_mut(&mut parts[0]);
    let mut told = Told::nothing();
    told.guest = guest_of(directory, step);
    let (reply, handed) = stage(directory, step.name.as_slice(), step.from, step.to);
    Made {
        reply,
        handed,
        told,
    }
}

// Slot and birth of the guest that is turned.
fn guest_of(directory: &Dir, step: &Stage) -> Option<(u8, u64)>
    ensures { result ≡ result_ok (guest_at directory.now step.now.name step.now.from) }
{
    directory.at(step.name.as_slice(), step.from).ok()
}
