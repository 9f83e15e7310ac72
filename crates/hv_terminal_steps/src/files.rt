//! Steps at the files.
ghost use Rattle.std.specs.Prelude.{◌≡◌, ◌∷◌, [], ℕ, map, IfOk, OnErr};
ghost use Rattle.hv_event.specs.declared.event.ActorId.{ActorId};
ghost use Rattle.hv_event.specs.declared.event.CellId.TheVariants as component;
ghost use Rattle.hv_fpart.specs.Part.{IsFilesStep};
ghost use Rattle.hv_parts.specs.Kinds.{AreOf};
ghost use Rattle.hv_parts.specs.Takes.{IsMadeAt};
ghost use Rattle.hv_parts.specs.Value.{valued};

use hv_emu::Emulator;
use hv_fpart::files_part;
use hv_handed::{Made, Told, hand_nothing};
use hv_parts::{Part, files_mut};
use hv_step::Step;
use std::alloc::{AllocError, Global};

/// Makes a step whose reply the files alone decide.
pub fn files_at<E: Emulator>(
    alloc: Global,
    step: &Step,
    parts: &mut [Part<E>],
) -> Result<Made<E>, AllocError>
    requires step { IsFilesStep step.now }
    requires parts { AreOf (component.Files ∷ []) (map (valued E.state) parts.old) }
    ensures made { IfOk result (λ made. (harts : ℕ) (by : ActorId) → IsMadeAt E.state harts by
        (component.Files ∷ []) step.now made parts.old parts.new) }
    ensures kept { OnErr result (map (valued E.state) parts.new ≡ map (valued E.state) parts.old) }
{
    let reply = files_part(alloc, files_mut(&mut parts[0]), step)?;
    Ok(Made {
        reply,
        handed: hand_nothing(),
        told: Told::nothing(),
    })
}
