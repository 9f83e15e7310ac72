//! Files that are loaded into the memory of guests.
ghost use Rattle.std.specs.Prelude.{◌≡◌, ◌+◌, ◌∷◌, [], ℕ, map, length, None, Some, Err, IfErr, IfOk, IfSome, OnErr};
ghost use Rattle.std.specs.Result.{result_ok};
ghost use Rattle.hv_answer.specs.declared.reply.Reply.TheVariants as replies;
ghost use Rattle.hv_event.specs.declared.event.ActorId.{ActorId};
ghost use Rattle.hv_event.specs.declared.event.CellId.TheVariants as component;
ghost use Rattle.hv_handed.specs.Given.{given};
ghost use Rattle.hv_kinds.specs.declared.stage.Stage.TheVariants as stages;
ghost use Rattle.hv_memory_steps.specs.Hands.{load_carry};
ghost use Rattle.hv_parts.specs.Admission.{IsAdmitted};
ghost use Rattle.hv_parts.specs.Kinds.{AreOf};
ghost use Rattle.hv_parts.specs.Takes.{IsMadeAt, IsTakenAt};
ghost use Rattle.hv_parts.specs.Value.{valued};
ghost use Rattle.hv_rules.specs.Footprint.{past_dir, reached_by};
ghost use Rattle.hv_step.specs.declared.step.Step.TheVariants as steps;
ghost use Rattle.hv_access_steps.specs.First.{HasBytes, LastHas, area_first, area_for, behind, size_first, size_of, window_first, window_for};
ghost use Rattle.hv_access_steps.specs.Hands.{found_carry};

use hv_emu::Emulator;
use hv_fpart::read_part;
use hv_handed::Made;
use hv_kinds::Generation;
use hv_memory_steps::{load, load_missing, load_nowhere, load_shared};
use hv_parts::{Part, area_mut, body, body_mut, files, space};
use hv_refusal::Refusal;
use hv_region::Window;
use hv_step::Load;
use hv_text::Bytes;
use std::alloc::{AllocError, Global};

/// Loads a file into the memory of a guest that the directory admits. The window that holds the
/// whole of it is told, and the area that its region shares with the offset there, which stands
/// last.
pub fn load_at<E: Emulator>(
    alloc: Global,
    step: &Load,
    window: Option<Window>,
    place: Option<(u8, u64)>,
    parts: &mut [Part<E>],
) -> Result<Made<E>, AllocError>
    requires admitted { IsAdmitted (map (valued E.state) parts.old) step.now.name stages.Made
        step.now.generation }
    requires parts { AreOf (past_dir step.now.generation
        (λ g. component.Files ∷ component.Space g.slot ∷ reached_by g window place))
        (map (valued E.state) parts.old) }
    requires window { let values = behind (map (valued E.state) parts.old) in
        window ≡ window_for step.now.address (size_first step.now values) (behind values) }
    requires place { let values = behind (map (valued E.state) parts.old) in
        place ≡ area_for window step.now.address (size_first step.now values) (behind values) }
    requires bytes { let values = behind (map (valued E.state) parts.old) in
        IfSome (size_first step.now values) (λ size. HasBytes size place (behind values)) }
    ensures made { IfOk result (λ made. (harts : ℕ) (by : ActorId) → IsMadeAt E.state harts by
        (past_dir step.now.generation
        (λ g. component.Files ∷ component.Space g.slot ∷ reached_by g window place))
        (steps.Load step.now) made parts.old parts.new) }
    ensures kept { OnErr result (map (valued E.state) parts.new ≡ map (valued E.state) parts.old) }
{
    let Some(generation) = step.generation else {
        unreachable!();
    };
    let (_, others) = parts.split_at_mut(1);
    load_behind(alloc, step, generation, window, place, others)
}

// The same behind the directory.
fn load_behind<E: Emulator>(
    alloc: Global,
    step: &Load,
    generation: Generation,
    window: Option<Window>,
    place: Option<(u8, u64)>,
    parts: &mut [Part<E>],
) -> Result<Made<E>, AllocError>
    requires parts { AreOf (component.Files ∷ component.Space generation.slot
        ∷ reached_by generation window place) (map (valued E.state) parts.old) }
    requires window { let values = map (valued E.state) parts.old in
        window ≡ window_for step.now.address (size_first step.now values) (behind values) }
    requires place { let values = map (valued E.state) parts.old in
        place ≡ area_for window step.now.address (size_first step.now values) (behind values) }
    requires bytes { let values = map (valued E.state) parts.old in
        IfSome (size_first step.now values) (λ size. HasBytes size place (behind values)) }
    ensures taken { IfOk result (λ made. IsTakenAt E.state (component.Files
        ∷ component.Space generation.slot ∷ reached_by generation window place)
        (steps.Load step.now) made parts.old parts.new) }
    ensures window { IfOk result (λ made. (given E.state made.handed.value).window ≡ window) }
    ensures area { IfOk result (λ made. (given E.state made.handed.value).area ≡ place) }
    ensures kept { OnErr result (map (valued E.state) parts.new ≡ map (valued E.state) parts.old) }
{
    let (first, others) = parts.split_at_mut(1);
    let found = read_part(alloc, files(&first[0]), &step.path)?;
    Ok(load_found(step, found, generation, window, place, others))
}

// Loads what the files gave, behind them.
fn load_found<E: Emulator>(
    step: &Load,
    found: Result<Bytes, Refusal>,
    generation: Generation,
    window: Option<Window>,
    place: Option<(u8, u64)>,
    parts: &mut [Part<E>],
) -> Made<E>
    requires parts { AreOf (component.Space generation.slot ∷ reached_by generation window place)
        (map (valued E.state) parts.old) }
    requires window { window ≡ window_for step.now.address (size_of found)
        (map (valued E.state) parts.old) }
    requires place { place ≡ area_for window step.now.address (size_of found)
        (map (valued E.state) parts.old) }
    requires bytes { IfSome (size_of found) (λ size. HasBytes size place
        (map (valued E.state) parts.old)) }
    ensures taken { IsTakenAt E.state (component.Space generation.slot
        ∷ reached_by generation window place) (steps.Load step.now) result parts.old parts.new }
    ensures handed { given E.state result.handed.value ≡ found_carry (result_ok found) window place }
    ensures refused { IfErr found (λ why. result.reply ≡ replies.Load (Err why)) }
{
    match found {
        Err(why) => load_missing(why),
        Ok(bytes) => load_bytes(step, &bytes, generation, window, place, parts),
    }
}

// Loads a file behind the files.
fn load_bytes<E: Emulator>(
    step: &Load,
    bytes: &Bytes,
    generation: Generation,
    window: Option<Window>,
    place: Option<(u8, u64)>,
    parts: &mut [Part<E>],
) -> Made<E>
    requires parts { AreOf (component.Space generation.slot ∷ reached_by generation window place)
        (map (valued E.state) parts.old) }
    requires window { window ≡ window_first step.now.address (length bytes.now)
        (map (valued E.state) parts.old) }
    requires place { place ≡ area_first window step.now.address (length bytes.now)
        (map (valued E.state) parts.old) }
    requires bytes { HasBytes (length bytes.now) place (map (valued E.state) parts.old) }
    ensures taken { IsTakenAt E.state (component.Space generation.slot
        ∷ reached_by generation window place) (steps.Load step.now) result parts.old parts.new }
    ensures handed { given E.state result.handed.value ≡ found_carry (Some bytes.now) window place }
{
    match window {
        None => load_outside(step, bytes, generation, parts),
        Some(window) => match place {
            None => load_own(step, bytes, generation, window, parts),
            Some(place) => load_area(step, bytes, generation, window, place, parts),
        },
    }
}

// Loads a file that no window holds.
fn load_outside<E: Emulator>(
    step: &Load,
    bytes: &Bytes,
    generation: Generation,
    parts: &[Part<E>],
) -> Made<E>
    requires parts { AreOf (component.Space generation.slot ∷ []) (map (valued E.state) parts.now) }
    requires window { window_first step.now.address (length bytes.now)
        (map (valued E.state) parts.now) ≡ None }
    ensures taken { IsTakenAt E.state (component.Space generation.slot ∷ []) (steps.Load step.now)
        result parts.now parts.now }
    ensures handed { given E.state result.handed.value ≡ load_carry bytes.now None None }
{
    let _ = generation;
    load_nowhere(step, bytes, space(&parts[0]))
}

// Loads a file into what a region has of its own.
fn load_own<E: Emulator>(
    step: &Load,
    bytes: &Bytes,
    generation: Generation,
    window: Window,
    parts: &mut [Part<E>],
) -> Made<E>
    requires parts { AreOf (component.Space generation.slot
        ∷ component.Body generation.slot window.target ∷ []) (map (valued E.state) parts.old) }
    requires window { window_first step.now.address (length bytes.now)
        (map (valued E.state) parts.old) ≡ Some window }
    requires own { area_first (Some window) step.now.address (length bytes.now)
        (map (valued E.state) parts.old) ≡ None }
    ensures taken { IsTakenAt E.state (component.Space generation.slot
        ∷ component.Body generation.slot window.target ∷ []) (steps.Load step.now) result
        parts.old parts.new }
    ensures handed { given E.state result.handed.value ≡ load_carry bytes.now (Some window) None }
{
    let _ = generation;
    let (first, others) = parts.split_at_mut(1);
    load(
        step,
        bytes,
        space(&first[0]),
        window,
        body_mut(&mut others[0]),
    )
}

// Loads a file into the area that a region shares.
fn load_area<E: Emulator>(
    step: &Load,
    bytes: &Bytes,
    generation: Generation,
    window: Window,
    place: (u8, u64),
    parts: &mut [Part<E>],
) -> Made<E>
    requires parts { AreOf (component.Space generation.slot
        ∷ component.Body generation.slot window.target ∷ component.Area place.0 ∷ [])
        (map (valued E.state) parts.old) }
    requires window { window_first step.now.address (length bytes.now)
        (map (valued E.state) parts.old) ≡ Some window }
    requires shared { area_first (Some window) step.now.address (length bytes.now)
        (map (valued E.state) parts.old) ≡ Some place }
    requires bytes { LastHas (place.1 + length bytes.now) (map (valued E.state) parts.old) }
    ensures taken { IsTakenAt E.state (component.Space generation.slot
        ∷ component.Body generation.slot window.target ∷ component.Area place.0 ∷ [])
        (steps.Load step.now) result parts.old parts.new }
    ensures handed { given E.state result.handed.value
        ≡ load_carry bytes.now (Some window) (Some place) }
{
    let _ = generation;
    let _ = place;
    let (first, others) = parts.split_at_mut(1);
    let (second, third) = others.split_at_mut(1);
    load_shared(
        step,
        bytes,
        space(&first[0]),
        window,
        body(&second[0]),
        area_mut(&mut third[0]),
    )
}
