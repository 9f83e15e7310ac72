//! Files that are loaded into the memory of guests.
ghost use Rattle.std.specs.Prelude.{◌≡◌, ◌<◌, ◌≤◌, ℕ, None, IfErr, IfOk, IfSome, OnErr, map};
ghost use Rattle.hv_access_steps.specs.First.{HasBytes, area_for, behind, size_first, size_of, window_for};
ghost use Rattle.hv_board.specs.Board.{IsWhole};
ghost use Rattle.hv_board_steps.specs.Granted.{IsGrantedAt, IsGrantedOn};
ghost use Rattle.hv_board_steps.specs.Happened.{Anything, IsHappened, IsHeldUp};
ghost use Rattle.hv_board_steps.specs.Sound.{IsSound};
ghost use Rattle.hv_event.specs.declared.event.ActorId.{ActorId};
ghost use Rattle.hv_model.specs.Files.{read_file};
ghost use Rattle.hv_parts.specs.Kinds.{AreOf};
ghost use Rattle.hv_parts.specs.Takes.{IsMadeAt};
ghost use Rattle.hv_parts.specs.Value.{valued};
ghost use Rattle.hv_step.specs.declared.step.Step.TheVariants as steps;
ghost use Rattle.hv_text.specs.declared.limits.TheConstants.{GREATEST_STAMP, SLOTS};
ghost use Rattle.hv_memory_events.specs.Reached.{HasBytesOn, IsArea, IsLoad, LeadsToRow, area_on, load_parts, size_on, window_on};

use crate::reached::{area_on, push_reached, window_on};
use hv_access_steps::load_at;
use hv_board::{Board, Stop};
use hv_board_steps::{Happened, finish, slot_of};
use hv_emu::Emulator;
use hv_event::{ActorId, CellId};
use hv_files::FileTree;
use hv_handed::Made;
use hv_kinds::{Generation, Stage};
use hv_parts::Part;
use hv_region::Window;
use hv_step::{Load, Step};
use hv_text::Path;
use std::alloc::{AllocError, Global};

/// Loads a file into the memory of a guest that the directory admits, by a step of an actor with this
/// stamp, or shows why it isn't loaded: it is missing, or no window holds the whole of it, or what is
/// there is no memory.
pub fn load_event<E: Emulator>(
    alloc: Global,
    board: &mut Board<E>,
    by: ActorId,
    own: u64,
    step: &Step,
    guest: Generation,
) -> Result<Happened<E>, Stop>
    requires whole { IsWhole E.state board.old }
    requires sound { IsSound board.old }
    requires bounded { own ≤ GREATEST_STAMP }
    requires step { IsLoad step.now }
    requires granted { IsGrantedOn board.old step.now None guest }
    ensures whole { IsWhole E.state board.new }
    ensures layout { board.new.layout ≡ board.old.layout }
    ensures happened { IfOk result (λ happened. IsHappened E.state by own step.now board.old
        board.new happened) }
    ensures held_up { IfErr result (λ why. IsHeldUp E.state by own step.now Anything board.old
        board.new why) }
{
    let Step::Load(load) = step else {
        unreachable!();
    };
    let _slot = slot_of(board.directory(), load.name.as_slice(), Stage::Made, guest);
    let size = size_of(board.files(), &load.path);
    let window = window_on(board, guest, load.address, size);
    let area = area_on(board, guest, window, load.address, size);
    load_reached(alloc, board, by, own, step, load, guest, window, area)
}

// How many bytes a file has, if it is there.
fn size_of(files: &FileTree, path: &Path) -> Option<u64>
    ensures { result ≡ size_of (read_file files.now path.now) }
{
    match files.get(path) {
        Ok(bytes) => Some(bytes.len() as u64),
        Err(_) => None,
    }
}

// Loads a file where it goes on the board.
fn load_reached<E: Emulator>(
    alloc: Global,
    board: &mut Board<E>,
    by: ActorId,
    own: u64,
    step: &Step,
    load: &Load,
    guest: Generation,
    window: Option<Window>,
    area: Option<(u8, u64)>,
) -> Result<Happened<E>, Stop>
    requires whole { IsWhole E.state board.old }
    requires bounded { own ≤ GREATEST_STAMP }
    requires step { step.now ≡ steps.Load load.now }
    requires granted { IsGrantedOn board.old step.now None guest }
    requires slot { guest.slot < SLOTS }
    requires row { LeadsToRow window }
    requires there { IsArea board.old area }
    requires window { window
        ≡ window_on board.old guest load.now.address (size_on board.old load.now.path) }
    requires area { area
        ≡ area_on E.state board.old guest window load.now.address (size_on board.old load.now.path) }
    requires bytes { HasBytesOn board.old (size_on board.old load.now.path) area }
    ensures whole { IsWhole E.state board.new }
    ensures layout { board.new.layout ≡ board.old.layout }
    ensures happened { IfOk result (λ happened. IsHappened E.state by own step.now board.old
        board.new happened) }
    ensures held_up { IfErr result (λ why. IsHeldUp E.state by own step.now Anything board.old
        board.new why) }
{
    let xs = load_parts(alloc, guest, window, area)?;
    let mut lifted = board.lift(own, &xs)?;
    match load_lifted(alloc, load, guest, window, area, &mut lifted.parts) {
        Ok(made) => Ok(finish(board, lifted, by, own, &xs, step, made)),
        Err(error) => {
            board.put_back(lifted, &xs);
            Err(Stop::Memory(error))
        }
    }
}

/// What a load touches.
pub(crate) fn load_parts(
    alloc: Global,
    guest: Generation,
    window: Option<Window>,
    area: Option<(u8, u64)>,
) -> Result<Vec<CellId>, AllocError>
    ensures { IfOk result (λ xs. xs.items ≡ load_parts guest window area) }
{
    let mut xs = Vec::new(alloc);
    xs.push(CellId::Dir)?;
    xs.push(CellId::Files)?;
    xs.push(CellId::Space(guest.slot))?;
    push_reached(&mut xs, guest, window, area)?;
    Ok(xs)
}

// Loads a file at the parts that are lifted.
fn load_lifted<E: Emulator>(
    alloc: Global,
    load: &Load,
    guest: Generation,
    window: Option<Window>,
    area: Option<(u8, u64)>,
    parts: &mut [Part<E>],
) -> Result<Made<E>, AllocError>
    requires granted { IsGrantedAt (map (valued E.state) parts.old) (steps.Load load.now) None
        guest }
    requires parts { AreOf (load_parts guest window area) (map (valued E.state) parts.old) }
    requires window { let values = behind (map (valued E.state) parts.old) in
        window ≡ window_for load.now.address (size_first load.now values) (behind values) }
    requires area { let values = behind (map (valued E.state) parts.old) in
        area ≡ area_for window load.now.address (size_first load.now values) (behind values) }
    requires bytes { let values = behind (map (valued E.state) parts.old) in
        IfSome (size_first load.now values) (λ size. HasBytes size area (behind values)) }
    ensures made { IfOk result (λ made. (harts : ℕ) (by : ActorId) → IsMadeAt E.state harts by
        (load_parts guest window area) (steps.Load load.now) made parts.old parts.new) }
    ensures kept { OnErr result (map (valued E.state) parts.new ≡ map (valued E.state) parts.old) }
{
    let _ = guest;
    load_at(alloc, load, window, area, parts)
}
