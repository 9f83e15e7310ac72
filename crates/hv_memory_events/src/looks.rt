//! Looks at the memory of guests.
ghost use Rattle.std.specs.Prelude.{◌≡◌, ◌<◌, ◌≤◌, ℕ, None, Some, IfErr, IfOk, map};
ghost use Rattle.hv_access_steps.specs.First.{HasBytes, area_first, behind, window_first};
ghost use Rattle.hv_board.specs.Board.{IsWhole};
ghost use Rattle.hv_board_steps.specs.Granted.{IsGrantedAt, IsGrantedOn};
ghost use Rattle.hv_board_steps.specs.Happened.{Anything, IsHappened, IsHeldUp};
ghost use Rattle.hv_board_steps.specs.Sound.{IsSound};
ghost use Rattle.hv_event.specs.declared.event.ActorId.{ActorId};
ghost use Rattle.hv_parts.specs.Kinds.{AreOf};
ghost use Rattle.hv_parts.specs.Takes.{IsMadeAt};
ghost use Rattle.hv_parts.specs.Value.{valued};
ghost use Rattle.hv_step.specs.declared.step.Step.TheVariants as steps;
ghost use Rattle.hv_text.specs.declared.limits.TheConstants.{GREATEST_STAMP, SLOTS};
ghost use Rattle.hv_memory_events.specs.Reached.{HasBytesOn, IsArea, IsMem, LeadsToRow, area_on, mem_parts, window_on};

use crate::reached::{area_on, push_reached, window_on};
use hv_access_steps::mem_at;
use hv_board::{Board, Stop};
use hv_board_steps::{Happened, finish, slot_of};
use hv_emu::Emulator;
use hv_event::{ActorId, CellId};
use hv_handed::Made;
use hv_kinds::{Generation, Stage};
use hv_parts::Part;
use hv_region::Window;
use hv_step::{Mem, Step};
use std::alloc::{AllocError, Global};

/// Looks at the memory of a guest that the directory admits, by a step of an actor with this stamp, or
/// shows why it can't be seen: no window holds all that is looked at, or what is there is no memory.
pub fn mem_event<E: Emulator>(
    alloc: Global,
    board: &mut Board<E>,
    by: ActorId,
    own: u64,
    step: &Step,
    guest: Generation,
) -> Result<Happened<E>, Stop>
    requires whole { IsWhole E.state board.old }
    requires sound { IsSound board.old }
    requires bounded { own ≤ GREATEST_STAMP }
    requires step { IsMem step.now }
    requires granted { IsGrantedOn board.old step.now None guest }
    ensures whole { IsWhole E.state board.new }
    ensures layout { board.new.layout ≡ board.old.layout }
    ensures happened { IfOk result (λ happened. IsHappened E.state by own step.now board.old
        board.new happened) }
    ensures held_up { IfErr result (λ why. IsHeldUp E.state by own step.now Anything board.old
        board.new why) }
{
    let Step::Mem(look) = step else {
        unreachable!();
    };
    let _slot = slot_of(board.directory(), look.name.as_slice(), Stage::Made, guest);
    let size = Some(look.count);
    let window = window_on(board, guest, look.address, size);
    let area = area_on(board, guest, window, look.address, size);
    mem_reached(alloc, board, by, own, step, look, guest, window, area)
}

// Looks at what a look reaches on the board.
fn mem_reached<E: Emulator>(
    alloc: Global,
    board: &mut Board<E>,
    by: ActorId,
    own: u64,
    step: &Step,
    look: &Mem,
    guest: Generation,
    window: Option<Window>,
    area: Option<(u8, u64)>,
) -> Result<Happened<E>, Stop>
    requires whole { IsWhole E.state board.old }
    requires bounded { own ≤ GREATEST_STAMP }
    requires step { step.now ≡ steps.Mem look.now }
    requires granted { IsGrantedOn board.old step.now None guest }
    requires slot { guest.slot < SLOTS }
    requires row { LeadsToRow window }
    requires there { IsArea board.old area }
    requires window { window ≡ window_on board.old guest look.now.address (Some look.now.count) }
    requires area { area
        ≡ area_on E.state board.old guest window look.now.address (Some look.now.count) }
    requires bytes { HasBytesOn board.old (Some look.now.count) area }
    ensures whole { IsWhole E.state board.new }
    ensures layout { board.new.layout ≡ board.old.layout }
    ensures happened { IfOk result (λ happened. IsHappened E.state by own step.now board.old
        board.new happened) }
    ensures held_up { IfErr result (λ why. IsHeldUp E.state by own step.now Anything board.old
        board.new why) }
{
    let xs = mem_parts(alloc, guest, window, area)?;
    let lifted = board.lift(own, &xs)?;
    match mem_lifted(alloc, look, guest, window, area, &lifted.parts) {
        Ok(made) => Ok(finish(board, lifted, by, own, &xs, step, made)),
        Err(error) => {
            board.put_back(lifted, &xs);
            Err(Stop::Memory(error))
        }
    }
}

/// What a look touches.
pub(crate) fn mem_parts(
    alloc: Global,
    guest: Generation,
    window: Option<Window>,
    area: Option<(u8, u64)>,
) -> Result<Vec<CellId>, AllocError>
    ensures { IfOk result (λ xs. xs.items ≡ mem_parts guest window area) }
{
    let mut xs = Vec::new(alloc);
    xs.push(CellId::Dir)?;
    xs.push(CellId::Space(guest.slot))?;
    push_reached(&mut xs, guest, window, area)?;
    Ok(xs)
}

// Looks at memory at the parts that are lifted.
fn mem_lifted<E: Emulator>(
    alloc: Global,
    look: &Mem,
    guest: Generation,
    window: Option<Window>,
    area: Option<(u8, u64)>,
    parts: &[Part<E>],
) -> Result<Made<E>, AllocError>
    requires granted { IsGrantedAt (map (valued E.state) parts.now) (steps.Mem look.now) None guest }
    requires parts { AreOf (mem_parts guest window area) (map (valued E.state) parts.now) }
    requires window { window ≡ window_first look.now.address look.now.count
        (behind (map (valued E.state) parts.now)) }
    requires area { area ≡ area_first window look.now.address look.now.count
        (behind (map (valued E.state) parts.now)) }
    requires bytes { HasBytes look.now.count area (behind (map (valued E.state) parts.now)) }
    ensures { IfOk result (λ made. (harts : ℕ) (by : ActorId) → IsMadeAt E.state harts by
        (mem_parts guest window area) (steps.Mem look.now) made parts.now parts.now) }
{
    let _ = guest;
    mem_at(alloc, look, window, area, parts)
}
