//! Regions that are added to guests.
ghost use Rattle.std.specs.Prelude.{◌≡◌, ◌<◌, ◌≤◌, ℕ, Some, IfErr, IfOk, MatchResult, OnErr, map};
ghost use Rattle.hv_board.specs.Board.{IsWhole};
ghost use Rattle.hv_board_steps.specs.Granted.{IsGrantedAt, IsGrantedOn};
ghost use Rattle.hv_board_steps.specs.Happened.{Gives, IsHappened, IsHeldUp};
ghost use Rattle.hv_board_steps.specs.Sound.{IsSound};
ghost use Rattle.hv_board_steps.specs.Values.{pool_on, space_on};
ghost use Rattle.hv_event.specs.declared.event.ActorId.{ActorId};
ghost use Rattle.hv_guest_steps.specs.Additions.{CanBe, MayAdd, MayNotAdd, region_at};
ghost use Rattle.hv_handed.specs.Given.{given};
ghost use Rattle.hv_parts.specs.Kinds.{AreOf};
ghost use Rattle.hv_parts.specs.Takes.{IsMadeAt};
ghost use Rattle.hv_parts.specs.Value.{valued};
ghost use Rattle.hv_region_steps.specs.Regions.{changed_row, pool_in, space_in};
ghost use Rattle.hv_text.specs.declared.limits.TheConstants.{GREATEST_STAMP, GUEST_REGIONS, SLOTS};
ghost use Rattle.hv_region_events.specs.Regions.{IsAdd, OfPlan, changed_parts, refused_parts};

use hv_board::{Board, Stop};
use hv_board_steps::{Happened, finish, slot_of};
use hv_emu::Emulator;
use hv_event::{ActorId, CellId};
use hv_guest_steps::{GuestRow, NotAdded, addition};
use hv_handed::Made;
use hv_parts::Part;
use hv_region::RegionPlan;
use hv_region_steps::{add_at, not_added_at};
use hv_step::Step;
use std::alloc::{AllocError, Global};

/// Adds a region to a guest that the directory admits, by a step of an actor with this stamp, or
/// shows why it isn't added: its row has a window, or the window would meet another, or it is an
/// alias of nothing, or no device would do.
pub fn add_event<E: Emulator>(
    alloc: Global,
    board: &mut Board<E>,
    by: ActorId,
    own: u64,
    step: &Step,
    at: GuestRow,
    plan: &RegionPlan,
) -> Result<Happened<E>, Stop>
    requires whole { IsWhole E.state board.old }
    requires sound { IsSound board.old }
    requires bounded { own ≤ GREATEST_STAMP }
    requires step { IsAdd step.now }
    requires can_be { CanBe (region_at at plan.now) }
    requires granted { IsGrantedOn board.old step.now (Some at.row) at.guest }
    ensures whole { IsWhole E.state board.new }
    ensures layout { board.new.layout ≡ board.old.layout }
    ensures happened { IfOk result (λ happened. IsHappened E.state by own step.now board.old
        board.new happened) }
    ensures gives { IfOk result (Gives E.state (OfPlan at.row plan.now at.vcpus)) }
    ensures held_up { IfErr result (λ why. IsHeldUp E.state by own step.now
        (OfPlan at.row plan.now at.vcpus) board.old board.new why) }
{
    let Step::Add(add) = step else {
        unreachable!();
    };
    let _slot = slot_of(board.directory(), add.name.as_slice(), add.stage, at.guest);
    match addition_on(board, at, plan) {
        Ok(target) => added(alloc, board, by, own, step, at, plan, target),
        Err(why) => not_added(board, by, own, step, at, plan, why),
    }
}

// What the addition of a region comes to, as the guest's space and the pool say.
fn addition_on<E: Emulator>(
    board: &Board<E>,
    at: GuestRow,
    plan: &RegionPlan,
) -> Result<Option<(u8, u64)>, NotAdded>
    requires whole { IsWhole E.state board.now }
    requires sound { IsSound board.now }
    requires can_be { CanBe (region_at at plan.now) }
    requires slot { at.guest.slot < SLOTS }
    ensures case { MatchResult result
        (MayAdd (space_on board.now at.guest.slot).windows (pool_on E.state board.now)
        (region_at at plan.now))
        (MayNotAdd (space_on board.now at.guest.slot).windows (pool_on E.state board.now)
        (region_at at plan.now)) }
    ensures row { IfOk result (λ target. changed_row at.row target < GUEST_REGIONS) }
{
    addition(board.space(at.guest.slot), board.shelf(), at, plan)
}

// Adds a region that may be added.
fn added<E: Emulator>(
    alloc: Global,
    board: &mut Board<E>,
    by: ActorId,
    own: u64,
    step: &Step,
    at: GuestRow,
    plan: &RegionPlan,
    target: Option<(u8, u64)>,
) -> Result<Happened<E>, Stop>
    requires whole { IsWhole E.state board.old }
    requires bounded { own ≤ GREATEST_STAMP }
    requires step { IsAdd step.now }
    requires can_be { CanBe (region_at at plan.now) }
    requires granted { IsGrantedOn board.old step.now (Some at.row) at.guest }
    requires slot { at.guest.slot < SLOTS }
    requires row { changed_row at.row target < GUEST_REGIONS }
    requires may_add { MayAdd (space_on board.old at.guest.slot).windows
        (pool_on E.state board.old) (region_at at plan.now) target }
    ensures whole { IsWhole E.state board.new }
    ensures layout { board.new.layout ≡ board.old.layout }
    ensures happened { IfOk result (λ happened. IsHappened E.state by own step.now board.old
        board.new happened) }
    ensures gives { IfOk result (Gives E.state (OfPlan at.row plan.now at.vcpus)) }
    ensures held_up { IfErr result (λ why. IsHeldUp E.state by own step.now
        (OfPlan at.row plan.now at.vcpus) board.old board.new why) }
{
    let slot = at.guest.slot;
    let xs = [
        CellId::Dir,
        CellId::Shelf,
        CellId::Space(slot),
        CellId::Body(slot, changed_row(at.row, target)),
    ];
    let mut lifted = board.lift(own, &xs)?;
    match add_parts(alloc, step, at, plan, target, &mut lifted.parts) {
        Ok(made) => Ok(finish(board, lifted, by, own, &xs, step, made)),
        Err(error) => {
            board.put_back(lifted, &xs);
            Err(Stop::Memory(error))
        }
    }
}

// The row whose body an addition changes: that of the region, or of the target of an alias.
fn changed_row(row: u8, target: Option<(u8, u64)>) -> u8
    ensures { result ≡ changed_row row target }
{
    match target {
        Some((target, _)) => target,
        None => row,
    }
}

// Makes the step of an addition that may be at the parts that it touches.
fn add_parts<E: Emulator>(
    alloc: Global,
    step: &Step,
    at: GuestRow,
    plan: &RegionPlan,
    target: Option<(u8, u64)>,
    parts: &mut [Part<E>],
) -> Result<Made<E>, AllocError>
    requires step { IsAdd step.now }
    requires can_be { CanBe (region_at at plan.now) }
    requires parts { AreOf (changed_parts at.guest (changed_row at.row target))
        (map (valued E.state) parts.old) }
    requires granted { IsGrantedAt (map (valued E.state) parts.old) step.now (Some at.row) at.guest }
    requires may_add { MayAdd (space_in (map (valued E.state) parts.old)).windows
        (pool_in (map (valued E.state) parts.old)) (region_at at plan.now) target }
    ensures made { IfOk result (λ made. (harts : ℕ) (by : ActorId) → IsMadeAt E.state harts by
        (changed_parts at.guest (changed_row at.row target)) step.now made parts.old parts.new) }
    ensures gives { IfOk result (λ made. OfPlan at.row plan.now at.vcpus made.reply
        (given E.state made.handed.value)) }
    ensures kept { OnErr result (map (valued E.state) parts.new ≡ map (valued E.state) parts.old) }
{
    match step {
        Step::Add(add) => add_at(alloc, add, at, plan, target, parts),
        _ => unreachable!(),
    }
}

// Shows why a region isn't added.
fn not_added<E: Emulator>(
    board: &mut Board<E>,
    by: ActorId,
    own: u64,
    step: &Step,
    at: GuestRow,
    plan: &RegionPlan,
    why: NotAdded,
) -> Result<Happened<E>, Stop>
    requires whole { IsWhole E.state board.old }
    requires bounded { own ≤ GREATEST_STAMP }
    requires step { IsAdd step.now }
    requires granted { IsGrantedOn board.old step.now (Some at.row) at.guest }
    requires slot { at.guest.slot < SLOTS }
    requires may_not_add { MayNotAdd (space_on board.old at.guest.slot).windows
        (pool_on E.state board.old) (region_at at plan.now) why }
    ensures whole { IsWhole E.state board.new }
    ensures layout { board.new.layout ≡ board.old.layout }
    ensures happened { IfOk result (λ happened. IsHappened E.state by own step.now board.old
        board.new happened) }
    ensures gives { IfOk result (Gives E.state (OfPlan at.row plan.now at.vcpus)) }
    ensures held_up { IfErr result (λ why. IsHeldUp E.state by own step.now
        (OfPlan at.row plan.now at.vcpus) board.old board.new why) }
{
    let xs = [CellId::Dir, CellId::Shelf, CellId::Space(at.guest.slot)];
    let lifted = board.lift(own, &xs)?;
    let made = not_added_parts(step, at, plan, why, &lifted.parts);
    Ok(finish(board, lifted, by, own, &xs, step, made))
}

// Makes the step of an addition that may not be at the parts that it touches.
fn not_added_parts<E: Emulator>(
    step: &Step,
    at: GuestRow,
    plan: &RegionPlan,
    why: NotAdded,
    parts: &[Part<E>],
) -> Made<E>
    requires step { IsAdd step.now }
    requires parts { AreOf (refused_parts at.guest) (map (valued E.state) parts.now) }
    requires granted { IsGrantedAt (map (valued E.state) parts.now) step.now (Some at.row) at.guest }
    requires may_not_add { MayNotAdd (space_in (map (valued E.state) parts.now)).windows
        (pool_in (map (valued E.state) parts.now)) (region_at at plan.now) why }
    ensures made { (harts : ℕ) (by : ActorId) → IsMadeAt E.state harts by (refused_parts at.guest)
        step.now result parts.now parts.now }
    ensures gives { OfPlan at.row plan.now at.vcpus result.reply
        (given E.state result.handed.value) }
{
    match step {
        Step::Add(add) => not_added_at(add, at, plan, why, parts),
        _ => unreachable!(),
    }
}
