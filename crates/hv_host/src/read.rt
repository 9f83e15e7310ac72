//! Host trees read as boards.
ghost use Rattle.std.specs.Prelude.{◌≢◌, ◌≤◌, length, Some, None, Err, IfOk, MatchResult};
ghost use Rattle.std.specs.Option.{option_copied};
ghost use Rattle.hv_plan.specs.Guests.{guest_node};
ghost use Rattle.hv_plan.specs.Settings.{IsHost};
ghost use Rattle.hv_host.specs.Boards.{IsPlanned, ArePlanned, IsBare, SaysBoard, Says};
ghost use Rattle.hv_host.specs.Rules.{KeepsBoardRules};
ghost use Rattle.hv_dts.specs.Reading.{IsSourceOf};

use crate::board::Board;
use crate::refusal::BoardRefusal;
use hv_dtree::Tree;
use hv_dts::{DtsRefusal, read_dts};
use hv_plan::{Host, HostRefusal, PlanRefusal, host_settings, plan_guest};
use hv_region::{Fault, GuestPlan};
use hv_text::Bytes;
use std::alloc::{AllocError, Global};

/// The harts of a host that has no tree.
const DEFAULT_HARTS: u32 = 2;

/// The turns of each hart of a host that has no tree.
const DEFAULT_TURNS: u32 = 1000;

/// The plan of the guest of a name that the tree has, or what is wrong with it.
fn plan_or_fault(
    alloc: Global,
    tree: &Tree,
    areas: &[(Bytes, u64)],
    name: &[u8],
) -> Result<Result<GuestPlan, Fault>, AllocError>
    requires few { length areas.now ≤ 8 }
    requires there { guest_node tree.now name.now ≢ None }
    ensures { IfOk result (IsPlanned areas.now (guest_node tree.now name.now)) }
{
    match plan_guest(alloc, tree, areas, name) {
        Ok(plan) => Ok(Ok(plan)),
        Err(PlanRefusal::BadNode(path, cause)) => Ok(Err(Fault { path, cause })),
        Err(PlanRefusal::Memory(error)) => Err(error),
        Err(PlanRefusal::NoGuest) => unreachable!(),
    }
}

/// The plans of the guests of these names.
fn plan_all(
    alloc: Global,
    tree: &Tree,
    host: &Host,
) -> Result<Vec<Result<GuestPlan, Fault>>, AllocError>
    requires few { length host.now.areas.items ≤ 8 }
    requires host { IsHost tree.now host.now }
    ensures { IfOk result (λ plans.
        ArePlanned host.now.areas.items tree.now host.now.guests.items plans.items) }
{
    let mut plans = Vec::new(alloc);
    for name in &host.guests {
        plans.push(plan_or_fault(alloc, tree, &host.areas, name.as_slice())?)?;
    }
    Ok(plans)
}

/// The tree of a source, or where the text is none.
fn read_tree(alloc: Global, text: &[u8]) -> Result<Tree, BoardRefusal>
    ensures { MatchResult result (IsSourceOf text.now) (λ refusal. SaysBoard text.now (Err refusal)) }
{
    let offset = match read_dts(alloc, text) {
        Ok(tree) => return Ok(tree),
        Err(DtsRefusal::BadToken(offset)) => offset,
        Err(DtsRefusal::Unexpected(offset)) => offset,
        Err(DtsRefusal::TwiceNamed(offset)) => offset,
        Err(DtsRefusal::BadPhandle(offset)) => offset,
        Err(DtsRefusal::NoLabel(offset)) => offset,
        Err(DtsRefusal::Memory(error)) => return Err(BoardRefusal::Memory(error)),
    };
    Err(BoardRefusal::BadTree(offset as u64))
}

/// The board that a tree says.
fn board_of(alloc: Global, text: &[u8], tree: &Tree) -> Result<Board, BoardRefusal>
    requires { IsSourceOf text.now tree.now }
    ensures { SaysBoard text.now result }
{
    let host = match host_settings(alloc, tree) {
        Ok(host) => host,
        Err(HostRefusal::Limit(name, number)) => return Err(BoardRefusal::Limit(name, number)),
        Err(HostRefusal::BadHost(path)) => return Err(BoardRefusal::BadHost(path)),
        Err(HostRefusal::Memory(error)) => return Err(BoardRefusal::Memory(error)),
    };
    let plans = plan_all(alloc, tree, &host)?;
    Ok(Board { host, plans })
}

/// The board without a tree.
fn bare_board(alloc: Global) -> Board
    ensures { IsBare result }
{
    Board {
        host: Host {
            harts: DEFAULT_HARTS,
            turns: DEFAULT_TURNS,
            areas: Vec::new(alloc),
            guests: Vec::new(alloc),
        },
        plans: Vec::new(alloc),
    }
}

/// The board that the text of a host tree says, or that of no host tree.
pub fn read_board(alloc: Global, text: Option<&[u8]>) -> Result<Board, BoardRefusal>
    ensures board { Says (option_copied text.entry) result }
    // What is given has numbers in range, and plans that keep the rules.
    ensures rules { IfOk result KeepsBoardRules }
{
    match text {
        Some(text) => {
            let tree = read_tree(alloc, text)?;
            board_of(alloc, text, &tree)
        }
        None => Ok(bare_board(alloc)),
    }
}
