//! The whole run.
ghost use Rattle.std.specs.Prelude.{List, ◌≡◌, ◌++◌, map, IfOk};
ghost use Rattle.hv_merge.specs.Merging.{AreLogs, IsMergeOf};
ghost use Rattle.hv_emu.specs.Device.{DevState};
ghost use Rattle.hv_model.specs.Origin.{origin_of};
ghost use Rattle.hv_model.specs.Files.{load_files};
ghost use Rattle.hv_rounds.specs.Close.{logs_of, Closes};
ghost use Rattle.hv_rounds.specs.Outcome.{LinesFit, IsOutcome};
ghost use Rattle.hv_rounds.specs.Phase.{IsBooted};

use crate::board::Board;
use crate::files::FileCell;
use crate::open::open_board;
use crate::phases::{run_boot, run_rounds};
use crate::split::{Logs, no_logs, push_entries};
use crate::terminal::Terminal;
use hv_event::Event;
use hv_files::FileTree;
use hv_merge::merge;
use hv_model::{Entry, Opening};
use hv_text::Strings;
use std::alloc::{AllocError, Global};

/// What a run leaves.
#[derive(Drop)]
pub struct Outcome {
    /// The events by rising stamp, and at one stamp by actor.
    pub history: Vec<Event>,
    /// The files at the end.
    pub files: FileTree,
    /// What each terminal showed, by number.
    pub transcripts: Strings,
    /// The last stamp, where a step found it and the run was stopped.
    pub spent: Option<u64>,
}

/// The merged logs.
fn merge_logs(alloc: Global, boot: Vec<Entry>, made: Vec<Entry>) -> Result<Vec<Event>, AllocError>
    requires { AreLogs (logs_of (boot.items ++ made.items)) }
    ensures { IfOk result (λ all. IsMergeOf (logs_of (boot.items ++ made.items)) all.items) }
{
    let mut logs = no_logs(alloc);
    push_entries(&mut logs, boot)?;
    push_entries(&mut logs, made)?;
    let Logs {
        zero,
        one,
        two,
        three,
    } = logs;
    let mut all = Vec::new(alloc);
    all.push(zero)?;
    all.push(one)?;
    all.push(two)?;
    all.push(three)?;
    merge(alloc, all)
}

/// What the terminals have shown.
fn transcripts(alloc: Global, terminals: &[Terminal]) -> Result<Strings, AllocError>
    ensures { IfOk result (λ shown. shown ≡ map (λ t. t.shown) terminals.now) }
{
    let mut shown = Strings::new(alloc)?;
    for terminal in terminals {
        shown.push(terminal.shown.clone()?)?;
    }
    Ok(shown)
}

/// Closes a board.
fn close(
    alloc: Global,
    board: Board,
    boot: Vec<Entry>,
    made: Vec<Entry>,
    spent: Option<u64>,
) -> Result<Outcome, AllocError>
    requires { AreLogs (logs_of (boot.items ++ made.items)) }
    ensures { IfOk result (λ o. Closes board (boot.items ++ made.items) spent o) }
{
    let history = merge_logs(alloc, boot, made)?;
    let transcripts = transcripts(alloc, &board.terminals)?;
    let Board {
        files,
        terminals: _,
    } = board;
    let FileCell { tree, stamp: _ } = files;
    Ok(Outcome {
        history,
        files: tree,
        transcripts,
        spent,
    })
}

/// The rounds, behind the boot script.
fn run_on(
    alloc: Global,
    opening: &Opening,
    board: Board,
    boot: Vec<Entry>,
) -> Result<Outcome, AllocError>
    requires turns { opening.now.turns ≡ 0 }
    requires booted { (devices : List DevState)
        → IsBooted (origin_of opening.now devices) boot.items board }
    ensures { IfOk result (λ o. (devices : List DevState)
        → IsOutcome (origin_of opening.now devices) o o.spent) }
{
    let mut board = board;
    board.begin_together();
    let rounds = run_rounds(alloc, &mut board)?;
    close(alloc, board, boot, rounds.made, rounds.spent)
}

/// Runs the scripts of an opening: Terminal 0 its boot script, and then all terminals in rounds.
pub fn run(alloc: Global, opening: &Opening, files: FileTree) -> Result<Outcome, AllocError>
    requires turns { opening.now.turns ≡ 0 }
    requires lines { LinesFit opening.now }
    requires files { files ≡ load_files opening.now.files }
    ensures { IfOk result (λ o. (devices : List DevState)
        → IsOutcome (origin_of opening.now devices) o o.spent) }
{
    let mut board = open_board(alloc, opening, files)?;
    let boot = run_boot(alloc, &mut board)?;
    match boot.spent {
        Some(stamp) => {
            let none = Vec::new(alloc);
            close(alloc, board, boot.made, none, Some(stamp))
        }
        None => run_on(alloc, opening, board, boot.made),
    }
}
