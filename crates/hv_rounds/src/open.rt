//! A board at the start of a run.
ghost use Rattle.std.specs.Prelude.{List, ◌≡◌, ◌≤◌, ◌<◌, ◌==◌, ◌+◌, [], ◌∷◌, IfOk, if◌then◌else◌, slice_get, unwrap_or, length};
ghost use Rattle.hv_text.specs.declared.limits.TheConstants.{MOST_LINES};
ghost use Rattle.hv_text.specs.Lines.{script_lines};
ghost use Rattle.hv_words.specs.Words.{commands_of};
ghost use Rattle.hv_emu.specs.Device.{DevState};
ghost use Rattle.hv_model.specs.Origin.{origin_of, boot_among, own_among};
ghost use Rattle.hv_model.specs.Files.{load_files};
ghost use Rattle.hv_model.specs.Legal.{lines_among, session_at_start};
ghost use Rattle.hv_rounds.specs.Cells.{session_of, IsNew};
ghost use Rattle.hv_rounds.specs.Phase.{BootPart};
ghost use Rattle.hv_rounds.specs.Outcome.{LinesFit};

use crate::board::Board;
use crate::files::FileCell;
use crate::scripts::OpenScripts;
use crate::terminal::Terminal;
use hv_files::FileTree;
use hv_model::Opening;
use hv_text::Bytes;
use hv_words::{Script, count_lines};
use std::alloc::{AllocError, Global};

/// The script of an index, or no bytes.
fn script_at(opening: &Opening, index: usize) -> &[u8]
    ensures { result.now ≡ unwrap_or (slice_get opening.now.scripts index) [] }
{
    match opening.scripts.as_slice().get(index) {
        Some(script) => script.as_slice(),
        None => b"".as_slice(),
    }
}

/// The own script of a terminal.
fn own_bytes(opening: &Opening, number: u8) -> &[u8]
    requires { number < 4 }
    ensures { result.now ≡ own_among opening.now.scripts number }
{
    script_at(opening, number as usize + 1)
}

/// One script that is open.
fn open_one(alloc: Global, bytes: &[u8]) -> Result<OpenScripts, AllocError>
    ensures { IfOk result (λ scripts. scripts ≡ commands_of bytes.now ∷ []) }
{
    let script = Script::new(Bytes::from_vec(Vec::from_slice(alloc, bytes)?));
    let mut scripts = OpenScripts::new(alloc);
    scripts.open(script)?;
    Ok(scripts)
}

fn open_boot(alloc: Global, opening: &Opening, number: u8) -> Result<OpenScripts, AllocError>
    ensures { IfOk result (λ scripts. scripts ≡ (if number == 0 then commands_of (boot_among opening.now.scripts) ∷ [] else [])) }
{
    if number == 0 {
        return open_one(alloc, script_at(opening, 0));
    }
    Ok(OpenScripts::new(alloc))
}

fn boot_lines(opening: &Opening, number: u8) -> usize
    ensures { result ≡ (if number == 0 then length (script_lines (boot_among opening.now.scripts)) else 0) }
{
    if number == 0 {
        return count_lines(script_at(opening, 0));
    }
    0
}

/// How many lines a terminal's scripts have at the start.
fn lines_of(opening: &Opening, number: u8) -> u64
    requires is_one { number < 4 }
    requires fit { lines_among opening.now.scripts number ≤ MOST_LINES }
    ensures { result ≡ lines_among opening.now.scripts number }
{
    let boot = boot_lines(opening, number);
    let own = count_lines(own_bytes(opening, number));
    boot as u64 + own as u64
}

/// A terminal at the start.
fn open_terminal(alloc: Global, opening: &Opening, number: u8) -> Result<Terminal, AllocError>
    requires is_one { number < 4 }
    requires fit { lines_among opening.now.scripts number ≤ MOST_LINES }
    ensures session { IfOk result (λ t. session_of t ≡ session_at_start (origin_of opening.now []) number) }
    ensures new { IfOk result (λ t. IsNew t number) }
{
    let boot = open_boot(alloc, opening, number)?;
    let own = open_one(alloc, own_bytes(opening, number))?;
    let lines = lines_of(opening, number);
    Ok(Terminal {
        number,
        count: 0,
        stamp: 0,
        asked: 0,
        rests: 0,
        boot,
        own,
        lines,
        shown: Bytes::from_vec(Vec::new(alloc)),
    })
}

/// The board at the start.
pub fn open_board(alloc: Global, opening: &Opening, files: FileTree) -> Result<Board, AllocError>
    requires lines { LinesFit opening.now }
    requires files { files ≡ load_files opening.now.files }
    ensures { IfOk result (λ board. (devices : List DevState)
        → BootPart (origin_of opening.now devices) [] board) }
{
    let mut terminals = Vec::new(alloc);
    let first = open_terminal(alloc, opening, 0)?;
    terminals.push(first)?;
    let second = open_terminal(alloc, opening, 1)?;
    terminals.push(second)?;
    let third = open_terminal(alloc, opening, 2)?;
    terminals.push(third)?;
    let fourth = open_terminal(alloc, opening, 3)?;
    terminals.push(fourth)?;
    Ok(Board {
        files: FileCell {
            tree: files,
            stamp: 0,
        },
        terminals,
    })
}
