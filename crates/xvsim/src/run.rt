//! A run of a bundle.
ghost use Rattle.std.specs.Prelude.{◌≡◌, IfOk};
ghost use Rattle.hv_model.specs.declared.opening.Opening.{Opening};
ghost use Rattle.hv_model.specs.Files.{load_files};
ghost use Rattle.xvsim.specs.Opening.{IsOpeningOf};
ghost use Rattle.xvsim.specs.Input.{IsWhole};
ghost use Rattle.xvsim.specs.Made.{IsMadeFrom};

use crate::input::Input;
use crate::kept::{Final, KeptRunOf};
use crate::report::report_of_run;
use hv_emu::Emulator;
use hv_files::FileTree;
use hv_host::Board;
use hv_model::Opening;
use hv_plan::Host;
use hv_rounds::{Outcome, run};
use hv_text::{Bytes, Items, Strings};
use std::alloc::{AllocError, Global};

/// What a run begins with, and the tree of its files.
#[derive(Drop)]
pub struct Start {
    pub opening: Opening,
    pub files: FileTree,
}

/// What came of a run: it was finished, and this is its report, or it was stopped at this stamp.
#[derive(Drop)]
pub enum Made<E> {
    Finished(KeptRunOf<E>, Bytes),
    Stopped(KeptRunOf<E>, u64),
}

/// What a run of an input begins with.
fn start_of(input: Input) -> Start
    requires { IsWhole input }
    ensures opening { IsOpeningOf input.files.items result.opening }
    ensures loaded { result.files ≡ load_files result.opening.files }
{
    let Input {
        size: _,
        files,
        tree,
        scripts,
        board,
    } = input;
    let Board { host, plans } = board;
    let Host {
        harts,
        turns: _,
        areas,
        guests: _,
    } = host;
    Start {
        opening: Opening {
            harts,
            turns: 0,
            files: Items::from_vec(files),
            areas: Items::from_vec(areas),
            plans: Items::from_vec(plans),
            scripts: Strings::from_vec(scripts),
        },
        files: tree,
    }
}

/// Runs the scripts of an input, with these emulators.
pub fn make_run<E: Emulator>(
    alloc: Global,
    input: Input,
    parts: Vec<E>,
) -> Result<Made<E>, AllocError>
    requires { IsWhole input }
    ensures { IfOk result (λ made. (o : Opening)
        × IsOpeningOf input.files.items o × IsMadeFrom E.state parts.items o made) }
{
    let Start { opening, files } = start_of(input);
    let Outcome {
        history,
        files,
        transcripts,
        spent,
    } = run(alloc, &opening, files)?;
    let run = KeptRunOf {
        opening,
        history,
        state: Final { files },
        shelf: parts,
    };
    match spent {
        Some(stamp) => Ok(Made::Stopped(run, stamp)),
        None => {
            let report = report_of_run(alloc, &run.opening, &run.history, &transcripts)?;
            Ok(Made::Finished(run, report))
        }
    }
}
