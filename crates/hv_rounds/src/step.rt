//! One step of a terminal.
ghost use Rattle.std.specs.Prelude.{◌≡◌, ◌<◌, ◌-◌, IfOk};
ghost use Rattle.hv_words.specs.declared.command.Command.TheVariants as command;
ghost use Rattle.hv_words.specs.Commands.{Gives};
ghost use Rattle.hv_fpart.specs.Part.{IsFilesStep};
ghost use Rattle.hv_rounds.specs.declared.terminal.Terminal.{Terminal};
ghost use Rattle.hv_rounds.specs.Step.{IsStep, IsBegun, IsAsked, IsBadLine, SpentBy, KeepsFiles};

use crate::files::FileCell;
use crate::script::{RunAnswer, answer_run};
use crate::stop::Stop;
use crate::terminal::{Terminal, next_stamp};
use hv_event::{Asm, Bad, Cat, Dts, Ls, Mkdir, Refusal, Reply, Rest, Rm, Run, Step, Write};
use hv_fpart::{files_part, read_part};
use hv_model::Entry;
use hv_text::{Bytes, Path};
use hv_words::{Command, WordsRefusal, read_command};
use std::alloc::Global;

/// A further step of a line that rests.
pub fn rest_on(files: &FileCell, terminal: &mut Terminal) -> Result<Entry, Stop>
    requires { 0 < terminal.old.rests }
    ensures ok { IfOk result (λ e. IsStep files.now files.now terminal.old terminal.new e) }
    ensures spent { SpentBy result terminal.old.stamp 0 }
    ensures shown { terminal.new.shown ≡ terminal.old.shown }
{
    let stamp = next_stamp(terminal.stamp, 0)?;
    terminal.rests -= 1;
    Ok(terminal.make(stamp, Step::Rest(Rest), Reply::Rest, None))
}

/// The first step of a line that rests so often.
fn rest_first(
    files: &FileCell,
    terminal: &mut Terminal,
    line: &[u8],
    count: u64,
) -> Result<Entry, Stop>
    requires { Gives line.now (command.TermRest count) }
    ensures ok { IfOk result (λ e. (t : Terminal) → IsBegun t terminal.old line.now
        → IsStep files.now files.now t terminal.new e) }
    ensures spent { SpentBy result terminal.old.stamp 0 }
    ensures shown { terminal.new.shown ≡ terminal.old.shown }
{
    let stamp = next_stamp(terminal.stamp, 0)?;
    terminal.asked = count;
    terminal.rests = count - 1;
    Ok(terminal.make(stamp, Step::Rest(Rest), Reply::Rest, None))
}

/// The step of a line that gives no command.
fn bad_line(
    files: &FileCell,
    terminal: &mut Terminal,
    line: Bytes,
    why: Refusal,
) -> Result<Entry, Stop>
    requires { IsBadLine line why }
    ensures ok { IfOk result (λ e. (t : Terminal) → IsBegun t terminal.old line
        → IsStep files.now files.now t terminal.new e) }
    ensures spent { SpentBy result terminal.old.stamp 0 }
    ensures shown { terminal.new.shown ≡ terminal.old.shown }
{
    let stamp = next_stamp(terminal.stamp, 0)?;
    Ok(terminal.make(stamp, Step::Bad(Bad { line }), Reply::Bad(why), None))
}

/// The step of a command that the files decide.
fn step_files(
    alloc: Global,
    files: &mut FileCell,
    terminal: &mut Terminal,
    line: &[u8],
    step: Step,
) -> Result<Entry, Stop>
    requires kind { IsFilesStep step }
    requires asked { IsAsked line.now step }
    ensures ok { IfOk result (λ e. (t : Terminal) → IsBegun t terminal.old line.now
        → IsStep files.old files.new t terminal.new e) }
    ensures spent { SpentBy result terminal.old.stamp files.old.stamp }
    ensures kept { KeepsFiles result files.old files.new }
    ensures shown { terminal.new.shown ≡ terminal.old.shown }
{
    let stamp = next_stamp(terminal.stamp, files.stamp)?;
    let reply = files_part(alloc, &mut files.tree, &step)?;
    files.take_stamp(stamp);
    Ok(terminal.make(stamp, step, reply, None))
}

/// The step of a command that runs a script.
fn step_run(
    alloc: Global,
    files: &mut FileCell,
    terminal: &mut Terminal,
    line: &[u8],
    path: Path,
) -> Result<Entry, Stop>
    requires { Gives line.now (command.VfsRun path) }
    ensures ok { IfOk result (λ e. (t : Terminal) → IsBegun t terminal.old line.now
        → IsStep files.old files.new t terminal.new e) }
    ensures spent { SpentBy result terminal.old.stamp files.old.stamp }
    ensures kept { KeepsFiles result files.old files.new }
    ensures shown { terminal.new.shown ≡ terminal.old.shown }
{
    let stamp = next_stamp(terminal.stamp, files.stamp)?;
    let found = read_part(alloc, &files.tree, &path)?;
    let answer = answer_run(found, terminal.depth(), terminal.lines);
    terminal.open_answered(alloc, &answer)?;
    files.take_stamp(stamp);
    let RunAnswer { reply, lines } = answer;
    Ok(terminal.make(stamp, Step::Run(Run { path }), Reply::Run(reply), lines))
}

/// The first step of a command.
fn step_command(
    alloc: Global,
    files: &mut FileCell,
    terminal: &mut Terminal,
    line: &[u8],
    command: Command,
) -> Result<Entry, Stop>
    requires { Gives line.now command }
    ensures ok { IfOk result (λ e. (t : Terminal) → IsBegun t terminal.old line.now
        → IsStep files.old files.new t terminal.new e) }
    ensures spent { SpentBy result terminal.old.stamp files.old.stamp }
    ensures kept { KeepsFiles result files.old files.new }
    ensures shown { terminal.new.shown ≡ terminal.old.shown }
{
    match command {
        Command::VfsLs(path) => step_files(alloc, files, terminal, line, Step::Ls(Ls { path })),
        Command::VfsCat(path) => step_files(alloc, files, terminal, line, Step::Cat(Cat { path })),
        Command::VfsDts(path) => step_files(alloc, files, terminal, line, Step::Dts(Dts { path })),
        Command::VfsMkdir(path) => {
            step_files(alloc, files, terminal, line, Step::Mkdir(Mkdir { path }))
        }
        Command::VfsRm(path) => step_files(alloc, files, terminal, line, Step::Rm(Rm { path })),
        Command::VfsWrite(path, bytes) => {
            step_files(
                alloc,
                files,
                terminal,
                line,
                Step::Write(Write { path, bytes }),
            )
        }
        Command::VfsAsm(source, target) => {
            step_files(
                alloc,
                files,
                terminal,
                line,
                Step::Asm(Asm { source, target }),
            )
        }
        Command::VfsRun(path) => step_run(alloc, files, terminal, line, path),
        Command::TermRest(count) => rest_first(files, terminal, line, count),
    }
}

/// The first step of a line.
pub fn step_line(
    alloc: Global,
    files: &mut FileCell,
    terminal: &mut Terminal,
    line: Bytes,
) -> Result<Entry, Stop>
    ensures ok { IfOk result (λ e. (t : Terminal) → IsBegun t terminal.old line
        → IsStep files.old files.new t terminal.new e) }
    ensures spent { SpentBy result terminal.old.stamp files.old.stamp }
    ensures kept { KeepsFiles result files.old files.new }
    ensures shown { terminal.new.shown ≡ terminal.old.shown }
{
    match read_command(alloc, line.as_slice()) {
        Ok(command) => step_command(alloc, files, terminal, line.as_slice(), command),
        Err(WordsRefusal::NoCommand) => bad_line(files, terminal, line, Refusal::NoCommand),
        Err(WordsRefusal::BadWords(number)) => {
            bad_line(files, terminal, line, Refusal::BadWords(number as u64))
        }
        Err(WordsRefusal::Memory(error)) => Err(Stop::Memory(error)),
    }
}
