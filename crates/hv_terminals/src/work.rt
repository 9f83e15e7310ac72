//! What commands ask for.
ghost use Rattle.std.specs.Prelude.{◌≡◌};
ghost use Rattle.hv_model.specs.Work.{work_of};
ghost use Rattle.hv_terminals.specs.Work.{IsRead, IsWork, work_in};

use hv_programs::Asked;
use hv_step::{Asm, Cat, Dts, Ls, Mkdir, Rm, Run, Step, Write};
use hv_words::Command;

/// A command has one step, or it is a line of several.
#[derive(Drop)]
pub enum Work {
    Once(Step),
    Several(Asked),
}

/// What a command asks for.
pub fn work_of(command: Command) -> Work
    requires { IsRead command }
    ensures work { work_in result ≡ work_of command }
    ensures is { IsWork (work_of command) }
{
    match command {
        Command::VfsLs(path) => Work::Once(Step::Ls(Ls { path })),
        Command::VfsCat(path) => Work::Once(Step::Cat(Cat { path })),
        Command::VfsDts(path) => Work::Once(Step::Dts(Dts { path })),
        Command::VfsMkdir(path) => Work::Once(Step::Mkdir(Mkdir { path })),
        Command::VfsRm(path) => Work::Once(Step::Rm(Rm { path })),
        Command::VfsWrite(path, bytes) => Work::Once(Step::Write(Write { path, bytes })),
        Command::VfsAsm(source, target) => Work::Once(Step::Asm(Asm { source, target })),
        Command::VfsRun(path) => Work::Once(Step::Run(Run { path })),
        Command::TermRest(count) => Work::Several(Asked::Rests(count as u16)),
    }
}
