//! The program: standard input to standard output.
#![tactic(auto)]

mod parts;

use hv_base::{InSource, OutSink};
use hv_emu::Emulator;
use hv_plic::Plic;
use hv_timer::Timer;
use hv_uart::Uart;
use parts::add;
use std::alloc::{AllocError, Global};
use std::env::{self, Env};
use std::io::Write;
use std::process::ExitCode;
use std::{io, str};
use xvsim::{KeptOf, Status, xvsim};

/// The words behind the program's name. Words that are no text are wrong words.
fn words(rt: &(impl Env + AllocGlobal)) -> Result<Vec<String>, Status> {
    let mut words = Vec::new(rt.alloc());
    let mut args = match env::args(rt) {
        Ok(args) => args,
        Err(error) if error.kind() == io::ErrorKind::OutOfMemory => {
            return Err(Status::OutOfMemory);
        }
        Err(_) => return Err(Status::Usage),
    };
    let _program = args.next();
    for word in args {
        if words.push(word).is_err() {
            return Err(Status::OutOfMemory);
        }
    }
    Ok(words)
}

/// Carries out the command with a board's emulators, eight of each kind: serial ports, interrupt
/// controllers and timers, in this order and each in its reset state.
fn carry_out(
    rt: &(impl AllocGlobal + Input + Print),
    words: &[String],
) -> Result<Status, AllocError> {
    let alloc = rt.alloc();
    // A line each: what a loop keeps of emulators in boxes can't be named in its invariant.
    let mut parts: Vec<Box<dyn Emulator + Send>> = Vec::new(alloc);
    add(&mut parts, Box::new(alloc, Uart::new(alloc)?)?)?;
    add(&mut parts, Box::new(alloc, Uart::new(alloc)?)?)?;
    add(&mut parts, Box::new(alloc, Uart::new(alloc)?)?)?;
    add(&mut parts, Box::new(alloc, Uart::new(alloc)?)?)?;
    add(&mut parts, Box::new(alloc, Uart::new(alloc)?)?)?;
    add(&mut parts, Box::new(alloc, Uart::new(alloc)?)?)?;
    add(&mut parts, Box::new(alloc, Uart::new(alloc)?)?)?;
    add(&mut parts, Box::new(alloc, Uart::new(alloc)?)?)?;
    add(&mut parts, Box::new(alloc, Plic::new())?)?;
    add(&mut parts, Box::new(alloc, Plic::new())?)?;
    add(&mut parts, Box::new(alloc, Plic::new())?)?;
    add(&mut parts, Box::new(alloc, Plic::new())?)?;
    add(&mut parts, Box::new(alloc, Plic::new())?)?;
    add(&mut parts, Box::new(alloc, Plic::new())?)?;
    add(&mut parts, Box::new(alloc, Plic::new())?)?;
    add(&mut parts, Box::new(alloc, Plic::new())?)?;
    add(&mut parts, Box::new(alloc, Timer::new())?)?;
    add(&mut parts, Box::new(alloc, Timer::new())?)?;
    add(&mut parts, Box::new(alloc, Timer::new())?)?;
    add(&mut parts, Box::new(alloc, Timer::new())?)?;
    add(&mut parts, Box::new(alloc, Timer::new())?)?;
    add(&mut parts, Box::new(alloc, Timer::new())?)?;
    add(&mut parts, Box::new(alloc, Timer::new())?)?;
    add(&mut parts, Box::new(alloc, Timer::new())?)?;
    let mut source = InSource::new(rt.reader());
    let mut sink = OutSink::new(io::writer(rt));
    let mut kept = KeptOf { run: None };
    Ok(xvsim(alloc, words, &mut source, &mut sink, parts, &mut kept))
}

fn status_of(rt: &(impl Env + AllocGlobal + Input + Print)) -> Status {
    let words = match words(rt) {
        Ok(words) => words,
        Err(status) => return status,
    };
    match carry_out(rt, &words) {
        Ok(status) => status,
        Err(_) => Status::OutOfMemory,
    }
}

fn code_of(status: &Status) -> u8 {
    match status {
        Status::Done => 0,
        Status::Usage => 2,
        Status::ReadFault => 3,
        Status::WriteFault => 4,
        Status::BadBundle { .. } => 5,
        Status::BadTree { .. } => 6,
        Status::Limit { .. } => 7,
        Status::StampsSpent { .. } => 8,
        Status::BadHost { .. } => 9,
        Status::OutOfMemory => 12,
    }
}

fn tell(rt: &impl Eprint, status: &Status) -> io::Result<()> {
    match status {
        Status::Done => Ok(()),
        Status::Usage => eprintln!(rt; "xvsim: usage"),
        Status::ReadFault => eprintln!(rt; "xvsim: read fault"),
        Status::WriteFault => eprintln!(rt; "xvsim: write fault"),
        Status::BadBundle { offset } => eprintln!(rt; "xvsim: bad bundle at {offset}"),
        Status::BadTree { offset } => eprintln!(rt; "xvsim: bad tree at {offset}"),
        Status::Limit { name, number } => { eprintln!(rt; "xvsim: limit {} {number}", name.name()) }
        Status::StampsSpent { .. } => eprintln!(rt; "xvsim: stamps spent"),
        Status::BadHost { path } => {
            eprintln!(rt;
                "xvsim: bad host {}",
                str::from_utf8(path.as_slice()).unwrap_or("")
            )
        }
        Status::OutOfMemory => eprintln!(rt; "xvsim: out of memory"),
    }
}

fn main(rt: HostRuntime) -> ExitCode {
    let status = status_of(&rt);
    let _ = tell(&rt, &status);
    ExitCode::from(code_of(&status))
}
