//! Steps and their data.
use hv_kinds::{AccessKind, Direction, Generation};
use hv_text::{Bytes, Path};

/// Reads a line that is no command.
#[derive(Debug, Drop)]
pub struct Bad {
    pub line: Bytes,
}

/// Does nothing for one step.
#[derive(Clone, Copy, Debug, PartialEq, Eq)]
pub struct Rest;

/// Lists a folder.
#[derive(Debug, Drop)]
pub struct Ls {
    pub path: Path,
}

/// Reads a file.
#[derive(Debug, Drop)]
pub struct Cat {
    pub path: Path,
}

/// Reads a file as the source of a device tree.
#[derive(Debug, Drop)]
pub struct Dts {
    pub path: Path,
}

/// Opens a file as a script.
#[derive(Debug, Drop)]
pub struct Run {
    pub path: Path,
}

/// Makes a folder.
#[derive(Debug, Drop)]
pub struct Mkdir {
    pub path: Path,
}

/// Removes a file or an empty folder.
#[derive(Debug, Drop)]
pub struct Rm {
    pub path: Path,
}

/// Writes a file.
#[derive(Debug, Drop)]
pub struct Write {
    pub path: Path,
    pub bytes: Bytes,
}

/// Assembles the source file into the target file.
#[derive(Debug, Drop)]
pub struct Asm {
    pub source: Path,
    pub target: Path,
}

/// Lists the guests.
#[derive(Clone, Copy, Debug)]
pub struct Guests;

/// Claims a slot for a guest of this name.
#[derive(Debug, Drop)]
pub struct Name {
    pub name: Bytes,
}

/// Turns a guest from one stage to the next, or gives its slot up.
#[derive(Debug, Drop)]
pub struct Stage {
    pub name: Bytes,
    pub from: hv_kinds::Stage,
    /// None where the slot becomes free.
    pub to: Option<hv_kinds::Stage>,
}

/// Adds a region to a guest in a stage.
#[derive(Debug, Drop)]
pub struct Add {
    pub name: Bytes,
    pub region: Bytes,
    pub stage: hv_kinds::Stage,
    /// None where the directory refused; so below.
    pub generation: Option<Generation>,
}

/// Drops a region of a guest in a stage.
#[derive(Debug, Drop)]
pub struct Drop {
    pub name: Bytes,
    pub region: Bytes,
    pub stage: hv_kinds::Stage,
    pub generation: Option<Generation>,
}

/// Lists a guest's windows.
#[derive(Debug, Drop)]
pub struct Regions {
    pub name: Bytes,
    pub generation: Option<Generation>,
}

/// Loads a file into a guest's memory.
#[derive(Debug, Drop)]
pub struct Load {
    pub name: Bytes,
    pub path: Path,
    pub address: u64,
    pub generation: Option<Generation>,
}

/// Reads a guest's memory.
#[derive(Debug, Drop)]
pub struct Mem {
    pub name: Bytes,
    pub address: u64,
    /// The number of bytes.
    pub count: u64,
    pub generation: Option<Generation>,
}

/// Resets a region's device.
#[derive(Debug, Drop)]
pub struct Devreset {
    pub name: Bytes,
    pub region: Bytes,
    pub generation: Option<Generation>,
}

/// Sends bytes to a region's serial device.
#[derive(Debug, Drop)]
pub struct Feed {
    pub name: Bytes,
    pub region: Bytes,
    pub bytes: Bytes,
    pub generation: Option<Generation>,
}

/// Reads what a region's serial device has sent.
#[derive(Debug, Drop)]
pub struct Output {
    pub name: Bytes,
    pub region: Bytes,
    pub generation: Option<Generation>,
}

/// Gives a VCPU to the guest of this birth.
#[derive(Clone, Copy, Debug)]
pub struct Vadd {
    pub vcpu: u8,
    pub birth: u64,
}

/// Takes a VCPU from its guest.
#[derive(Clone, Copy, Debug)]
pub struct Vdrop {
    pub vcpu: u8,
}

/// The guest by which a VCPU's step is made.
#[derive(Debug, Drop)]
pub struct ByGuest {
    pub name: Bytes,
    pub generation: Option<Generation>,
}

/// Makes a VCPU that is in reset ready.
#[derive(Debug, Drop)]
pub struct Kick {
    pub vcpu: u8,
    pub guest: Option<ByGuest>,
}

/// Makes a paused VCPU ready.
#[derive(Debug, Drop)]
pub struct Resume {
    pub vcpu: u8,
    pub guest: Option<ByGuest>,
}

/// Pauses a VCPU.
#[derive(Debug, Drop)]
pub struct Pause {
    pub vcpu: u8,
    pub guest: Option<ByGuest>,
}

/// Halts a VCPU.
#[derive(Debug, Drop)]
pub struct Halt {
    pub vcpu: u8,
    pub guest: Option<ByGuest>,
}

/// Resets a VCPU.
#[derive(Debug, Drop)]
pub struct Reset {
    pub vcpu: u8,
    pub guest: Option<ByGuest>,
}

/// Reads a VCPU's state and registers.
#[derive(Clone, Copy, Debug)]
pub struct Look {
    pub vcpu: u8,
}

/// Ticks the clock of the guest in a slot.
#[derive(Clone, Copy, Debug)]
pub struct Tick {
    pub slot: u8,
}

/// Finds no VCPU to run.
#[derive(Clone, Copy, Debug)]
pub struct Idle;

/// Begins to run a VCPU.
#[derive(Clone, Copy, Debug)]
pub struct Dispatch {
    pub vcpu: u8,
}

/// Puts a running VCPU back into the queue.
#[derive(Clone, Copy, Debug)]
pub struct Preempt {
    pub vcpu: u8,
}

/// Lets a VCPU go that runs here no more.
#[derive(Clone, Copy, Debug)]
pub struct Leave {
    pub vcpu: u8,
}

/// Takes an interrupt.
#[derive(Clone, Copy, Debug)]
pub struct Take {
    pub vcpu: u8,
}

/// Fetches an instruction from a row and carries it out.
#[derive(Clone, Copy, Debug)]
pub struct Fetch {
    pub vcpu: u8,
    pub row: u8,
    pub generation: Generation,
}

/// Makes the access of a load or a store.
#[derive(Clone, Copy, Debug)]
pub struct Access {
    pub vcpu: u8,
    pub row: u8,
    pub address: u64,
    /// The number of bytes.
    pub size: u8,
    pub direction: Direction,
    /// What is stored; 0 for a load.
    pub value: u64,
    pub generation: Generation,
}

/// Takes the fault of an access that reaches no window.
#[derive(Clone, Copy, Debug)]
pub struct Fault {
    pub vcpu: u8,
    pub address: u64,
    /// The number of bytes.
    pub size: u8,
    pub access: AccessKind,
    pub generation: Generation,
}

/// Moves a ready VCPU from the longest queue to the shortest.
#[derive(Clone, Copy, Debug)]
pub struct Balance;

/// Carries a row's interrupt line to a source of its parent.
#[derive(Clone, Copy, Debug)]
pub struct Sample {
    pub row: u8,
    pub parent: u8,
    pub source: u8,
    pub generation: Generation,
}

/// Carries a row's pins to a VCPU.
#[derive(Clone, Copy, Debug)]
pub struct Pin {
    pub row: u8,
    pub vcpu: u8,
    pub generation: Generation,
}

/// What is done, with the data that its text shows.
#[derive(Debug, Drop)]
pub enum Step {
    Bad(Bad),
    Rest(Rest),
    Ls(Ls),
    Cat(Cat),
    Dts(Dts),
    Run(Run),
    Mkdir(Mkdir),
    Rm(Rm),
    Write(Write),
    Asm(Asm),
    Guests(Guests),
    Name(Name),
    Stage(Stage),
    Add(Add),
    Drop(Drop),
    Regions(Regions),
    Load(Load),
    Mem(Mem),
    Devreset(Devreset),
    Feed(Feed),
    Output(Output),
    Vadd(Vadd),
    Vdrop(Vdrop),
    Kick(Kick),
    Resume(Resume),
    Pause(Pause),
    Halt(Halt),
    Reset(Reset),
    Look(Look),
    Tick(Tick),
    Idle(Idle),
    Dispatch(Dispatch),
    Preempt(Preempt),
    Leave(Leave),
    Take(Take),
    Fetch(Fetch),
    Access(Access),
    Fault(Fault),
    Balance(Balance),
    Sample(Sample),
    Pin(Pin),
}
