//! What a line on guests asks for.
use hv_text::{Bytes, Path};

/// What is done to VCPUs.
#[derive(Clone, Copy, Debug, PartialEq, Eq)]
pub enum Change {
    Kick,
    Resume,
    Pause,
    Halt,
    Reset,
}

/// One variant for each row of guests, with its arguments.
#[derive(Debug, Drop)]
pub enum GuestCommand {
    /// `guest list`
    List,
    /// `guest create N`
    Create(Bytes),
    /// `guest destroy N`
    Destroy(Bytes),
    /// `guest kick N`, also resume, pause, halt and reset
    Change(Change, Bytes),
    /// `guest region_add N R`
    RegionAdd(Bytes, Bytes),
    /// `guest region_del N R`
    RegionDel(Bytes, Bytes),
    /// `guest regions N`
    Regions(Bytes),
    /// `guest mem N ADDR COUNT`, with COUNT from 1 to 256
    Mem(Bytes, u64, u64),
}

/// One variant for each row of VCPUs, with its arguments.
#[derive(Debug, Drop)]
pub enum VcpuCommand {
    /// `vcpu list`
    List,
    /// `vcpu kick V`, also resume, pause, halt and reset
    Change(Change, u8),
    /// `vcpu dump V`
    Dump(u8),
}

/// One variant for each row of serial devices, with its arguments.
#[derive(Debug, Drop)]
pub enum SerialCommand {
    /// `vserial send N R TEXT`
    Send(Bytes, Bytes, Bytes),
    /// `vserial dump N R`
    Dump(Bytes, Bytes),
}

/// A command on guests, by its family.
#[derive(Debug, Drop)]
pub enum GuestLineCommand {
    /// `vfs guest_load N P ADDR`: the guest, what is read, and where it is put
    Load(Bytes, Path, u64),
    Guest(GuestCommand),
    Vcpu(VcpuCommand),
    Serial(SerialCommand),
}
