//! What a region is made of.
ghost use Rattle.std.specs.Prelude.{◌≡◌, ◌+◌, ◌^◌, ◌<◌, ◌≤◌, Some, length};
ghost use Rattle.std.specs.Option.{option_copied, option_map};
ghost use Rattle.hv_emu.specs.Device.{after_attach};
ghost use Rattle.hv_body.specs.Contents.{map_device, new_contents, fetched, loaded, after_load, stored, after_store, put_into, byte_at, device_in};
ghost use Rattle.hv_body.specs.Rules.{ReachesTo, IsMemory, FitsAnswer, CanMake, zeros_for};

use crate::memory::Memory;
use crate::place::Answer;
use hv_emu::Emulator;
use hv_region::{Form, RegionPlan};

/// What a live region is made of.
#[derive(Drop)]
pub enum Contents<E> {
    /// RAM.
    Writable(Memory),
    /// ROM.
    ReadOnly(Memory),
    /// A device.
    Emulated(E),
    /// A part of an area, from an offset on.
    Shared { area: u8, offset: u64 },
}

impl<E: Emulator> Contents<E> {
    /// The contents of a new region.
    pub fn new(plan: &RegionPlan, memory: Memory, part: Option<E>, vcpus: u8) -> Contents<E>
        requires some { 1 ≤ vcpus }
        requires few { vcpus ≤ 4 }
        requires memory { memory ≡ zeros_for plan.now.form plan.now.size }
        requires form { CanMake plan.now.form part }
        ensures { let device = option_map (λ p. after_attach (E.state p) vcpus) part in
            new_contents plan.now.form plan.now.size device ≡ Some (map_device E.state result) }
    {
        match part {
            Some(mut part) => {
                part.attach(vcpus);
                Contents::Emulated(part)
            }
            None => match &plan.form {
                Form::Rom => Contents::ReadOnly(memory),
                Form::Real { area, offset } => Contents::Shared {
                    area: *area,
                    offset: *offset,
                },
                _ => Contents::Writable(memory),
            },
        }
    }

    pub fn fetch(&self, offset: u64, size: u8) -> Answer
        requires some { 1 ≤ size }
        requires few { size ≤ 8 }
        requires within { ReachesTo self.now (offset + size) }
        ensures value { result ≡ fetched self.now offset size }
        ensures fits { FitsAnswer size result }
    {
        match self {
            Contents::Writable(memory) => Answer::Answered(memory.read(offset, size)),
            Contents::ReadOnly(memory) => Answer::Answered(memory.read(offset, size)),
            Contents::Emulated(_) => Answer::NoExec,
            Contents::Shared {
                area,
                offset: start,
            } => Answer::InArea(*area, *start + offset),
        }
    }

    pub fn read(&mut self, offset: u64, size: u8) -> Answer
        requires some { 1 ≤ size }
        requires few { size ≤ 8 }
        requires within { ReachesTo self.old (offset + size) }
        ensures answer { result ≡ loaded (map_device E.state self.old) offset size }
        ensures left { map_device E.state self.new
            ≡ after_load (map_device E.state self.old) offset size }
    {
        match self {
            Contents::Emulated(part) => match part.read(offset, size) {
                Some(value) => Answer::Answered(value),
                None => Answer::Denied,
            },
            _ => self.fetch(offset, size),
        }
    }

    pub fn write(&mut self, offset: u64, size: u8, value: u64) -> Answer
        requires some { 1 ≤ size }
        requires few { size ≤ 8 }
        requires fits { value < 256 ^ size }
        requires within { ReachesTo self.old (offset + size) }
        ensures answer { result ≡ stored (map_device E.state self.old) offset size value }
        ensures left { map_device E.state self.new
            ≡ after_store (map_device E.state self.old) offset size value }
    {
        match self {
            Contents::Writable(memory) => {
                memory.write(offset, size, value);
                Answer::Answered(0)
            }
            Contents::ReadOnly(_) => Answer::Denied,
            Contents::Emulated(part) => {
                if part.write(offset, size, value) {
                    Answer::Answered(0)
                } else {
                    Answer::Denied
                }
            }
            Contents::Shared {
                area,
                offset: start,
            } => Answer::InArea(*area, *start + offset),
        }
    }

    /// Puts bytes into memory.
    pub fn store(&mut self, offset: u64, bytes: &[u8])
        requires { IsMemory self.old (offset + length bytes.now) }
        ensures { self.new ≡ put_into self.old offset bytes.now }
    {
        match self {
            Contents::Writable(memory) => memory.store(offset, bytes),
            Contents::ReadOnly(memory) => memory.store(offset, bytes),
            _ => {}
        }
    }

    /// The byte of memory at an offset.
    pub fn byte(&self, offset: u64) -> Option<u8>
        ensures { result ≡ byte_at self.now offset }
    {
        match self {
            Contents::Writable(memory) => memory.byte(offset),
            Contents::ReadOnly(memory) => memory.byte(offset),
            _ => None,
        }
    }

    /// The device.
    pub fn device(&self) -> Option<&E>
        ensures { option_copied result ≡ device_in self.now }
    {
        match self {
            Contents::Emulated(part) => Some(part),
            _ => None,
        }
    }

    /// The device, taken out.
    pub fn into_device(self) -> Option<E>
        ensures { result ≡ device_in self }
    {
        match self {
            Contents::Emulated(part) => Some(part),
            _ => None,
        }
    }
}
