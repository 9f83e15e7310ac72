//! Areas of the host.
ghost use Rattle.std.specs.Prelude.{◌≡◌, ◌+◌, ◌^◌, ◌<◌, ◌≤◌, length, replicate, slice_get, IfOk};
ghost use Rattle.hv_body.specs.Memory.{number_at, with_bytes, with_number};

use crate::memory::Memory;
use std::alloc::{AllocError, Global};
use std::marker::Model;

/// Memory of the host that guests can share, which contracts see as a list of bytes.
#[derive(Debug, Drop)]
pub struct Area {
    memory: Memory,
}

impl Model for Area {
    ghost use Rattle.std.specs.Prelude.{List, ℕ};

    ghost Value = { List ℕ };

    ghost view = { λ a. a.memory };
}

impl Area {
    /// An area of so many bytes, which are 0.
    pub fn new(alloc: Global, size: u64) -> Result<Area, AllocError>
        ensures { IfOk result (λ area. area ≡ replicate size 0) }
    {
        Ok(Area {
            memory: Memory::zeroed(alloc, size)?,
        })
    }

    /// The 1 to 8 bytes from an offset on as one number, the lowest byte first.
    pub fn read(&self, offset: u64, size: u8) -> u64
        requires some { 1 ≤ size }
        requires few { size ≤ 8 }
        requires within { offset + size ≤ length self.now }
        ensures value { result ≡ number_at self.now offset size }
        ensures fits { result < 256 ^ size }
    {
        self.memory.read(offset, size)
    }

    /// Writes a number to the 1 to 8 bytes from an offset on, the lowest byte first.
    pub fn write(&mut self, offset: u64, size: u8, value: u64)
        requires some { 1 ≤ size }
        requires few { size ≤ 8 }
        requires fits { value < 256 ^ size }
        requires within { offset + size ≤ length self.old }
        ensures { self.new ≡ with_number self.old offset size value }
    {
        self.memory.write(offset, size, value);
    }

    /// Puts bytes from an offset on.
    pub fn store(&mut self, offset: u64, bytes: &[u8])
        requires { offset + length bytes.now ≤ length self.old }
        ensures { self.new ≡ with_bytes self.old offset bytes.now }
    {
        self.memory.store(offset, bytes);
    }

    /// The byte at an offset, or None behind the last.
    pub fn byte(&self, offset: u64) -> Option<u8>
        ensures { result ≡ slice_get self.now offset }
    {
        self.memory.byte(offset)
    }
}
