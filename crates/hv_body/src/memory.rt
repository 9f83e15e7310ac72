//! Memory.
ghost use Rattle.std.specs.Prelude.{◌≡◌, ◌+◌, ◌^◌, ◌<◌, ◌≤◌, [], length, replicate, slice_get, IfOk};
ghost use Rattle.byteorder.specs.Endian.{little_number};
ghost use Rattle.hv_body.specs.Memory.{number_at, with_bytes, with_number};

use byteorder::{ByteOrder, LittleEndian};
use std::alloc::{AllocError, Global};
use std::marker::Model;

/// Bytes of memory, which contracts see as a list.
#[derive(Debug, Drop)]
pub struct Memory {
    bytes: Vec<u8>,
}

impl Model for Memory {
    ghost use Rattle.std.specs.Prelude.{List, ℕ};

    ghost Value = { List ℕ };

    ghost view = { λ m. m.bytes.items };
}

impl Memory {
    /// So many bytes, which are 0.
    pub fn zeroed(alloc: Global, size: u64) -> Result<Memory, AllocError>
        ensures { IfOk result (λ memory. memory ≡ replicate size 0) }
    {
        let mut bytes = Vec::with_capacity(alloc, size as usize)?;
        bytes.resize(size as usize, 0)?;
        Ok(Memory { bytes })
    }

    /// No bytes.
    pub fn empty(alloc: Global) -> Memory
        ensures { result ≡ [] }
    {
        Memory {
            bytes: Vec::new(alloc),
        }
    }

    /// The bytes from an offset on as one number.
    pub fn read(&self, offset: u64, size: u8) -> u64
        requires some { 1 ≤ size }
        requires few { size ≤ 8 }
        requires within { offset + size ≤ length self.now }
        ensures value { result ≡ number_at self.now offset size }
        ensures fits { result < 256 ^ size }
    {
        number_of(&self.bytes[offset as usize..], size)
    }

    /// Writes a number from an offset on.
    pub fn write(&mut self, offset: u64, size: u8, value: u64)
        requires some { 1 ≤ size }
        requires few { size ≤ 8 }
        requires fits { value < 256 ^ size }
        requires within { offset + size ≤ length self.old }
        ensures { self.new ≡ with_number self.old offset size value }
    {
        LittleEndian::write_uint(&mut self.bytes[offset as usize..], value, size as usize);
    }

    /// Puts bytes from an offset on.
    pub fn store(&mut self, offset: u64, bytes: &[u8])
        requires { offset + length bytes.now ≤ length self.old }
        ensures { self.new ≡ with_bytes self.old offset bytes.now }
    {
        let start = offset as usize;
        self.bytes[start..start + bytes.len()].copy_from_slice(bytes);
    }

    /// The byte at an offset, or None behind the last.
    pub fn byte(&self, offset: u64) -> Option<u8>
        ensures { result ≡ slice_get self.now offset }
    {
        self.bytes.get(offset as usize).copied()
    }
}

// The number in the first bytes, the lowest one first.
fn number_of(bytes: &[u8], size: u8) -> u64
    requires some { 1 ≤ size }
    requires few { size ≤ 8 }
    requires within { size ≤ length bytes.now }
    ensures value { result ≡ little_number size bytes.now }
    ensures fits { result < 256 ^ size }
{
    LittleEndian::read_uint(bytes, size as usize)
}
