//! The pool of devices.
ghost use Rattle.std.specs.Prelude.{◌≡◌, ◌<◌, ◌≤◌, All, is_some, map, Some, None, IfOk, OnOk, OnErr, position};
ghost use Rattle.hv_emu.specs.Device.{has_name, IsInReset};
ghost use Rattle.hv_dir.specs.Pool.{devices_of, place_of, taken, given_back};

use hv_emu::Emulator;
use hv_text::Strings;
use std::alloc::{AllocError, Global};
use std::marker::Model;

/// No device has one of the names.
#[derive(Clone, Copy, Debug, PartialEq, Eq)]
pub struct NoEmulator;

/// The devices that no guest has. Contracts see the list of its parts, each of which stands for
/// the device that it emulates.
#[derive(Drop)]
pub struct ShelfOf<E> {
    parts: Vec<E>,
}

impl<E> Model for ShelfOf<E> {
    ghost use Rattle.std.specs.Prelude.{◌-◌, vec_len, vec_capacity};
    ghost use Rattle.hv_dir.specs.Pool.{Pool};

    ghost Value = { Pool E };

    ghost view = { λ s. record {
      parts = s.parts.items;
      room = vec_capacity s.parts - vec_len s.parts;
    } };
}

/// The pool of emulators in boxes.
pub type Shelf = ShelfOf<Box<dyn Emulator + Send>>;

impl<E: Emulator> ShelfOf<E> {
    /// A pool of these parts, in their order.
    pub fn new(parts: Vec<E>) -> ShelfOf<E>
        requires { All IsInReset (map E.state parts.items) }
        ensures { result.parts ≡ parts.items }
    {
        ShelfOf { parts }
    }

    /// The first device of a name.
    fn find(&self, name: &[u8]) -> Option<usize>
        ensures { result
            ≡ position (λ device. has_name device name.now) (devices_of E.state self.now) }
    {
        self.parts.iter().position(|part| part.compatible(name))
    }

    /// The first device of the first name that some device has.
    fn find_any(&self, names: &Strings) -> Option<usize>
        ensures { result ≡ place_of (devices_of E.state self.now) names.now }
    {
        for name in names.as_slice() {
            if let Some(place) = self.find(name.as_slice()) {
                return Some(place);
            }
        }
        None
    }

    /// Whether some device has one of the names.
    pub fn has(&self, names: &Strings) -> bool
        ensures { result ≡ is_some (place_of (devices_of E.state self.now) names.now) }
    {
        self.find_any(names).is_some()
    }

    /// Takes a device out: the first name that some device has decides, and of the devices that have
    /// it the first is taken.
    pub fn take(&mut self, compatible: &Strings) -> Result<E, NoEmulator>
        ensures ok { IfOk result (λ part. taken (devices_of E.state self.old) compatible.now
            ≡ Some (E.state part, devices_of E.state self.new)) }
        ensures none { OnErr result (taken (devices_of E.state self.old) compatible.now ≡ None) }
        ensures err { OnErr result (self.new ≡ self.old) }
    {
        match self.find_any(compatible) {
            Some(place) => Ok(self.parts.remove(place)),
            None => Err(NoEmulator),
        }
    }

    /// Makes room for a part that is given back later.
    pub fn make_room(&mut self, _alloc: Global) -> Result<(), AllocError>
        ensures parts { self.new.parts ≡ self.old.parts }
        ensures room { OnOk result (0 < self.new.room) }
        ensures kept { self.old.room ≤ self.new.room }
    {
        self.parts.reserve(1)
    }

    /// Resets a device and puts it last.
    pub fn give_back(&mut self, mut part: E)
        requires { 0 < self.old.room }
        ensures { devices_of E.state self.new
            ≡ given_back (devices_of E.state self.old) (E.state part) }
    {
        part.reset();
        self.parts.push_reserved(part);
    }

    /// The parts, in their order.
    pub fn into_parts(self) -> Vec<E>
        ensures { result.items ≡ self.parts }
    {
        let ShelfOf { parts } = self;
        parts
    }
}
