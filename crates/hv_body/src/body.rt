//! Bodies.
ghost use Rattle.std.specs.Prelude.{◌≡◌, ◌+◌, ◌^◌, ◌<◌, ◌≤◌, false, Some, None, length, IfOk};
ghost use Rattle.std.specs.Option.{option_copied, option_map};
ghost use Rattle.hv_emu.specs.Device as devices;
ghost use Rattle.hv_region.specs.Plans.{IsRegionPlan};
ghost use Rattle.hv_text.specs.declared.limits.TheConstants.{GUEST_REGIONS};
ghost use Rattle.hv_body.specs.Body.{seen, own_window, filled, fetch_answer, load_answer, load_leaves, store_answer, store_leaves, with_window, without_window, with_stored, byte_of, device_of, on_device, no_pins, shown};
ghost use Rattle.hv_body.specs.Rules.{CanMake, FitsAnswer, FitsArea, HasMemory, IsBody};

use crate::contents::Contents;
use crate::live::Live;
use crate::place::{Answer, Place};
use crate::room::BodyRoom;
use crate::window::put;
use hv_emu::{Emulator, Pins};
use hv_region::{RegionPlan, Window};
use std::alloc::{AllocError, Global};
use std::marker::Model;

const NO_PINS: Pins = Pins {
    ext: false,
    soft: false,
    timer: false,
};

/// The contents of a region of a guest, with the windows that reach them, or nothing while the
/// region isn't live. Contracts see a device by its emulator.
#[derive(Drop)]
pub struct BodyOf<E> {
    live: Option<Live<E>>,
}

impl<E> Model for BodyOf<E> {
    ghost use Rattle.std.specs.Prelude.{Option};
    ghost use Rattle.hv_body.specs.declared.live.Live.{Live};
    ghost use Rattle.hv_body.specs.Rules.{IsBody};

    ghost Value = { Option (Live E) };

    ghost view = { λ b. b.live };

    ghost invariant = { λ b. IsBody b.live };
}

/// A body whose device is an emulator in a box.
pub type Body = BodyOf<Box<dyn Emulator + Send>>;

impl<E: Emulator> BodyOf<E> {
    /// An empty body.
    pub fn new(_alloc: Global) -> Result<BodyOf<E>, AllocError>
        ensures { IfOk result (λ body. body ≡ None) }
    {
        Ok(BodyOf { live: None })
    }

    /// Fetches the bytes of an instruction.
    pub fn fetch(&self, place: Place) -> Answer
        requires some { 1 ≤ place.size }
        requires few { place.size ≤ 8 }
        ensures value { result ≡ fetch_answer self.now place }
        ensures fits { FitsAnswer place.size result }
    {
        match &self.live {
            Some(live) => live.fetch(place),
            None => Answer::NotHere,
        }
    }

    /// Reads for a load.
    pub fn read(&mut self, place: Place) -> Answer
        requires some { 1 ≤ place.size }
        requires few { place.size ≤ 8 }
        ensures answer { result ≡ load_answer (seen E.state self.old) place }
        ensures left { seen E.state self.new ≡ load_leaves (seen E.state self.old) place }
    {
        match &mut self.live {
            Some(live) => live.read(place),
            None => Answer::NotHere,
        }
    }

    /// Writes for a store.
    pub fn write(&mut self, place: Place, value: u64) -> Answer
        requires some { 1 ≤ place.size }
        requires few { place.size ≤ 8 }
        requires fits { value < 256 ^ place.size }
        ensures answer { result ≡ store_answer (seen E.state self.old) place value }
        ensures left { seen E.state self.new ≡ store_leaves (seen E.state self.old) place value }
    {
        match &mut self.live {
            Some(live) => live.write(place, value),
            None => Answer::NotHere,
        }
    }

    /// Makes a region live, in memory that was taken before, and gives up what the body held. A
    /// device is handed in for the region of a device, and gets a context for each of 1 to 4 VCPUs.
    pub fn fill(&mut self, birth: u64, row: u8, room: BodyRoom, part: Option<E>, vcpus: u8)
        requires row { row < GUEST_REGIONS }
        requires some { 1 ≤ vcpus }
        requires few { vcpus ≤ 4 }
        requires plan { IsRegionPlan room }
        requires area { FitsArea room.size room.form }
        requires form { CanMake room.form part }
        ensures { let device = option_map (λ p. devices.after_attach (E.state p) vcpus) part in
            seen E.state self.new ≡ filled birth row room device }
    {
        let BodyRoom {
            plan,
            memory,
            mut windows,
        } = room;
        put(&mut windows, own_window(birth, row, &plan));
        let contents = Contents::new(&plan, memory, part, vcpus);
        self.live = Some(Live {
            birth,
            plan,
            contents,
            windows,
        });
    }

    /// Empties the body, and gives its device back.
    pub fn clear(&mut self) -> Option<E>
        ensures device { result ≡ device_of self.old }
        ensures empty { self.new ≡ None }
    {
        match self.live.take() {
            Some(live) => live.contents.into_device(),
            None => None,
        }
    }

    /// The birth of the guest whose region is live.
    pub fn birth(&self) -> Option<u64>
        ensures { result ≡ option_map (λ live. live.birth) self.now }
    {
        match &self.live {
            Some(live) => Some(live.birth),
            None => None,
        }
    }

    /// The plan of the region that is live.
    pub fn plan(&self) -> Option<&RegionPlan>
        ensures plan { option_copied result ≡ option_map (λ live. live.plan) self.now }
        ensures rules { IsBody self.now }
    {
        match &self.live {
            Some(live) => Some(&live.plan),
            None => None,
        }
    }

    /// Adds a window where that may be done, and else changes nothing.
    pub fn add_window(&mut self, window: Window)
        ensures { self.new ≡ with_window self.old window }
    {
        if let Some(live) = &mut self.live {
            live.add_window(window);
        }
    }

    /// Takes the window of a region away.
    pub fn remove_window(&mut self, owner: u8)
        ensures { self.new ≡ without_window self.old owner }
    {
        if let Some(live) = &mut self.live {
            live.remove_window(owner);
        }
    }

    /// Puts bytes into RAM or ROM, from an offset on.
    pub fn store(&mut self, offset: u64, bytes: &[u8])
        requires { HasMemory self.old (offset + length bytes.now) }
        ensures { self.new ≡ with_stored self.old offset bytes.now }
    {
        if let Some(live) = &mut self.live {
            live.contents.store(offset, bytes);
        }
    }

    /// A byte of RAM or ROM.
    pub fn byte(&self, offset: u64) -> Option<u8>
        ensures { result ≡ byte_of self.now offset }
    {
        match &self.live {
            Some(live) => live.contents.byte(offset),
            None => None,
        }
    }

    /// The device.
    fn device(&self) -> Option<&E>
        ensures { option_copied result ≡ device_of self.now }
    {
        match &self.live {
            Some(live) => live.contents.device(),
            None => None,
        }
    }

    /// The level of the device's interrupt line.
    pub fn line(&self) -> bool
        ensures { result ≡ shown devices.line_of false (seen E.state self.now) }
    {
        match self.device() {
            Some(part) => part.line(),
            None => false,
        }
    }

    /// The levels of the interrupt pins of a VCPU that the device drives.
    pub fn pins(&self, vcpu: u8) -> Pins
        ensures { result ≡ shown (λ d. devices.pins_of d vcpu) no_pins (seen E.state self.now) }
    {
        match self.device() {
            Some(part) => part.pins(vcpu),
            None => NO_PINS,
        }
    }

    /// Whether there is a device that bytes go in and out of.
    pub fn serial(&self) -> bool
        ensures { result ≡ shown devices.is_serial false (seen E.state self.now) }
    {
        match self.device() {
            Some(part) => part.serial(),
            None => false,
        }
    }

    /// A byte that a serial port sent, by its place among those that it keeps, the oldest first.
    pub fn output_at(&self, place: usize) -> Option<u8>
        ensures { result ≡ shown (λ d. devices.output_at d place) None (seen E.state self.now) }
    {
        match self.device() {
            Some(part) => part.output_at(place),
            None => None,
        }
    }

    /// Sets the level of a source of an interrupt controller, 1 to 31.
    pub fn source(&mut self, number: u8, level: bool)
        ensures { seen E.state self.new
            ≡ on_device (λ d. devices.after_source d number level) (seen E.state self.old) }
    {
        if let Some(live) = &mut self.live {
            if let Contents::Emulated(part) = &mut live.contents {
                part.source(number, level);
            }
        }
    }

    /// A byte arrives at a serial port.
    pub fn feed(&mut self, byte: u8)
        ensures { seen E.state self.new
            ≡ on_device (λ d. devices.after_feed d byte) (seen E.state self.old) }
    {
        if let Some(live) = &mut self.live {
            if let Contents::Emulated(part) = &mut live.contents {
                part.feed(byte);
            }
        }
    }

    /// The time of a timer goes on by one.
    pub fn tick(&mut self)
        ensures { seen E.state self.new ≡ on_device devices.after_tick (seen E.state self.old) }
    {
        if let Some(live) = &mut self.live {
            if let Contents::Emulated(part) = &mut live.contents {
                part.tick();
            }
        }
    }

    /// Resets the device.
    pub fn reset(&mut self)
        ensures { seen E.state self.new ≡ on_device devices.after_reset (seen E.state self.old) }
    {
        if let Some(live) = &mut self.live {
            if let Contents::Emulated(part) = &mut live.contents {
                part.reset();
            }
        }
    }
}

/// The window of a region's own.
fn own_window(birth: u64, row: u8, plan: &RegionPlan) -> Window
    ensures { result ≡ own_window birth row plan.now }
{
    Window {
        owner: row,
        target: row,
        birth,
        kind: plan.kind,
        base: plan.base,
        size: plan.size,
        offset: 0,
    }
}
