//! The trait of all emulators.

ghost use Rattle.std.specs.Prelude.{◌≡◌, ◌^◌, ◌<◌, ◌≤◌, is_some};
ghost use Rattle.hv_emu.specs.Access.{load, store};
ghost use Rattle.hv_emu.specs.Device as devices;
ghost use Rattle.hv_emu.specs.Device.{DevState, has_name, device_access};

use hv_kinds::Pins;

/// A device, which contracts see as its state. Each call means one function of that state, and
/// none takes memory. A call that a device has no use for changes nothing and answers false, None
/// or no pins.
pub trait Emulator: Drop {
    ghost state: { Self → DevState };

    /// Whether a device tree may ask for this kind of device by a string of `compatible`.
    fn compatible(&self, name: &[u8]) -> bool
        ensures { result ≡ has_name (state self.now) name.now };

    /// Sets the number of contexts, which a reset keeps. Before the first call there are none.
    fn attach(&mut self, vcpus: u8)
        requires some { 1 ≤ vcpus }
        requires few { vcpus ≤ 4 }
        ensures { state self.new ≡ devices.after_attach (state self.old) vcpus };

    fn reset(&mut self)
        ensures { state self.new ≡ devices.after_reset (state self.old) };

    /// Loads `size` bytes at an offset. None means that the access is denied.
    fn read(&mut self, offset: u64, size: u8) -> Option<u64>
        ensures answer { result ≡ (device_access (state self.old) (load offset size)).answer }
        ensures left { state self.new ≡ (device_access (state self.old) (load offset size)).left };

    /// Stores the lowest `size` bytes of a value at an offset. False means that the access is
    /// denied.
    fn write(&mut self, offset: u64, size: u8, value: u64) -> bool
        requires { value < 256 ^ size }
        ensures answer { result
            ≡ is_some (device_access (state self.old) (store offset size value)).answer }
        ensures left { state self.new
            ≡ (device_access (state self.old) (store offset size value)).left };

    /// Sets the level of a source of an interrupt controller, 1 to 31.
    fn source(&mut self, number: u8, level: bool)
        ensures { state self.new ≡ devices.after_source (state self.old) number level };

    /// The level of the interrupt line.
    fn line(&self) -> bool
        ensures { result ≡ devices.line_of (state self.now) };

    /// The levels of the interrupt pins of a VCPU.
    fn pins(&self, vcpu: u8) -> Pins
        ensures { result ≡ devices.pins_of (state self.now) vcpu };

    /// Whether bytes go in by `feed` and out by `output_at`.
    fn serial(&self) -> bool
        ensures { result ≡ devices.is_serial (state self.now) };

    /// A byte arrives at a serial port.
    fn feed(&mut self, byte: u8)
        ensures { state self.new ≡ devices.after_feed (state self.old) byte };

    /// A byte that a serial port sent, by its place among those that it keeps, the oldest first.
    fn output_at(&self, place: usize) -> Option<u8>
        ensures { result ≡ devices.output_at (state self.now) place };

    /// The time of a timer goes on by one.
    fn tick(&mut self)
        ensures { state self.new ≡ devices.after_tick (state self.old) };
}
