//! A box of an emulator, which is used like what it holds.

use crate::emulator::Emulator;
use hv_kinds::Pins;

impl Emulator for Box<dyn Emulator + Send> {
    ghost state = { λ b. (Emulator-box b).state b.value };

    fn compatible(&self, name: &[u8]) -> bool {
        (**self).compatible(name)
    }

    fn attach(&mut self, vcpus: u8) {
        (**self).attach(vcpus);
    }

    fn reset(&mut self) {
        (**self).reset();
    }

    fn read(&mut self, offset: u64, size: u8) -> Option<u64> {
        (**self).read(offset, size)
    }

    fn write(&mut self, offset: u64, size: u8, value: u64) -> bool {
        (**self).write(offset, size, value)
    }

    fn source(&mut self, number: u8, level: bool) {
        (**self).source(number, level);
    }

    fn line(&self) -> bool {
        (**self).line()
    }

    fn pins(&self, vcpu: u8) -> Pins {
        (**self).pins(vcpu)
    }

    fn serial(&self) -> bool {
        (**self).serial()
    }

    fn feed(&mut self, byte: u8) {
        (**self).feed(byte);
    }

    fn output_at(&self, place: usize) -> Option<u8> {
        (**self).output_at(place)
    }

    fn tick(&mut self) {
        (**self).tick();
    }
}
