//! The timer as a guest's driver uses it, through the box.

use crate::Timer;
use hv_emu::Emulator;
use std::test::Fail;

// The msip of context 0, with the others each 4 bytes further.
const MSIP: u64 = 0x0000;

// The mtimecmp of context 0, with the others each 8 bytes further.
const MTIMECMP: u64 = 0x4000;

const MTIME: u64 = 0xbff8;

/// What is done to a timer, or what a driver sees at it.
#[derive(Clone, Copy)]
enum Step {
    /// Four bytes that are written at an offset.
    Write4(u64, u32),
    /// Eight bytes that are written at an offset.
    Write8(u64, u64),
    /// Four bytes that are read at an offset.
    Read4(u64, u32),
    /// Eight bytes that are read at an offset.
    Read8(u64, u64),
    /// The time goes on by one.
    Tick,
    /// The software pin and the timer pin of a VCPU.
    Pins(u8, bool, bool),
}

/// Whether the timer shows what a step says.
fn shows<E: Emulator>(timer: &mut E, step: Step) -> bool {
    match step {
        Step::Write4(offset, value) => timer.write(offset, 4, u64::from(value)),
        Step::Write8(offset, value) => timer.write(offset, 8, value),
        Step::Read4(offset, value) => timer.read(offset, 4) == Some(u64::from(value)),
        Step::Read8(offset, value) => timer.read(offset, 8) == Some(value),
        Step::Tick => {
            timer.tick();
            true
        }
        Step::Pins(vcpu, software, expired) => {
            let pins = timer.pins(vcpu);
            !pins.ext && pins.soft == software && pins.timer == expired
        }
    }
}

#[test]
fn compares_the_time(rt: HostRuntime) -> Result<(), Fail> {
    let alloc = rt.alloc();
    let mut timer: Box<dyn Emulator + Send> = Box::new(alloc, Timer::new())?;
    timer.attach(1);
    let steps = [
        Step::Pins(0, false, false),
        Step::Write8(MTIMECMP, 0),
        Step::Pins(0, false, true),
        Step::Write8(MTIMECMP, u64::MAX),
        Step::Pins(0, false, false),
        Step::Tick,
        Step::Read8(MTIME, 1),
        Step::Write8(MTIME, u64::MAX),
        Step::Pins(0, false, true),
        Step::Tick,
        Step::Read8(MTIME, 0),
        Step::Pins(0, false, false),
    ];
    for step in steps {
        assert!(rt; shows(&mut timer, step));
    }
    Ok(())
}

#[test]
fn serves_a_driver(rt: HostRuntime) -> Result<(), Fail> {
    let alloc = rt.alloc();
    let mut timer: Box<dyn Emulator + Send> = Box::new(alloc, Timer::new())?;
    assert!(rt; timer.compatible(b"riscv,clint0") && timer.compatible(b"sifive,clint0"));
    assert!(rt; !timer.compatible(b"riscv,clint") && !timer.serial());
    timer.attach(2);
    let steps = [
        // Probe: there are two contexts, with the values after a reset.
        Step::Read4(MSIP + 4, 0),
        Step::Read8(MTIMECMP + 8, u64::MAX),
        Step::Read8(MTIMECMP + 16, 0),
        // Set up: VCPU 1 wants an interrupt in two ticks.
        Step::Write8(MTIME, 7),
        Step::Write8(MTIMECMP + 8, 9),
        Step::Tick,
        Step::Pins(1, false, false),
        // Interrupt, at VCPU 1 alone.
        Step::Tick,
        Step::Pins(1, false, true),
        Step::Pins(0, false, false),
        // Service: the next interrupt is later, and VCPU 0 gets one by software, of bit 0 alone.
        Step::Write8(MTIMECMP + 8, 19),
        Step::Pins(1, false, false),
        Step::Write4(MSIP, 0xff),
        Step::Read4(MSIP, 1),
        Step::Pins(0, true, false),
        Step::Write4(MSIP, 0xfe),
        Step::Pins(0, false, false),
        // A VCPU that isn't there has no pins.
        Step::Write8(MTIME, u64::MAX),
        Step::Pins(0, false, true),
        Step::Pins(2, false, false),
    ];
    for step in steps {
        assert!(rt; shows(&mut timer, step));
    }
    Ok(())
}

#[test]
fn writes_mtimecmp_in_halves(rt: HostRuntime) -> Result<(), Fail> {
    let alloc = rt.alloc();
    let mut timer: Box<dyn Emulator + Send> = Box::new(alloc, Timer::new())?;
    timer.attach(2);
    // A half by its offset, what is written there, and mtimecmp then.
    let rows = [
        (MTIMECMP + 8, 0x8765_4321, 0xffff_ffff_8765_4321),
        (MTIMECMP + 12, 0, 0x8765_4321),
        (MTIMECMP + 8, 0, 0),
        (MTIMECMP + 12, 0x0fed_cba9, 0x0fed_cba9_0000_0000),
        (MTIMECMP + 8, 0xffff_ffff, 0x0fed_cba9_ffff_ffff),
    ];
    for (half, value, whole) in rows {
        assert!(rt; shows(&mut timer, Step::Write4(half, value)));
        assert!(rt; shows(&mut timer, Step::Read4(half, value)));
        assert!(rt; shows(&mut timer, Step::Read8(MTIMECMP + 8, whole)));
        assert!(rt; shows(&mut timer, Step::Read8(MTIMECMP, u64::MAX)));
    }
    Ok(())
}

#[test]
fn keeps_what_stands_until_a_reset(rt: HostRuntime) -> Result<(), Fail> {
    let mut timer = Timer::new();
    timer.attach(1);
    let steps = [
        Step::Write4(MSIP, 1),
        Step::Write8(MTIMECMP, 5),
        Step::Write4(MTIME + 4, 1),
        Step::Tick,
    ];
    for step in steps {
        assert!(rt; shows(&mut timer, step));
    }
    timer.attach(2);
    assert!(rt; shows(&mut timer, Step::Read8(MTIME, 0x1_0000_0001)));
    assert!(rt; shows(&mut timer, Step::Pins(0, true, true)));
    assert!(rt; shows(&mut timer, Step::Pins(1, false, false)));
    // Only 4 bytes and, above the words of msip, 8 are accessed, each at a multiple of the size.
    let denied = [
        (MSIP, 8),
        (MTIMECMP + 4, 8),
        (MTIME + 2, 4),
        (MTIME, 2),
        (MSIP, 1),
    ];
    for (offset, size) in denied {
        assert!(rt; timer.read(offset, size).is_none() && !timer.write(offset, size, 0));
    }
    timer.reset();
    assert!(rt; shows(&mut timer, Step::Read8(MTIME, 0)));
    assert!(rt; shows(&mut timer, Step::Read8(MTIMECMP, u64::MAX)));
    assert!(rt; shows(&mut timer, Step::Pins(0, false, false)));
    Ok(())
}
