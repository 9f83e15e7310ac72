//! The controller as a guest's driver uses it, through the box.

ghost use Rattle.std.specs.Prelude.{◌≤◌};

use super::*;
use hv_emu::{Emulator, Pins};
use std::alloc::{AllocError, Global};
use std::test::Fail;

type Part = Box<dyn Emulator + Send>;

const PENDING: u64 = 0x1000;

const ENABLE: u64 = 0x2000;

const THRESHOLD: u64 = 0x20_0000;

const CLAIM: u64 = 0x20_0004;

const NO_PINS: Pins = Pins {
    ext: false,
    soft: false,
    timer: false,
};

const EXTERNAL_PIN: Pins = Pins {
    ext: true,
    soft: false,
    timer: false,
};

// A cold controller, where context 0 takes the sources 3 and 5 at the same priority.
fn set_up(alloc: Global, contexts: u8) -> Result<Part, AllocError>
    requires some { 1 ≤ contexts }
    requires few { contexts ≤ 4 }
{
    let mut part: Part = Box::new(alloc, Plic::new())?;
    part.attach(contexts);
    let _priorities = part.write(12, 4, 5) && part.write(20, 4, 5);
    let _enabled = part.write(ENABLE, 4, 0x29);
    Ok(part)
}

#[test]
fn of_two_sources_of_one_priority_the_first_is_claimed(rt: HostRuntime) -> Result<(), Fail> {
    let mut part = set_up(rt.alloc(), 1)?;
    assert!(rt; part.compatible(b"sifive,plic-1.0.0"));
    assert_eq!(rt; part.read(ENABLE, 4), Some(0x28));
    assert_eq!(rt; part.pins(0), NO_PINS);
    part.source(3, true);
    part.source(5, true);
    assert_eq!(rt; part.read(PENDING, 4), Some(0x28));
    assert_eq!(rt; part.pins(0), EXTERNAL_PIN);
    assert_eq!(rt; part.read(CLAIM, 4), Some(3));
    assert_eq!(rt; part.read(CLAIM, 4), Some(5));
    assert_eq!(rt; part.read(CLAIM, 4), Some(0));
    assert!(rt; part.write(CLAIM, 4, 4));
    assert_eq!(rt; part.read(CLAIM, 4), Some(0));
    assert!(rt; part.write(CLAIM, 4, 3));
    assert_eq!(rt; part.read(CLAIM, 4), Some(3));
    Ok(())
}

#[test]
fn a_source_that_stays_high_is_pending_again(rt: HostRuntime) -> Result<(), Fail> {
    let mut part = set_up(rt.alloc(), 1)?;
    part.source(5, true);
    assert_eq!(rt; part.read(CLAIM, 4), Some(5));
    part.source(5, true);
    assert_eq!(rt; part.read(PENDING, 4), Some(0));
    assert_eq!(rt; part.pins(0), NO_PINS);
    assert!(rt; part.write(CLAIM, 4, 5));
    assert_eq!(rt; part.pins(0), EXTERNAL_PIN);
    assert_eq!(rt; part.read(CLAIM, 4), Some(5));
    part.source(5, false);
    assert!(rt; part.write(CLAIM, 4, 37));
    assert!(rt; part.write(CLAIM, 4, 5));
    assert_eq!(rt; part.read(PENDING, 4), Some(0));
    assert_eq!(rt; part.pins(0), NO_PINS);
    Ok(())
}

#[test]
fn a_threshold_lowers_the_pin_and_not_the_claim(rt: HostRuntime) -> Result<(), Fail> {
    let mut part = set_up(rt.alloc(), 2)?;
    assert!(rt; part.write(THRESHOLD, 4, 13));
    assert_eq!(rt; part.read(THRESHOLD, 4), Some(5));
    part.source(3, true);
    assert_eq!(rt; part.pins(0), NO_PINS);
    assert_eq!(rt; part.pins(1), NO_PINS);
    assert_eq!(rt; part.read(CLAIM, 4), Some(3));
    assert_eq!(rt; part.read(THRESHOLD + 0x2000, 4), Some(0));
    assert_eq!(rt; part.read(PENDING, 8), None);
    assert!(rt; !part.write(PENDING + 2, 4, 0));
    part.reset();
    assert_eq!(rt; part.read(12, 4), Some(0));
    Ok(())
}
