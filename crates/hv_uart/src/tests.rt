//! The serial port as a guest's driver uses it, and tables of its data sheet.

use crate::Uart;
use hv_emu::Emulator;
use std::test::Fail;

/// What is done to a port, or what a driver sees at it.
#[derive(Clone, Copy)]
enum Step {
    /// A value that is written at an offset.
    Write(u64, u8),
    /// A value that is read at an offset.
    Read(u64, u8),
    /// A byte that the port receives.
    Feed(u8),
    /// The level of the interrupt line.
    Line(bool),
}

/// Whether the port shows what a step says.
fn shows<E: Emulator>(port: &mut E, step: Step) -> bool {
    match step {
        Step::Write(offset, value) => port.write(offset, 1, u64::from(value)),
        Step::Read(offset, value) => port.read(offset, 1) == Some(u64::from(value)),
        Step::Feed(byte) => {
            port.feed(byte);
            true
        }
        Step::Line(level) => port.line() == level,
    }
}

#[test]
fn overruns_with_and_without_the_fifo(rt: HostRuntime) -> Result<(), Fail> {
    let alloc = rt.alloc();
    let mut port: Box<dyn Emulator + Send> = Box::new(alloc, Uart::new(alloc)?)?;
    assert!(rt; port.write(2, 1, 1));
    for byte in b'a'..=b'q' {
        port.feed(byte);
    }
    assert_eq!(rt; port.read(5, 1), Some(0x63));
    assert_eq!(rt; port.read(5, 1), Some(0x61));
    for byte in b'a'..=b'p' {
        assert_eq!(rt; port.read(0, 1), Some(u64::from(byte)));
    }
    assert_eq!(rt; port.read(5, 1), Some(0x60));
    assert_eq!(rt; port.read(0, 1), Some(0));

    let mut port: Box<dyn Emulator + Send> = Box::new(alloc, Uart::new(alloc)?)?;
    port.feed(b'a');
    port.feed(b'b');
    assert_eq!(rt; port.read(5, 1), Some(0x63));
    assert_eq!(rt; port.read(0, 1), Some(0x62));
    assert_eq!(rt; port.read(5, 1), Some(0x60));
    Ok(())
}

#[test]
fn serves_a_driver(rt: HostRuntime) -> Result<(), Fail> {
    let alloc = rt.alloc();
    let mut port: Box<dyn Emulator + Send> = Box::new(alloc, Uart::new(alloc)?)?;
    assert!(rt; port.compatible(b"ns16550") && port.compatible(b"ns16550a") && port.serial());
    assert!(rt; !port.compatible(b"ns16550b") && !port.compatible(b"riscv,plic0"));
    port.attach(2);
    let steps = [
        // Probe: the scratch register keeps a value, and the bits without a meaning aren't kept.
        Step::Write(7, 0x5a),
        Step::Read(7, 0x5a),
        Step::Write(4, 0xff),
        Step::Read(4, 0x1f),
        Step::Read(6, 0),
        // Set up: eight bits a character, FIFOs on with the trigger level 4, interrupts enabled.
        Step::Write(3, 0x83),
        Step::Write(0, 1),
        Step::Write(1, 0),
        Step::Write(3, 0x03),
        Step::Write(2, 0x47),
        Step::Line(false),
        Step::Write(1, 0x07),
        // Interrupt of the empty transmitter holding register, which a read of IIR ends.
        Step::Line(true),
        Step::Read(2, 0xc2),
        Step::Read(2, 0xc1),
        Step::Line(false),
        // It comes again with the next byte that is sent, and waits behind a received one.
        Step::Write(0, b'y'),
        Step::Feed(b'a'),
        Step::Read(2, 0xcc),
        Step::Feed(b'b'),
        Step::Feed(b'c'),
        Step::Feed(b'd'),
        Step::Read(2, 0xc4),
        // Service: what was received is read, and the line falls with the last interrupt.
        Step::Read(5, 0x61),
        Step::Read(0, b'a'),
        Step::Read(2, 0xcc),
        Step::Write(2, 0x43),
        Step::Read(5, 0x60),
        Step::Read(2, 0xc2),
        Step::Line(false),
    ];
    for step in steps {
        assert!(rt; shows(&mut port, step));
    }
    assert_eq!(rt; port.output_at(0), Some(b'y'));
    // Only single bytes at offsets 0 to 7 are accessed.
    assert!(rt; port.read(0, 2).is_none() && port.read(8, 1).is_none());
    assert!(rt; !port.write(0, 4, 1) && !port.write(8, 1, 1));
    // What other devices are for has no use here.
    port.source(1, true);
    port.tick();
    let pins = port.pins(0);
    assert!(rt; !pins.ext && !pins.soft && !pins.timer);
    port.reset();
    assert!(rt; port.output_at(0).is_none() && shows(&mut port, Step::Read(2, 0x01)));
    Ok(())
}

#[test]
fn interrupts_at_the_trigger_level(rt: HostRuntime) -> Result<(), Fail> {
    // FCR, the trigger level in bytes, and IIR below it and at it.
    let rows = [
        [0x00, 1, 0x01, 0x04],
        [0xc0, 1, 0x01, 0x04],
        [0x01, 1, 0xc1, 0xc4],
        [0x41, 4, 0xcc, 0xc4],
        [0x81, 8, 0xcc, 0xc4],
        [0xc1, 14, 0xcc, 0xc4],
    ];
    for [control, level, below, reached] in rows {
        let mut port = Uart::new(rt.alloc())?;
        assert!(rt;
            shows(&mut port, Step::Write(1, 1)) && shows(&mut port, Step::Write(2, control))
        );
        for byte in 1..level {
            port.feed(byte);
        }
        assert!(rt; shows(&mut port, Step::Read(2, below)));
        port.feed(0);
        assert!(rt; shows(&mut port, Step::Read(2, reached)));
    }
    Ok(())
}

#[test]
fn has_the_divisor_latch_behind_dlab(rt: HostRuntime) -> Result<(), Fail> {
    let mut port = Uart::new(rt.alloc())?;
    port.feed(b'a');
    // LCR, what is written at 0 and 1, and what is read there then.
    let rows = [
        [0x80, 0x12, 0x34, 0x12, 0x34],
        [0x00, 0x56, 0xff, b'a', 0x0f],
        [0xff, 0xfe, 0x00, 0xfe, 0x00],
        [0x7f, 0x78, 0x10, 0x00, 0x00],
    ];
    for [control, low, high, low_read, high_read] in rows {
        for (offset, value) in [(3, control), (0, low), (1, high)] {
            assert!(rt; shows(&mut port, Step::Write(offset, value)));
        }
        for (offset, value) in [(3, control), (0, low_read), (1, high_read)] {
            assert!(rt; shows(&mut port, Step::Read(offset, value)));
        }
    }
    assert_eq!(rt; port.sent(), 2);
    Ok(())
}

#[test]
fn keeps_the_bytes_that_were_sent_last(rt: HostRuntime) -> Result<(), Fail> {
    let mut port = Uart::new(rt.alloc())?;
    for k in 0..5000 {
        assert!(rt; port.write(0, 1, k % 256));
    }
    assert_eq!(rt; port.sent(), 5000);
    assert_eq!(rt; port.output_at(0), Some(136));
    assert_eq!(rt; port.output_at(4095), Some(135));
    assert_eq!(rt; port.output_at(4096), None);
    Ok(())
}
