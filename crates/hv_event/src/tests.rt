//! The lines of events, printed and read.
use super::*;
use hv_text::Bytes;
use std::alloc::Global;
use std::test::Fail;

/// Lines of events, as they are written by hand.
const LINES: [&[u8]; 6] = [
    b"1 t0 1 cat /hello -> ok 68690a",
    b"2 t0 2 bad - -> refused NoCommand",
    b"4 h0 1 rest -> ok",
    b"18446744073709551615 t255 18446744073709551615 rest -> ok",
    b"9 t0 9 add g0 ram Made @- -> refused NoSuchGuest",
    b"15 h0 15 pin 3 1 @0.17 -> 100 woke",
];

/// Whether an event is printed as this line.
fn is_printed_as(alloc: Global, event: &Event, line: &[u8]) -> Result<bool, Fail> {
    let mut printed = Bytes::from_vec(Vec::new(alloc));
    print_event(alloc, &mut printed, event)?;
    Ok(printed.as_slice() == line)
}

/// Whether a line is read as an event that is printed as this line.
fn is_read_back(alloc: Global, line: &[u8]) -> Result<bool, Fail> {
    match read_event(alloc, line) {
        Ok(event) => is_printed_as(alloc, &event, line),
        Err(_) => Ok(false),
    }
}

#[test]
fn reads_what_it_prints(rt: HostRuntime) -> Result<(), Fail> {
    for line in LINES {
        assert!(rt; is_read_back(rt.alloc(), line)?, "line {line:?}");
    }
    Ok(())
}

#[test]
fn refuses_lines_of_no_event(rt: HostRuntime) -> Result<(), Fail> {
    let lines: [&[u8]; 6] = [
        b"01 t0 1 rest -> ok",
        b"18446744073709551616 t0 1 rest -> ok",
        b"1 x0 1 rest -> ok",
        b"1 t0 1 rest  -> ok",
        b"1 t0 1 rest -> ok -> ok",
        b"1 t0 1 cat /d -> ok .",
    ];
    for line in lines {
        assert!(rt;
            matches!(read_event(rt.alloc(), line), Err(LineRefusal::BadLine)),
            "line {line:?}"
        );
    }
    lines_are_unambiguous();
    Ok(())
}
