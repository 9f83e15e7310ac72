//! The states that the lines of a few events tell.
use super::*;
use hv_event::{Event, read_event};
use hv_kinds::State;
use hv_text::Bytes;
use std::alloc::Global;
use std::test::Fail;

/// VCPU 5 is given to a guest, runs on Hart 1, waits, wakes and is paused; VCPU 6 is unknown.
const LINES: [&[u8]; 7] = [
    b"1 t0 1 vadd 5 17 -> ok",
    b"2 t0 2 kick 5 -> ok",
    b"3 t0 3 kick 6 -> refused WrongState Unknown",
    b"4 h1 1 dispatch 5 -> ok 8",
    b"5 h1 2 fetch 5 0 @1.17 -> 0x10500073 wait",
    b"6 h0 1 pin 3 5 @1.17 -> 100 woke",
    b"7 t0 4 pause 5 -> ok",
];

const FULL: &[u8] = b"states\nvcpu 0 Reset\nvcpu 5 Reset Ready Running1 Paused/wfi Ready Paused\n";

const BRIEF: &[u8] = b"states\nvcpu 0 1 Reset\nvcpu 5 6 Paused\n";

// Adds the event of a line.
fn add(alloc: Global, history: &mut Vec<Event>, line: &[u8]) -> Result<(), Fail> {
    history.push(read_event(alloc, line)?)?;
    Ok(())
}

// The events of the lines.
fn history(alloc: Global) -> Result<Vec<Event>, Fail> {
    let mut history = Vec::new(alloc);
    for line in LINES {
        add(alloc, &mut history, line)?;
    }
    Ok(history)
}

// Whether this text tells the states.
fn is_told(alloc: Global, brief: bool, text: &[u8]) -> Result<bool, Fail> {
    let history = history(alloc)?;
    let mut told = Bytes::from_vec(Vec::new(alloc));
    push_states(alloc, &mut told, brief, &history)?;
    Ok(told.as_slice() == text)
}

#[test]
fn tells_all_states(rt: HostRuntime) -> Result<(), Fail> {
    assert!(rt; is_told(rt.alloc(), false, FULL)?);
    Ok(())
}

#[test]
fn tells_their_number_and_the_last(rt: HostRuntime) -> Result<(), Fail> {
    assert!(rt; is_told(rt.alloc(), true, BRIEF)?);
    Ok(())
}

// To which state the event of a line leads.
fn led(alloc: Global, line: &[u8]) -> Result<Option<(u8, State)>, Fail> {
    let event = read_event(alloc, line)?;
    Ok(led_to(event.actor, &event.step, &event.reply))
}

#[test]
fn is_led_to_the_hart_that_dispatches(rt: HostRuntime) -> Result<(), Fail> {
    let alloc = rt.alloc();
    assert!(rt; led(alloc, b"4 h1 1 dispatch 5 -> ok 8")? == Some((5, State::Running(1))));
    assert!(rt; led(alloc, b"4 t1 1 dispatch 5 -> ok 8")?.is_none());
    Ok(())
}
