//! The report of a run.
ghost use Rattle.std.specs.Prelude.{List, ◌≡◌, ◌++◌, [], length, OnOk, IfOk, codes, false, unwrap_or, slice_get};
ghost use Rattle.std.specs.List.{flat_map};
ghost use Rattle.std.specs.Fmt.{decimal};
ghost use Rattle.hv_emu.specs.Device.{DevState};
ghost use Rattle.hv_event.specs.Line.{event_text};
ghost use Rattle.hv_model.specs.Origin.{origin_of, terminals};
ghost use Rattle.hv_model.specs.Report.{titled, terminals_text, heading, AreTranscripts, IsReport};
ghost use Rattle.hv_model.specs.States.{ArePlain};
ghost use Rattle.hv_model.specs.Transcript.{line};

use hv_event::{Event, print_event};
use hv_model::Opening;
use hv_text::{Bytes, Strings, push_decimal};
use std::alloc::{AllocError, Global};

fn push_heading(alloc: Global, to: &mut Bytes, opening: &Opening) -> Result<(), AllocError>
    ensures { (devices : List DevState)
        → OnOk result (to.new ≡ to.old ++ heading (origin_of opening.now devices) false) }
{
    to.append(b"xvsim 1\nharts ")?;
    push_decimal(alloc, to, opening.harts as u64)?;
    to.append(b" turns ")?;
    push_decimal(alloc, to, opening.turns as u64)?;
    to.append(b" order seq\n")?;
    Ok(())
}

/// What the terminal of this number showed, with a title, where it showed something.
fn push_terminal(
    alloc: Global,
    to: &mut Bytes,
    transcripts: &Strings,
    number: usize,
) -> Result<(), AllocError>
    ensures { OnOk result (to.new ≡ to.old ++
        titled (line (codes "term " ++ decimal number)) (unwrap_or (slice_get transcripts.now number) [])) }
{
    let Some(text) = transcripts.at(number) else {
        return Ok(());
    };
    if text.is_empty() {
        return Ok(());
    }
    to.append(b"term ")?;
    push_decimal(alloc, to, number as u64)?;
    to.append(b"\n")?;
    to.append(text)?;
    Ok(())
}

fn push_terminals(alloc: Global, to: &mut Bytes, transcripts: &Strings) -> Result<(), AllocError>
    ensures { length transcripts.now ≡ 4
        → OnOk result (to.new ≡ to.old ++ terminals_text terminals transcripts.now) }
{
    push_terminal(alloc, to, transcripts, 0)?;
    push_terminal(alloc, to, transcripts, 1)?;
    push_terminal(alloc, to, transcripts, 2)?;
    push_terminal(alloc, to, transcripts, 3)?;
    Ok(())
}

fn push_events(alloc: Global, to: &mut Bytes, events: &[Event]) -> Result<(), AllocError>
    ensures { OnOk result (to.new ≡ to.old ++ flat_map (λ e. line (event_text e)) events.now) }
{
    for event in events {
        print_event(alloc, to, event)?;
        to.append(b"\n")?;
    }
    Ok(())
}

/// The report of a run with this opening and history, of which these are the terminals' transcripts.
pub fn report_of_run(
    alloc: Global,
    opening: &Opening,
    history: &[Event],
    transcripts: &Strings,
) -> Result<Bytes, AllocError>
    requires shown { (devices : List DevState)
        → AreTranscripts (origin_of opening.now devices) history.now terminals transcripts.now }
    requires plain { ArePlain history.now }
    ensures { IfOk result (λ text. (devices : List DevState)
        → IsReport (origin_of opening.now devices) history.now false false text) }
{
    let mut to = Bytes::from_vec(Vec::new(alloc));
    push_heading(alloc, &mut to, opening)?;
    push_terminals(alloc, &mut to, transcripts)?;
    to.append(b"states\nvcpu 0 Reset\nhistory\n")?;
    push_events(alloc, &mut to, history)?;
    to.append(b"end ")?;
    push_decimal(alloc, &mut to, history.len() as u64)?;
    to.append(b"\n")?;
    Ok(to)
}
