//! Replies printed.
ghost use Rattle.std.specs.Prelude.{◌≡◌, ◌++◌, OnOk, OnErr, codes};
ghost use Rattle.std.specs.List.{join_with_byte};
ghost use Rattle.hv_data.specs.Text.{bit_text};
ghost use Rattle.hv_answer.specs.Payload.{no_words, bytes_words, names_words, windows_words, number_words, changes_words, generation_words, fetched_words, accessed_words};
ghost use Rattle.hv_answer.specs.Payload.{moved_words, sampled_words, pins_text, pinned_words, ticked_words, maybe_words, outcome_words};
ghost use Rattle.hv_answer.specs.Reply.{refused_words, given_words, reply_text};

use crate::reply::{Accessed, Fetched, Moved, Outcome, Pinned, Reply, Sampled};
use hv_data::{push_address, push_bytes, push_changes, push_names, push_state};
use hv_kinds::{Generation, Pins, SignalChanges};
use hv_listing::{WindowList, print_guests, print_windows};
use hv_look::print_look;
use hv_refusal::{Refusal, print_refusal};
use hv_text::{Bytes, Strings, push_decimal};
use std::alloc::{AllocError, Global};

fn push_refused(alloc: Global, to: &mut Bytes, refusal: &Refusal) -> Result<(), AllocError>
    ensures { OnOk result (to.new ≡ to.old ++ join_with_byte 32 (refused_words refusal.now)) }
{
    to.append(b"refused ")?;
    print_refusal(alloc, to, refusal)
}

fn push_done(alloc: Global, to: &mut Bytes, answer: &Result<(), Refusal>) -> Result<(), AllocError>
    ensures { OnOk result (to.new ≡ to.old ++ join_with_byte 32 (given_words no_words answer.now)) }
{
    match answer {
        Ok(()) => to.append(b"ok"),
        Err(refusal) => push_refused(alloc, to, refusal),
    }
}

fn push_given_bytes(
    alloc: Global,
    to: &mut Bytes,
    answer: &Result<Bytes, Refusal>,
) -> Result<(), AllocError>
    ensures { OnOk result (to.new ≡ to.old ++ join_with_byte 32 (given_words bytes_words answer.now)) }
{
    match answer {
        Ok(given) => {
            to.append(b"ok ")?;
            push_bytes(alloc, to, given)
        }
        Err(refusal) => push_refused(alloc, to, refusal),
    }
}

fn push_given_names(
    alloc: Global,
    to: &mut Bytes,
    answer: &Result<Strings, Refusal>,
) -> Result<(), AllocError>
    ensures { OnOk result (to.new ≡ to.old ++ join_with_byte 32 (given_words names_words answer.now)) }
{
    match answer {
        Ok(given) => {
            to.append(b"ok ")?;
            push_names(to, given)
        }
        Err(refusal) => push_refused(alloc, to, refusal),
    }
}

fn push_given_windows(
    alloc: Global,
    to: &mut Bytes,
    answer: &Result<WindowList, Refusal>,
) -> Result<(), AllocError>
    ensures { OnOk result (to.new ≡ to.old ++ join_with_byte 32 (given_words windows_words answer.now)) }
{
    match answer {
        Ok(given) => {
            to.append(b"ok ")?;
            print_windows(alloc, to, given)
        }
        Err(refusal) => push_refused(alloc, to, refusal),
    }
}

fn push_given_number(
    alloc: Global,
    to: &mut Bytes,
    answer: &Result<u64, Refusal>,
) -> Result<(), AllocError>
    ensures { OnOk result (to.new ≡ to.old ++ join_with_byte 32 (given_words number_words answer.now)) }
{
    match answer {
        Ok(given) => {
            to.append(b"ok ")?;
            push_decimal(alloc, to, *given)
        }
        Err(refusal) => push_refused(alloc, to, refusal),
    }
}

fn push_given_slice(
    alloc: Global,
    to: &mut Bytes,
    answer: &Result<u32, Refusal>,
) -> Result<(), AllocError>
    ensures { OnOk result (to.new ≡ to.old ++ join_with_byte 32 (given_words number_words answer.now)) }
{
    match answer {
        Ok(given) => {
            to.append(b"ok ")?;
            push_decimal(alloc, to, *given as u64)
        }
        Err(refusal) => push_refused(alloc, to, refusal),
    }
}

fn push_given_changes(
    alloc: Global,
    to: &mut Bytes,
    answer: &Result<SignalChanges, Refusal>,
) -> Result<(), AllocError>
    ensures { OnOk result (to.new ≡ to.old ++ join_with_byte 32 (given_words changes_words answer.now)) }
{
    match answer {
        Ok(given) => {
            to.append(b"ok ")?;
            push_changes(alloc, to, *given)
        }
        Err(refusal) => push_refused(alloc, to, refusal),
    }
}

fn push_given_generation(
    alloc: Global,
    to: &mut Bytes,
    answer: &Result<Generation, Refusal>,
) -> Result<(), AllocError>
    ensures { OnOk result (to.new ≡ to.old ++ join_with_byte 32 (given_words generation_words answer.now)) }
{
    match answer {
        Ok(given) => {
            to.append(b"ok ")?;
            push_decimal(alloc, to, given.slot as u64)?;
            to.append(b" ")?;
            push_decimal(alloc, to, given.birth)
        }
        Err(refusal) => push_refused(alloc, to, refusal),
    }
}

fn push_tick(
    alloc: Global,
    to: &mut Bytes,
    answer: &Option<SignalChanges>,
) -> Result<(), AllocError>
    ensures { OnOk result (to.new ≡ to.old ++ join_with_byte 32 (maybe_words (codes "none") ticked_words answer.now)) }
{
    match answer {
        Some(given) => {
            to.append(b"ok ")?;
            push_changes(alloc, to, *given)
        }
        None => to.append(b"none"),
    }
}

fn push_outcome(alloc: Global, to: &mut Bytes, outcome: Outcome) -> Result<(), AllocError>
    ensures { OnOk result (to.new ≡ to.old ++ join_with_byte 32 (outcome_words outcome)) }
{
    match outcome {
        Outcome::Done => to.append(b"done"),
        Outcome::Wait => to.append(b"wait"),
        Outcome::Access => to.append(b"access"),
        Outcome::Trap(cause) => {
            to.append(b"trap ")?;
            push_decimal(alloc, to, cause)
        }
    }
}

fn push_fetched(alloc: Global, to: &mut Bytes, fetched: Fetched) -> Result<(), AllocError>
    ensures { OnOk result (to.new ≡ to.old ++ join_with_byte 32 (fetched_words fetched)) }
{
    push_address(alloc, to, fetched.word as u64)?;
    to.append(b" ")?;
    push_outcome(alloc, to, fetched.outcome)
}

fn push_fetch(alloc: Global, to: &mut Bytes, answer: &Option<Fetched>) -> Result<(), AllocError>
    ensures { OnOk result (to.new ≡ to.old ++ join_with_byte 32 (maybe_words (codes "noexec") fetched_words answer.now)) }
{
    match answer {
        Some(given) => { push_fetched(alloc, to, *given) }
        None => to.append(b"noexec"),
    }
}

fn push_access(alloc: Global, to: &mut Bytes, answer: &Option<Accessed>) -> Result<(), AllocError>
    ensures { OnOk result (to.new ≡ to.old ++ join_with_byte 32 (maybe_words (codes "denied") accessed_words answer.now)) }
{
    match answer {
        Some(given) => {
            push_address(alloc, to, given.value)?;
            to.append(b" ")?;
            push_changes(alloc, to, given.changes)
        }
        None => to.append(b"denied"),
    }
}

fn push_balance(alloc: Global, to: &mut Bytes, answer: &Option<Moved>) -> Result<(), AllocError>
    ensures { OnOk result (to.new ≡ to.old ++ join_with_byte 32 (maybe_words (codes "none") moved_words answer.now)) }
{
    match answer {
        Some(given) => {
            to.append(b"move ")?;
            push_decimal(alloc, to, given.vcpu as u64)?;
            to.append(b" ")?;
            push_decimal(alloc, to, given.from as u64)?;
            to.append(b" ")?;
            push_decimal(alloc, to, given.to as u64)
        }
        None => to.append(b"none"),
    }
}

fn push_bit(to: &mut Bytes, bit: bool) -> Result<(), AllocError>
    ensures { OnOk result (to.new ≡ to.old ++ bit_text bit) }
{
    if bit {
        return to.append(b"1");
    }
    to.append(b"0")
}

fn push_sample(alloc: Global, to: &mut Bytes, answer: &Option<Sampled>) -> Result<(), AllocError>
    ensures { OnOk result (to.new ≡ to.old ++ join_with_byte 32 (maybe_words (codes "gone") sampled_words answer.now)) }
{
    match answer {
        Some(given) => {
            push_bit(to, given.level)?;
            to.append(b" ")?;
            push_changes(alloc, to, given.changes)
        }
        None => to.append(b"gone"),
    }
}

fn push_pins(to: &mut Bytes, pins: Pins) -> Result<(), AllocError>
    ensures { OnOk result (to.new ≡ to.old ++ pins_text pins) }
{
    push_bit(to, pins.ext)?;
    push_bit(to, pins.soft)?;
    push_bit(to, pins.timer)
}

fn push_pinned(to: &mut Bytes, pinned: Pinned) -> Result<(), AllocError>
    ensures { OnOk result (to.new ≡ to.old ++ join_with_byte 32 (pinned_words pinned)) }
{
    push_pins(to, pinned.pins)?;
    if pinned.woke {
        return to.append(b" woke");
    }
    to.append(b" kept")
}

fn push_pin(to: &mut Bytes, answer: &Option<Pinned>) -> Result<(), AllocError>
    ensures { OnOk result (to.new ≡ to.old ++ join_with_byte 32 (maybe_words (codes "gone") pinned_words answer.now)) }
{
    match answer {
        Some(given) => { push_pinned(to, *given) }
        None => to.append(b"gone"),
    }
}

fn push_reply(alloc: Global, to: &mut Bytes, reply: &Reply) -> Result<(), AllocError>
    ensures { OnOk result (to.new ≡ to.old ++ reply_text reply.now) }
{
    match reply {
        Reply::Bad(refusal) => push_refused(alloc, to, refusal),
        Reply::Rest => to.append(b"ok"),
        Reply::Ls(answer) => push_given_names(alloc, to, answer),
        Reply::Cat(answer) => push_given_bytes(alloc, to, answer),
        Reply::Dts(answer) => push_given_bytes(alloc, to, answer),
        Reply::Run(answer) => push_given_bytes(alloc, to, answer),
        Reply::Mkdir(answer) => push_done(alloc, to, answer),
        Reply::Rm(answer) => push_done(alloc, to, answer),
        Reply::Write(answer) => push_done(alloc, to, answer),
        Reply::Asm(answer) => push_given_number(alloc, to, answer),
        Reply::Guests(guests) => {
            to.append(b"ok ")?;
            print_guests(alloc, to, guests)
        }
        Reply::Name(answer) => push_given_generation(alloc, to, answer),
        Reply::Stage(answer) => push_done(alloc, to, answer),
        Reply::Add(answer) => push_given_changes(alloc, to, answer),
        Reply::Drop(answer) => push_given_changes(alloc, to, answer),
        Reply::Regions(answer) => push_given_windows(alloc, to, answer),
        Reply::Load(answer) => push_given_number(alloc, to, answer),
        Reply::Mem(answer) => push_given_bytes(alloc, to, answer),
        Reply::Devreset(answer) => push_given_changes(alloc, to, answer),
        Reply::Feed(answer) => push_given_changes(alloc, to, answer),
        Reply::Output(answer) => push_given_bytes(alloc, to, answer),
        Reply::Vadd(answer) => push_done(alloc, to, answer),
        Reply::Vdrop(answer) => push_done(alloc, to, answer),
        Reply::Kick(answer) => push_done(alloc, to, answer),
        Reply::Resume(answer) => push_done(alloc, to, answer),
        Reply::Pause(answer) => push_done(alloc, to, answer),
        Reply::Halt(answer) => push_done(alloc, to, answer),
        Reply::Reset(answer) => push_done(alloc, to, answer),
        Reply::Look(look) => {
            to.append(b"ok ")?;
            print_look(alloc, to, look.as_look())
        }
        Reply::Tick(answer) => push_tick(alloc, to, answer),
        Reply::Idle => to.append(b"ok"),
        Reply::Dispatch(answer) => push_given_slice(alloc, to, answer),
        Reply::Preempt => to.append(b"ok"),
        Reply::Leave(state) => push_state(alloc, to, *state),
        Reply::Take(cause) => push_decimal(alloc, to, *cause),
        Reply::Fetch(answer) => push_fetch(alloc, to, answer),
        Reply::Access(answer) => push_access(alloc, to, answer),
        Reply::Fault(cause) => push_decimal(alloc, to, *cause),
        Reply::Balance(answer) => push_balance(alloc, to, answer),
        Reply::Sample(answer) => push_sample(alloc, to, answer),
        Reply::Pin(answer) => push_pin(to, answer),
    }
}

/// Appends a reply's text, as event lines have it. At `Err` nothing has changed.
pub fn print_reply(alloc: Global, to: &mut Bytes, reply: &Reply) -> Result<(), AllocError>
    ensures ok { OnOk result (to.new ≡ to.old ++ reply_text reply.now) }
    ensures err { OnErr result (to.new ≡ to.old) }
{
    let mut text = Bytes::from_vec(Vec::new(alloc));
    push_reply(alloc, &mut text, reply)?;
    to.append(text.as_slice())
}
