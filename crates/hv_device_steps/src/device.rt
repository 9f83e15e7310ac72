//! Steps on the device of a region, which the region's row names.
ghost use Rattle.std.specs.Prelude.{◌≡◌, [], IfOk};
ghost use Rattle.hv_body.specs.Body.{seen, shown};
ghost use Rattle.hv_handed.specs.Given.{given};
ghost use Rattle.hv_handed.specs.Takes.{BodyTakes};
ghost use Rattle.hv_rules.specs.Body.{fed, output_of, parent_of};
ghost use Rattle.hv_rules.specs.Carry.{nothing};
ghost use Rattle.hv_step.specs.declared.step.Devreset.{Devreset};
ghost use Rattle.hv_step.specs.declared.step.Output.{Output};
ghost use Rattle.hv_step.specs.declared.step.Step.TheVariants as steps;

use crate::handed::hand_body;
use hv_answer::Reply;
use hv_body::BodyOf;
use hv_emu::Emulator;
use hv_handed::{Handed, hand_region};
use hv_refusal::Refusal;
use hv_signals::{Signals, changes};
use hv_step::Feed;
use hv_text::Bytes;
use std::alloc::{AllocError, Global};

/// Resets the device of a region. One that isn't live or has no device stays as it is.
pub fn devreset<E: Emulator>(row: u8, body: &mut BodyOf<E>) -> (Reply, Handed<E>)
    ensures body { (s : Devreset) → BodyTakes row (steps.Devreset s) result.0
        (given E.state result.1.value) (seen E.state body.old) (seen E.state body.new) }
    ensures handed { given E.state result.1.value
        ≡ record nothing { row = Some row; parent = parent_of (seen E.state body.old) } }
{
    let handed = hand_body(row, body);
    let before = Signals::of(body);
    body.reset();
    (
        Reply::Devreset(Ok(changes(before, Signals::of(body)))),
        handed,
    )
}

/// Sends bytes to the serial device of a region, where one is live there.
pub fn feed<E: Emulator>(step: &Feed, row: u8, body: &mut BodyOf<E>) -> (Reply, Handed<E>)
    ensures body { BodyTakes row (steps.Feed step.now) result.0
        (given E.state result.1.value) (seen E.state body.old) (seen E.state body.new) }
    ensures handed { given E.state result.1.value
        ≡ record nothing { row = Some row; parent = parent_of (seen E.state body.old) } }
{
    let handed = hand_body(row, body);
    if !body.serial() {
        return (Reply::Feed(Err(Refusal::NotSerial)), handed);
    }
    let before = Signals::of(body);
    feed_all(step.bytes.as_slice(), body);
    (Reply::Feed(Ok(changes(before, Signals::of(body)))), handed)
}

/// Bytes arrive at a device, one after the other.
fn feed_all<E: Emulator>(bytes: &[u8], body: &mut BodyOf<E>)
    ensures { seen E.state body.new ≡ fed bytes.now (seen E.state body.old) }
{
    for byte in bytes {
        body.feed(*byte);
    }
}

/// Reads what the serial device of a region has sent, where one is live there.
pub fn output<E: Emulator>(
    alloc: Global,
    row: u8,
    body: &BodyOf<E>,
) -> Result<(Reply, Handed<E>), AllocError>
    ensures body { IfOk result (λ made. (s : Output) → BodyTakes row (steps.Output s) made.0
        (given E.state made.1.value) (seen E.state body.now) (seen E.state body.now)) }
    ensures handed { IfOk result (λ made. given E.state made.1.value ≡ record nothing { row = Some row }) }
{
    if !body.serial() {
        return Ok((
            Reply::Output(Err(Refusal::NotSerial)),
            hand_region(row, None),
        ));
    }
    let bytes = bytes_sent(alloc, body)?;
    Ok((Reply::Output(Ok(bytes)), hand_region(row, None)))
}

/// What a device keeps of the bytes that it sent.
fn bytes_sent<E: Emulator>(alloc: Global, body: &BodyOf<E>) -> Result<Bytes, AllocError>
    ensures { IfOk result (λ bytes. bytes ≡ shown output_of [] (seen E.state body.now)) }
{
    let mut bytes = Vec::new(alloc);
    'sent: while let Some(byte) = body.output_at(bytes.len()) {
        bytes.push(byte)?;
    }
    Ok(Bytes::from_vec(bytes))
}
