//! Signals.
ghost use Rattle.std.specs.Prelude.{◌≡◌, ◌<◌, ◌^◌};
ghost use Rattle.hv_body.specs.Body.{seen};
ghost use Rattle.hv_rules.specs.Body.{BodyValue, changes, has_turned, have_turned, number_of_bits};
ghost use Rattle.hv_signals.specs.Signals.{signals_of, turned};

use hv_body::BodyOf;
use hv_emu::Emulator;
use hv_kinds::{Pins, SignalChanges};
use hv_text::GUEST_VCPUS;

const NO_PINS: Pins = Pins {
    ext: false,
    soft: false,
    timer: false,
};

/// The levels that a body drives.
#[derive(Clone, Copy, Debug, PartialEq, Eq)]
pub struct Signals {
    /// The level of the interrupt line.
    pub line: bool,
    /// The levels of the interrupt pins of each VCPU of the guest.
    pub pins: [Pins; GUEST_VCPUS],
}

impl Signals {
    /// The signals of a body, which are low where it is empty.
    pub fn of<E: Emulator>(body: &BodyOf<E>) -> Signals
        ensures { result ≡ signals_of (seen E.state body.now) }
    {
        let mut pins = [NO_PINS; GUEST_VCPUS];
        for vcpu in 0..GUEST_VCPUS {
            pins[vcpu] = body.pins(vcpu as u8);
        }
        Signals {
            line: body.line(),
            pins,
        }
    }
}

/// What changed of a body's signals, before against after.
pub fn changes(before: Signals, after: Signals) -> SignalChanges
    ensures { (old new : BodyValue) → before ≡ signals_of old → after ≡ signals_of new
        → result ≡ changes old new }
{
    SignalChanges {
        line: has_turned(before.line, after.line),
        pins: turned_bits(&before.pins, &after.pins),
    }
}

/// The number whose bits say which VCPUs' pins have changed, the lowest first.
fn turned_bits(before: &[Pins], after: &[Pins]) -> u8
    requires { number_of_bits (turned before.now after.now) < 2 ^ 8 }
    ensures { result ≡ number_of_bits (turned before.now after.now) }
{
    match before.split_first() {
        Some((one, before)) => match after.split_first() {
            Some((other, after)) => {
                u8::from(have_turned(*one, *other)) + 2 * turned_bits(before, after)
            }
            None => 0,
        },
        None => 0,
    }
}

/// Whether one of a VCPU's pins has changed.
fn have_turned(before: Pins, after: Pins) -> bool
    ensures { result ≡ have_turned before after }
{
    has_turned(before.ext, after.ext)
        || has_turned(before.soft, after.soft)
        || has_turned(before.timer, after.timer)
}

/// Whether a level has changed.
fn has_turned(before: bool, after: bool) -> bool
    ensures { result ≡ has_turned before after }
{
    before != after
}
