//! A sink that never fails and keeps nothing.
ghost use Rattle.std.specs.Prelude.{◌≡◌, ◌<◌, None, length};
ghost use Rattle.hv_base.specs.Writing.{Pushes, PushHasCause};

use crate::{Push, Sink};

/// Takes each piece whole and keeps nothing.
#[derive(Clone, Copy, Debug)]
pub struct SureSink;

impl SureSink {
    pub fn new() -> SureSink
        ensures { result ≡ record {} }
    {
        SureSink
    }
}

impl Sink for SureSink {
    ghost held = { λ _. None };

    ghost faults = { λ _. 0 };

    fn write(&mut self, piece: &[u8]) -> Push
        requires { 0 < length piece.now }
        ensures bytes { Pushes None None result piece.now }
        ensures cause { PushHasCause 0 0 result }
        ensures whole { result ≡ Push.Took (length piece.now) }
    {
        Push::Took(piece.len())
    }
}
