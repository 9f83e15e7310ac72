//! A source over memory that never fails.
ghost use Rattle.std.specs.Prelude.{◌≡◌, ◌<◌, Some, length};
ghost use Rattle.hv_base.specs.Reading.{Pulls, PullHasCause, is_end};
ghost use Rattle.hv_base.specs.SureSource.{opened_sure, sure_pull, after_sure_pull};

use crate::copy::copy_front;
use crate::{Pull, Source};
use std::marker::Model;

/// Gives these bytes, at most `piece` of them in one read.
#[derive(Drop)]
pub struct SureSource {
    bytes: Vec<u8>,
    at: usize,
    piece: usize,
    ended: bool,
}

impl Model for SureSource {
    ghost use Rattle.std.specs.Prelude.{◌<◌, ◌≤◌, drop, vec_len};
    ghost use Rattle.hv_base.specs.SureSource.{SureState};

    ghost Value = { SureState };

    ghost view = { λ s. record { left = drop s.at s.bytes.items; piece = s.piece; ended = s.ended } };

    ghost invariant = { λ s. (s.at ≤ vec_len s.bytes) × (0 < s.piece) };
}

impl SureSource {
    pub fn new(bytes: Vec<u8>, piece: usize) -> SureSource
        requires { 0 < piece }
        ensures { result ≡ opened_sure bytes.items piece }
    {
        SureSource {
            bytes,
            at: 0,
            piece,
            ended: false,
        }
    }
}

impl Source for SureSource {
    ghost left = { λ s. Some s.left };

    ghost faults = { λ _. 0 };

    ghost ended = { λ s. s.ended };

    fn read(&mut self, into: &mut [u8]) -> Pull
        requires { 0 < length into.old }
        ensures bytes { Pulls (Some self.old.left) (Some self.new.left) result into.new }
        ensures cause { PullHasCause 0 0 result }
        ensures end { self.new.ended ≡ is_end result }

        // Exactly which answer, and exactly what is left.
        ensures answer { result ≡ sure_pull self.old (length into.old) }
        ensures after { self.new ≡ after_sure_pull self.old result }
    {
        let rest = self.bytes.split_at(self.at).1;
        if rest.is_empty() {
            self.ended = true;
            return Pull::End;
        }
        self.ended = false;
        let count = copy_front(rest, self.piece, into);
        self.at += count;
        Pull::Got(count)
    }
}
