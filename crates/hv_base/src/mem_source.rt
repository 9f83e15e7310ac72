//! A source over memory, with reads that are made to fail.
ghost use Rattle.std.specs.Prelude.{◌≡◌, ◌<◌, Some, length};
ghost use Rattle.hv_base.specs.Reading.{Pulls, PullHasCause, is_end};
ghost use Rattle.hv_base.specs.MemSource.{opened_with, pull_of, after_pull};

use crate::copy::copy_front;
use crate::{Pull, Source};
use std::marker::Model;

/// Gives these bytes, at most `piece` of them in one read. The reads numbered in `failing` fail.
#[derive(Drop)]
pub struct MemSource {
    bytes: Vec<u8>,
    at: usize,
    piece: usize,
    failing: Vec<u64>,
    calls: u64,
    faults: u64,
    ended: bool,
}

impl Model for MemSource {
    ghost use Rattle.std.specs.Prelude.{◌<◌, ◌≤◌, drop, vec_len};
    ghost use Rattle.hv_base.specs.MemSource.{SourceState};

    ghost Value = { SourceState };

    ghost view = { λ s. record {
      left = drop s.at s.bytes.items;
      piece = s.piece;
      failing = s.failing.items;
      calls = s.calls;
      faults = s.faults;
      ended = s.ended;
    } };

    ghost invariant = { λ s. (s.at ≤ vec_len s.bytes) × (0 < s.piece) };
}

impl MemSource {
    /// `failing` has the numbers of the calls that fail, counted from 1.
    pub fn new(bytes: Vec<u8>, piece: usize, failing: Vec<u64>) -> MemSource
        requires { 0 < piece }
        ensures { result ≡ opened_with bytes.items piece failing.items }
    {
        MemSource {
            bytes,
            at: 0,
            piece,
            failing,
            calls: 0,
            faults: 0,
            ended: false,
        }
    }
}

impl Source for MemSource {
    ghost left = { λ s. Some s.left };

    ghost faults = { λ s. s.faults };

    ghost ended = { λ s. s.ended };

    fn read(&mut self, into: &mut [u8]) -> Pull
        requires { 0 < length into.old }
        ensures bytes { Pulls (Some self.old.left) (Some self.new.left) result into.new }
        ensures cause { PullHasCause self.old.faults self.new.faults result }
        ensures end { self.new.ended ≡ is_end result }

        // Exactly which answer, and exactly what is left.
        ensures answer { result ≡ pull_of self.old (length into.old) }
        ensures after { self.new ≡ after_pull self.old result }
    {
        self.calls = self.calls.saturating_add(1);
        self.ended = false;
        if self.failing.contains(&self.calls) {
            self.faults = self.faults.saturating_add(1);
            return Pull::Failed;
        }
        let rest = self.bytes.split_at(self.at).1;
        if rest.is_empty() {
            self.ended = true;
            return Pull::End;
        }
        let count = copy_front(rest, self.piece, into);
        self.at += count;
        Pull::Got(count)
    }
}
