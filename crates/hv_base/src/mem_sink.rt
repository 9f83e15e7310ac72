//! A sink over memory, with writes that are made to fail.
ghost use Rattle.std.specs.Prelude.{◌≡◌, ◌<◌, Some, IfOk, length};
ghost use Rattle.hv_base.specs.Writing.{Pushes, PushHasCause};
ghost use Rattle.hv_base.specs.MemSink.{empty_with, push_of, after_push};

use crate::{Push, Sink};
use std::alloc::{AllocError, Global};
use std::marker::Model;

/// Holds the bytes that it is given, up to its room. The writes numbered in `failing` fail.
#[derive(Drop)]
pub struct MemSink {
    bytes: Vec<u8>,
    room: usize,
    failing: Vec<u64>,
    calls: u64,
    faults: u64,
}

impl Model for MemSink {
    ghost use Rattle.std.specs.Prelude.{◌≤◌, vec_len};
    ghost use Rattle.std.specs.Vec.{vec_capacity};
    ghost use Rattle.hv_base.specs.MemSink.{SinkState};

    ghost Value = { SinkState };

    ghost view = { λ s. record {
      held = s.bytes.items;
      room = s.room;
      failing = s.failing.items;
      calls = s.calls;
      faults = s.faults;
    } };

    ghost invariant = { λ s. (vec_len s.bytes ≤ s.room) × (s.room ≤ vec_capacity s.bytes) };
}

impl MemSink {
    /// `failing` has the numbers of the calls that fail, counted from 1.
    pub fn with_room(alloc: Global, room: usize, failing: Vec<u64>) -> Result<MemSink, AllocError>
        ensures { IfOk result (λ sink. sink ≡ empty_with room failing.items) }
    {
        Ok(MemSink {
            bytes: Vec::with_capacity(alloc, room)?,
            room,
            failing,
            calls: 0,
            faults: 0,
        })
    }

    /// The bytes held.
    pub fn bytes(&self) -> &[u8]
        ensures { result.now ≡ self.now.held }
    {
        &self.bytes
    }
}

impl Sink for MemSink {
    ghost held = { λ s. Some s.held };

    ghost faults = { λ s. s.faults };

    fn write(&mut self, piece: &[u8]) -> Push
        requires { 0 < length piece.now }
        ensures bytes { Pushes (Some self.old.held) (Some self.new.held) result piece.now }
        ensures cause { PushHasCause self.old.faults self.new.faults result }

        // Exactly which answer, and exactly what is held.
        ensures answer { result ≡ push_of self.old (length piece.now) }
        ensures after { self.new ≡ after_push self.old result piece.now }
    {
        self.calls = self.calls.saturating_add(1);
        let count = piece.len().min(self.room - self.bytes.len());
        if count == 0
            || self.failing.contains(&self.calls)
            || self.bytes.extend_from_slice(&piece[..count]).is_err()
        {
            self.faults = self.faults.saturating_add(1);
            return Push::Failed;
        }
        Push::Took(count)
    }
}
