//! A queue.
ghost use Rattle.std.specs.Prelude.{◌≡◌, ◌<◌, [], length, IfOk, IfSome};
ghost use Rattle.hv_queue.specs.Queue.{IsQueue, IsEntry, appended, head_of, last_of, front_of, without, without_head, pair_of};
ghost use Rattle.hv_queue.specs.Search.{later};

use crate::entry::QueueEntry;
use hv_text::VCPUS;
use std::alloc::{AllocError, Global};
use std::marker::Model;

/// The VCPUs that are ready, which contracts see as a list of entries in order of arrival.
#[derive(Debug, Drop)]
pub struct Queue {
    entries: Vec<QueueEntry>,
}

impl Model for Queue {
    ghost use Rattle.std.specs.Prelude.{◌≤◌, List, vec_capacity};
    ghost use Rattle.hv_queue.specs.declared.entry.QueueEntry.{QueueEntry};
    ghost use Rattle.hv_text.specs.declared.limits.TheConstants.{VCPUS};
    ghost use Rattle.hv_queue.specs.Queue.{IsQueue};

    ghost Value = { List QueueEntry };

    ghost view = { λ queue. queue.entries.items };

    ghost invariant = { λ queue. IsQueue queue.entries.items × (VCPUS ≤ vec_capacity queue.entries) };
}

impl Queue {
    /// An empty queue, with room for each VCPU of a board.
    pub fn new(alloc: Global) -> Result<Queue, AllocError>
        ensures { IfOk result (λ queue. queue ≡ []) }
    {
        Ok(Queue {
            entries: Vec::with_capacity(alloc, VCPUS)?,
        })
    }

    /// How many VCPUs stand in it; each of the board's stands there at most once.
    pub fn len(&self) -> usize
        ensures length { result ≡ length self.now }
        ensures rules { IsQueue self.now }
    {
        self.entries.len()
    }

    /// Puts a VCPU at the end, and takes out the entry that it has there.
    pub fn push(&mut self, vcpu: u8, priority: u8)
        requires vcpu { vcpu < VCPUS }
        requires priority { priority < 8 }
        ensures { self.new ≡ appended (record { vcpu = vcpu; priority = priority }) self.old }
    {
        self.remove(vcpu);
        let pushed = self.entries.push(QueueEntry { vcpu, priority });
        drop(pushed);
    }

    /// The VCPU that the hart runs next: the first of the greatest priority, or None where none stands in it.
    pub fn head(&self) -> Option<u8>
        ensures { result ≡ head_of self.now }
    {
        let mut best = None;
        for entry in self.entries.as_slice() {
            best = later(best, *entry);
        }
        best.map(|entry| entry.vcpu)
    }

    /// Takes the VCPU out that the hart runs next.
    pub fn pop_head(&mut self) -> Option<u8>
        ensures head { result ≡ head_of self.old }
        ensures others { self.new ≡ without_head self.old }
    {
        let head = self.head()?;
        self.remove(head);
        Some(head)
    }

    /// Takes out the VCPU that came last, with its priority.
    pub fn pop_last(&mut self) -> Option<(u8, u8)>
        ensures last { result ≡ pair_of (last_of self.old) }
        ensures others { self.new ≡ front_of self.old }
    {
        let last = self.entries.pop()?;
        Some((last.vcpu, last.priority))
    }

    /// The entry that came last, or None where none stands in it.
    pub fn last(&self) -> Option<QueueEntry>
        ensures last { result ≡ last_of self.now }
        ensures rules { IfSome result IsEntry }
    {
        self.entries.last().copied()
    }

    /// Takes a VCPU out, if it stands in it.
    pub fn remove(&mut self, vcpu: u8)
        ensures { self.new ≡ without vcpu self.old }
    {
        self.entries.retain(|entry| vcpu != entry.vcpu);
    }
}

// The best entry, once one more is seen.
fn later(best: Option<QueueEntry>, entry: QueueEntry) -> Option<QueueEntry>
    ensures { result ≡ later best entry }
{
    match best {
        Some(first) if first.priority >= entry.priority => Some(first),
        _ => Some(entry),
    }
}
