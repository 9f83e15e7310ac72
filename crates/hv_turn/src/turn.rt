//! The history lock.
ghost use Rattle.std.specs.Prelude.{◌≡◌, ◌<◌, [], ◌≤◌, true, false, IfOk, vec_capacity};
ghost use Rattle.hv_turn.specs.History.{IsOpening, IsLater, MayLeave};
ghost use Rattle.hv_turn.specs.Passes.{AreDealt, AreGathered, IsEnded};
ghost use Rattle.hv_turn.specs.Rule.{StartsWith, AreOutside, Covers, all_from, seat_view, seen_by};

use crate::held::Held;
use crate::pass::Pass;
use crate::rule::{Acquire, JoinBoth, Opening, Release, SeatView, SplitFirst, TurnRule};
use crate::standing::Standing;
use atomic_table::{Seat, Table};
use std::alloc::{AllocError, Global};
use std::marker::Model;
use std::snapshot::Snapshot;
use std::sync::Wait;
use std::sync::atomic::{AtomicU64, Ordering};

/// A history lock, which threads share.
///
/// Contracts see which lock it is, and the number of its handles.
#[derive(Drop)]
pub struct Turn<T: Standing> {
    // The one word is 1 while a handle is inside, and the one slot has the value while none is.
    table: Table<Option<T>, SeatView<T::Entry>, Opening<T>, TurnRule<T>, Global>,
    // How many threads wait, so that nobody is woken in vain.
    waiting: AtomicU64,
}

impl<T: Standing> Model for Turn<T> {
    ghost use Rattle.std.specs.Prelude.{◌≡◌, ◌<◌};
    ghost use Rattle.hv_turn.specs.Passes.{TurnView};

    ghost Value = { TurnView };

    ghost view = { λ t. record {
      id = t.table.shared.table_id;
      passes = t.table.shared.key.passes;
    } };

    ghost invariant = { λ t. (t.table.shared.table_id.words ≡ 1)
        × (t.table.shared.table_id.slots ≡ 1) × (0 < t.table.shared.key.passes) };
}

type Shared<T> = atomic_table::Shared<
    Option<T>,
    SeatView<<T as Standing>::Entry>,
    Opening<T>,
    TurnRule<T>,
>;

type SeatOf<T> = Seat<Option<T>, SeatView<<T as Standing>::Entry>>;

// Makes `count` handles, numbered from 0, of a seat that has them all.
fn deal<T: Standing>(
    shared: &Shared<T>,
    mut seat: SeatOf<T>,
    mut passes: Vec<Pass<T>>,
    count: u32,
) -> Vec<Pass<T>>
    requires table { (seat.table_id ≡ shared.now.table_id) × (0 < shared.now.table_id.words) }
    requires seat { (seat.me ≡ (all_from 0 count (seen_by seat.me.0), [])) × (0 < count) }
    requires room { (passes.items ≡ []) × (count ≤ vec_capacity passes) }
    ensures { AreDealt (record { id = shared.now.table_id; passes = count })
        (seen_by seat.me.0) result.items }
{
    let last = count - 1;
    for number in 0..last {
        let other = shared.split_seat::<SplitFirst>(&mut seat);
        passes.push_reserved(Pass {
            number,
            seat: other,
        });
    }
    passes.push_reserved(Pass { number: last, seat });
    passes
}

// Joins the seat of every handle into one.
fn gather<T: Standing>(shared: &Shared<T>, seat: &mut SeatOf<T>, mut passes: Vec<Pass<T>>)
    requires table { (seat.old.table_id ≡ shared.now.table_id) × (0 < shared.now.table_id.words) }
    requires outside { seat.old.me ≡ (seat_view false seat.old.me.0.passes, []) }
    requires all { AreOutside shared.now.table_id passes.items }
    ensures table { (seat.new.table_id ≡ seat.old.table_id) × (seat.new.id ≡ seat.old.id) }
    ensures outside { seat.new.me ≡ (seat_view false seat.new.me.0.passes, []) }
    ensures kept { StartsWith seat.new.me.0.passes seat.old.me.0.passes }
    ensures all { Covers seat.new.me.0.passes passes.items }
{
    while let Some(pass) = passes.pop() {
        let Pass {
            number: _,
            seat: other,
        } = pass;
        shared.join_seat::<JoinBoth>(seat, other);
    }
}

impl<T: Standing> Turn<T> {
    /// A lock with this value, and its `n` handles in the order of their numbers, from 0.
    pub fn open(alloc: Global, value: T, n: u32) -> Result<(Turn<T>, Vec<Pass<T>>), AllocError>
        requires some_pass { 0 < n }
        requires opening { IsOpening T.names (T.entries value) }
        ensures count { IfOk result (λ r. r.0.passes ≡ n) }
        ensures passes { IfOk result (λ r. AreDealt r.0 (T.entries value) r.1.items) }
    {
        let passes = Vec::with_capacity(alloc, n as usize)?;
        let mut slots = Vec::with_capacity(alloc, 1)?;
        let opening = Opening {
            value: Snapshot::of(&value),
            passes: n,
        };
        slots.push_reserved(Some(value));
        let Ok((table, seat)) = Table::new(alloc, &[0], slots, &opening) else {
            return Err(AllocError);
        };
        let passes = deal(&table.shared, seat, passes, n);
        let waiting = AtomicU64::new(0);
        Ok((Turn { table, waiting }, passes))
    }

    /// Acquires the lock, and waits while another handle is inside.
    pub fn enter<R: Wait>(&self, rt: &R, pass: &mut Pass<T>) -> Held<T>
        requires turn { pass.old.turn ≡ self.now.id }
        requires outside { pass.old.inside ≡ false }
        ensures later { IsLater T.names pass.old.number pass.old.seen (T.entries result) }
        ensures pass { pass.new ≡ record pass.old { inside = true; seen = T.entries result } }
    {
        let shared = &self.table.shared;
        for _ in rt.forever() {
            if shared.compare_exchange::<Acquire<T>>(&mut pass.seat, 0, 0, 1) == 0 {
                let value = shared.exchange(&mut pass.seat, 0, None).unwrap();
                return Held { value };
            }
            self.wait(rt);
        }
        unreachable!()
    }

    // Sleeps while a handle is inside. A thread is counted before it looks at the word, and whoever
    // leaves clears the word before it looks at the count: so one that sleeps is seen.
    fn wait<R: Wait>(&self, rt: &R) {
        self.waiting.fetch_add(1, Ordering::SeqCst);
        self.table.shared.park(rt, 0, 1);
        self.waiting.fetch_sub(1, Ordering::SeqCst);
    }

    /// Releases the lock, and wakes one thread where some wait for it.
    pub fn leave(&self, pass: &mut Pass<T>, held: Held<T>)
        requires turn { pass.old.turn ≡ self.now.id }
        requires inside { pass.old.inside ≡ true }
        requires entries { MayLeave T.names pass.old.number pass.old.seen (T.entries held) }
        ensures { pass.new ≡ record pass.old { inside = false; seen = T.entries held } }
    {
        let Held { value } = held;
        let shared = &self.table.shared;
        drop(shared.exchange(&mut pass.seat, 0, Some(value)));
        shared.swap::<Release<T>>(&mut pass.seat, 0, 0);
        if self.waiting.load(Ordering::SeqCst) != 0 {
            shared.wake_one(0);
        }
    }

    /// The value, once all handles are back.
    pub fn close(self, mut passes: Vec<Pass<T>>) -> T
        requires { AreGathered self passes.items }
        ensures { IsEnded T.names passes.items (T.entries result) }
    {
        let Turn { table, waiting: _ } = self;
        let Some(last) = passes.pop() else {
            unreachable!()
        };
        let Pass {
            number: _,
            mut seat,
        } = last;
        gather(&table.shared, &mut seat, passes);
        let mut closed = table.close_with(seat);
        let value = closed.take(0);
        closed.free();
        value.unwrap()
    }
}
