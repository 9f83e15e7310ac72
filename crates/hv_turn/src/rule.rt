//! The table beneath a history lock: its rule, what its seats know, and its steps.
use crate::standing::Standing;
use atomic_table::{Join, Play, Split, TableRule};
use std::collections::LinkedList;
use std::marker::PhantomData;
use std::snapshot::Snapshot;

/// What a handle knows: its number and the history that it has seen. For contracts alone.
pub struct PassState<E> {
    pub number: u64,
    pub seen: LinkedList<E>,
}

/// What a seat of the table knows: whether it is inside, and its handles. For contracts alone.
pub struct SeatView<E> {
    pub inside: bool,
    pub passes: LinkedList<PassState<E>>,
}

/// What the table is made with: the first value, and the number of handles.
#[derive(Drop)]
pub struct Opening<T> {
    pub value: Snapshot<T>,
    pub passes: u32,
}

/// The rule of the table.
pub struct TurnRule<T> {
    marker: PhantomData<T>,
}

impl<T: Standing> TableRule<Option<T>, SeatView<T::Entry>, Opening<T>> for TurnRule<T> {
    ghost use Rattle.hv_turn.specs.Rule.{KeepsRule, all_from};

    ghost holds = { λ opening. KeepsRule T.entries T.names opening.passes };

    ghost first = { λ opening. all_from 0 opening.passes (T.entries opening.value.value) };
}

/// The step by which a handle acquires the lock.
pub struct Acquire<T> {
    marker: PhantomData<T>,
}

impl<T: Standing> Play<Option<T>, SeatView<T::Entry>> for Acquire<T> {
    ghost use Rattle.hv_turn.specs.Rule.{acquired};

    ghost then = { acquired T.entries T.names };
}

/// The step by which a handle releases the lock.
pub struct Release<T> {
    marker: PhantomData<T>,
}

impl<T: Standing> Play<Option<T>, SeatView<T::Entry>> for Release<T> {
    ghost use Rattle.hv_turn.specs.Rule.{released};

    ghost then = { released T.entries };
}

/// The step that gives the first handle of a seat a seat of its own.
pub struct SplitFirst;

impl<E> Split<SeatView<E>> for SplitFirst {
    ghost use Rattle.hv_turn.specs.Rule.{without_first, first_alone};

    ghost left = { without_first };

    ghost right = { first_alone };
}

/// The step that gives a seat the handles of another.
pub struct JoinBoth;

impl<E> Join<SeatView<E>> for JoinBoth {
    ghost use Rattle.hv_turn.specs.Rule.{joined, spent};

    ghost both = { joined };

    ghost spent = { spent };
}
