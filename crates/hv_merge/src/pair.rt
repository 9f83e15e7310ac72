//! Two lists, merged by taking the first event of both again and again.
ghost use Rattle.std.specs.Prelude.{◌≡◌, ◌+◌, ◌⊎◌, true, false, [], ◌∷◌, length, IfOk, MatchOption};
ghost use Rattle.hv_merge.specs.Merging.{IsRising, AreApart, IsMergeOf, BeginsFirst, IsTakenFrom};

use crate::order::is_before;
use hv_event::Event;
use std::alloc::{AllocError, Global};
use std::collections::VecDeque;

/// Whether the one of two lists has the first event of both.
fn begins_first(one: &VecDeque<Event>, other: &VecDeque<Event>) -> bool
    requires { AreApart one.now.items other.now.items }
    ensures yes { result ≡ true → BeginsFirst one.now.items other.now.items }
    ensures no { result ≡ false → BeginsFirst other.now.items one.now.items }
{
    let Some(first) = one.front() else {
        return false;
    };
    let Some(second) = other.front() else {
        return true;
    };
    is_before(first, second)
}

/// Takes the first event of both.
fn take_first(one: &mut VecDeque<Event>, other: &mut VecDeque<Event>) -> Option<Event>
    requires { AreApart one.old.items other.old.items }
    ensures { MatchOption result ((one.old.items ≡ []) × (other.old.items ≡ []))
        (λ e. IsTakenFrom one.old.items other.old.items e one.new.items other.new.items
        ⊎ IsTakenFrom other.old.items one.old.items e other.new.items one.new.items) }
{
    if begins_first(one, other) {
        one.pop_front()
    } else {
        other.pop_front()
    }
}

/// Merges two lists that are apart. Each event is moved once.
pub fn merge_two(
    alloc: Global,
    one: Vec<Event>,
    other: Vec<Event>,
) -> Result<Vec<Event>, AllocError>
    requires one_rises { IsRising one.items }
    requires other_rises { IsRising other.items }
    requires apart { AreApart one.items other.items }
    ensures merged { IfOk result (λ all. IsMergeOf (one.items ∷ other.items ∷ []) all.items) }
    ensures len { IfOk result (λ all. length all.items ≡ length one.items + length other.items) }
{
    let mut one = VecDeque::from(one);
    let mut other = VecDeque::from(other);
    let mut all = Vec::new(alloc);
    while let Some(event) = take_first(&mut one, &mut other) {
        all.push(event)?;
    }
    Ok(all)
}
