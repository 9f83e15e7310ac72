ghost use Rattle.std.specs.Prelude.{◌≡◌, ◌-◌, ◌∷◌, [], None, IfOk, vec_len, vec_capacity};
ghost use Rattle.hv_turn.specs.Passes.{AreGathered, IsOutside};

use crate::{Pass, Standing, Turn};
use std::alloc::{AllocError, Global};
use std::sync::Wait;
use std::test::Fail;
use std::thread;
use std::thread::Threads;

// The numbers of the handles that came, in order, behind an entry that names none.
#[derive(Drop)]
struct Visits {
    numbers: Vec<Option<u32>>,
}

impl Standing for Visits {
    type Entry = Option<u32>;

    ghost entries = { λ v. v.numbers.items };

    ghost names = { λ e. e };

    ghost spare = { λ v. vec_capacity v.numbers - vec_len v.numbers };

    fn make_room(&mut self, alloc: Global) -> Result<(), AllocError> {
        let _ = alloc;
        self.numbers.reserve(1)
    }
}

// Without memory it adds nothing.
fn visit_once<R: Wait>(
    rt: &R,
    alloc: Global,
    turn: &Turn<Visits>,
    pass: &mut Pass<Visits>,
    number: u32,
)
    requires { IsOutside turn.now.id number pass.old }
    ensures { IsOutside turn.now.id number pass.new }
{
    let mut held = turn.enter(rt, pass);
    let visits = held.value_mut();
    if visits.make_room(alloc).is_ok() {
        visits.numbers.push_reserved(Some(number));
    }
    turn.leave(pass, held);
}

fn visit<R: Wait>(
    rt: &R,
    alloc: Global,
    turn: &Turn<Visits>,
    mut pass: Pass<Visits>,
    number: u32,
) -> Pass<Visits>
    requires { IsOutside turn.now.id number pass }
    ensures { IsOutside turn.now.id number result }
{
    for _ in 0..1000u32 {
        visit_once(rt, alloc, turn, &mut pass, number);
    }
    pass
}

fn visit_both<R: Threads + Wait + Sync>(
    rt: &R,
    alloc: Global,
    turn: &Turn<Visits>,
    first: Pass<Visits>,
    second: Pass<Visits>,
) -> (Pass<Visits>, Pass<Visits>)
    requires first { IsOutside turn.now.id 0 first }
    requires second { IsOutside turn.now.id 1 second }
    ensures first { IsOutside turn.now.id 0 result.0 }
    ensures second { IsOutside turn.now.id 1 result.1 }
{
    thread::join(
        rt,
        || -> Pass<Visits>
            requires { IsOutside turn.now.id 0 first }
            ensures { IsOutside turn.entry.now.id 0 result }
        { visit(rt, alloc, turn, first, 0) },
        || -> Pass<Visits>
            requires { IsOutside turn.now.id 1 second }
            ensures { IsOutside turn.entry.now.id 1 result }
        { visit(rt, alloc, turn, second, 1) },
    )
}

fn count_of<R: Wait>(rt: &R, turn: &Turn<Visits>, pass: &mut Pass<Visits>) -> usize
    requires { IsOutside turn.now.id 2 pass.old }
    ensures { IsOutside turn.now.id 2 pass.new }
{
    let held = turn.enter(rt, pass);
    let count = held.value().numbers.len();
    turn.leave(pass, held);
    count
}

fn three(
    turn: &Turn<Visits>,
    mut passes: Vec<Pass<Visits>>,
) -> (Pass<Visits>, Pass<Visits>, Pass<Visits>)
    requires three { turn.now.passes ≡ 3 }
    requires all { AreGathered turn.now passes.items }
    ensures first { IsOutside turn.now.id 0 result.0 }
    ensures second { IsOutside turn.now.id 1 result.1 }
    ensures third { IsOutside turn.now.id 2 result.2 }
{
    let third = passes.pop().unwrap();
    let second = passes.pop().unwrap();
    let first = passes.pop().unwrap();
    (first, second, third)
}

fn together(
    alloc: Global,
    turn: &Turn<Visits>,
    first: Pass<Visits>,
    second: Pass<Visits>,
    third: Pass<Visits>,
) -> Result<Vec<Pass<Visits>>, AllocError>
    requires three { turn.now.passes ≡ 3 }
    requires first { IsOutside turn.now.id 0 first }
    requires second { IsOutside turn.now.id 1 second }
    requires third { IsOutside turn.now.id 2 third }
    ensures { IfOk result (λ v. AreGathered turn.now v.items) }
{
    let mut passes = Vec::with_capacity(alloc, 3)?;
    passes.push_reserved(first);
    passes.push_reserved(second);
    passes.push_reserved(third);
    Ok(passes)
}

fn open_three(alloc: Global) -> Result<(Turn<Visits>, Vec<Pass<Visits>>), AllocError>
    ensures three { IfOk result (λ r. r.0.passes ≡ 3) }
    ensures all { IfOk result (λ r. AreGathered r.0 r.1.items) }
{
    let mut numbers = Vec::new(alloc);
    numbers.push(None)?;
    Turn::open(alloc, Visits { numbers }, 3)
}

// The third handle adds nothing.
#[test]
fn two_threads_take_turns(rt: HostRuntime) -> Result<(), Fail> {
    let alloc: Global = rt.alloc();
    let (turn, passes) = open_three(alloc)?;
    let (first, second, mut third) = three(&turn, passes);
    assert_eq!(rt;
        (first.number(), second.number(), third.number()),
        (0, 1, 2)
    );
    let (first, second) = visit_both(&rt, alloc, &turn, first, second);
    assert_eq!(rt; count_of(&rt, &turn, &mut third), 2001);
    let passes = together(alloc, &turn, first, second, third)?;
    let Visits { numbers } = turn.close(passes);
    let mut counts = [0u32; 3];
    for number in numbers.iter().flatten() {
        if let Some(count) = counts.get_mut(*number as usize) {
            *count = count.saturating_add(1);
        }
    }
    assert!(rt; numbers.len() == 2001 && numbers.first() == Some(&None));
    assert_eq!(rt; counts, [1000, 1000, 0]);
    Ok(())
}

fn may_be_shared<S: Sync>() {}

fn may_be_moved<S: Send>() {}

// Threads share a lock and move its handles between them where its value may move.
#[test]
fn crosses_threads() {
    fn crosses<T: Standing + Send>() {
        may_be_shared::<Turn<T>>();
        may_be_moved::<Pass<T>>();
    }
    crosses::<Visits>();
}
