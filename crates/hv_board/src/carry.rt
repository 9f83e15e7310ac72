//! Parts leave their cells for an event, and come back.
ghost use Rattle.std.specs.Prelude.{◌≡◌, ◌<◌, ◌≤◌, [], All, IsSome, None, Some, length, map, max, vec_capacity};
ghost use Rattle.hv_machine.specs.Machine.{greatest};
ghost use Rattle.hv_board.specs.Held.{IsRising};
ghost use Rattle.hv_board.specs.Carrying.{AreOut, AreFrom, ArePut, IsFullAt, put_into, stamp_in};

use crate::cell::Cell;
use hv_parts::Part;

/// Takes the part of a cell out.
pub fn lift<E>(cell: &mut Cell<E>) -> Part<E>
    requires { IsSome cell.old.part }
    ensures part { cell.old.part ≡ Some result }
    ensures cell { cell.new ≡ record cell.old { part = None } }
{
    cell.part.take().unwrap()
}

/// Takes the parts at these places out, and tells the greatest of their stamps and of this one.
pub fn lift_all<E>(
    cells: &mut [Cell<E>],
    places: &[usize],
    stamp: u64,
    mut parts: Vec<Part<E>>,
) -> (Vec<Part<E>>, u64)
    requires room { (parts.items ≡ []) × (length places.now ≤ vec_capacity parts) }
    requires places { IsRising places.now × All (λ k. k < length cells.old) places.now }
    requires full { All (IsFullAt cells.old) places.now }
    ensures long { length result.0.items ≡ length places.now }
    ensures out { AreOut places.now result.0.items cells.old cells.new }
    ensures from { AreFrom places.now result.0.items cells.old }
    ensures top { result.1 ≡ max stamp (greatest (map (stamp_in cells.old) places.now)) }
    ensures capacity { vec_capacity result.0 ≡ vec_capacity parts }
{
    let mut top = stamp;
    for j in 0..places.len() {
        let cell = &mut cells[places[j]];
        top = top.max(cell.stamp);
        parts.push_reserved(lift(cell));
    }
    (parts, top)
}

/// Puts a part into a cell.
fn put<E: Drop>(cell: &mut Cell<E>, part: Part<E>, stamp: Option<u64>)
    ensures { cell.new ≡ put_into stamp cell.old (Some part) }
{
    cell.part = Some(part);
    if let Some(stamp) = stamp {
        cell.stamp = stamp;
    }
}

/// Puts parts back at these places, with a new stamp where one is given, and gives their room back.
pub fn put_all<E: Drop>(
    cells: &mut [Cell<E>],
    places: &[usize],
    mut parts: Vec<Part<E>>,
    stamp: Option<u64>,
) -> Vec<Part<E>>
    requires long { length parts.items ≡ length places.now }
    requires places { IsRising places.now × All (λ k. k < length cells.old) places.now }
    ensures put { ArePut stamp places.now parts.items cells.old cells.new }
    ensures empty { result.items ≡ [] }
    ensures room { vec_capacity result ≡ vec_capacity parts }
{
    while let Some(part) = parts.pop() {
        let place = places[parts.len()];
        put(&mut cells[place], part, stamp);
    }
    parts
}
