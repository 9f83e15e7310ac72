//! Where the components of a board stand, and parts that leave their cells and come back.

use super::*;
use hv_answer::Reply;
use hv_dir::{Dir, Shelf};
use hv_event::{ActorId, CellId};
use hv_files::FileTree;
use hv_model::Opening;
use hv_parts::{Boxed, Part};
use hv_queue::Queue;
use hv_step::{Idle, Step};
use hv_text::{Items, Strings};
use std::test::Fail;

/// What stands for a device: none is asked for anything here.
type Device = u8;

#[test]
fn finds_places(rt: HostRuntime) -> Result<(), Fail> {
    let layout = Layout { harts: 2, areas: 1 };
    assert!(rt; layout.has(CellId::Queue(1)));
    assert!(rt; !layout.has(CellId::Area(1)));
    assert!(rt; layout.place_of(CellId::Dir) == 0);
    assert!(rt; layout.place_of(CellId::Area(0)) + 1 == layout.count());
    Ok(())
}

#[test]
fn lifts_parts_and_puts_them_back(rt: HostRuntime) -> Result<(), Fail> {
    let alloc = rt.alloc();
    let mut cells: [Cell<Device>; 2] = [
        Cell {
            part: Some(Part::Dir(Boxed::new(alloc, Dir::new())?)),
            stamp: 4,
        },
        Cell {
            part: Some(Part::Queue(Queue::new(alloc)?)),
            stamp: 6,
        },
    ];
    let room = Vec::with_capacity(alloc, 2)?;
    let (parts, top) = lift_all(&mut cells, &[0, 1], 5, room);
    assert!(rt; top == 6);
    assert!(rt; cells[0].part.is_none());
    let room = put_all(&mut cells, &[0, 1], parts, Some(7));
    assert!(rt; room.is_empty());
    assert!(rt; cells[1].part.is_some());
    assert!(rt; cells[0].stamp == 7);
    Ok(())
}

#[test]
fn opens_a_board(rt: HostRuntime) -> Result<(), Fail> {
    let alloc = rt.alloc();
    let opening = Opening {
        harts: 2,
        turns: 0,
        files: Items::new(alloc),
        areas: Items::new(alloc),
        plans: Items::new(alloc),
        scripts: Strings::new(alloc)?,
    };
    let files = FileTree::new(alloc)?;
    let shelf = Shelf::new(Vec::new(alloc));
    let mut board = open_board(alloc, &opening, files, shelf)?;
    assert!(rt; board.layout().harts == 2);
    assert!(rt; board.queue(1).head().is_none());
    let xs = [CellId::Queue(1), CellId::Vcpu(1)];
    let lifted = board.lift(3, &xs).expect(&rt, "no stamp is the last");
    assert!(rt; lifted.stamp == 4);
    board.put_back(lifted, &xs);
    assert!(rt; board.vcpu(1).birth().is_none());
    Ok(())
}

#[test]
fn keeps_what_an_actor_makes(rt: HostRuntime) -> Result<(), Fail> {
    let mut log = Log::new(rt.alloc(), ActorId::Hart(1));
    log.make_room()?;
    log.push(4, Step::Idle(Idle), Reply::Idle);
    assert!(rt; log.count == 1);
    assert!(rt; log.stamp == 4);
    assert!(rt; log.events[0].index == 1);
    Ok(())
}
