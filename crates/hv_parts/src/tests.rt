//! Each kind of part, changed and read.

use super::*;
use hv_body::{Area, BodyOf};
use hv_dir::{Dir, ShelfOf};
use hv_emu::Emulator;
use hv_files::FileTree;
use hv_kinds::Stage;
use hv_queue::Queue;
use hv_region::VcpuPlan;
use hv_space::Space;
use hv_text::Path;
use hv_vcpu::{Move, Vcpu};
use std::test::Fail;

type Device = Box<dyn Emulator + Send>;

const PLAN: VcpuPlan = VcpuPlan {
    start: 0x8000_0000,
    priority: 3,
    slice: 8,
};

#[test]
fn reaches_what_a_board_has_once(rt: HostRuntime) -> Result<(), Fail> {
    let alloc = rt.alloc();
    let mut place: Part<Device> = Part::Dir(Boxed::new(alloc, Dir::new())?);
    assert!(rt; directory_mut(&mut place).claim(alloc, b"guest0").is_ok());
    assert!(rt; directory(&place).at(b"guest0", Stage::Making).is_ok());
    let mut place: Part<Device> = Part::Shelf(ShelfOf::new(Vec::new(alloc)));
    shelf_mut(&mut place).make_room(alloc)?;
    let _ = shelf(&place);
    let mut place: Part<Device> = Part::Files(FileTree::new(alloc)?);
    let path = Path::read(alloc, b"/")?;
    assert!(rt; files_mut(&mut place).list(&path).is_ok());
    assert!(rt; files(&place).get(&path).is_err());
    Ok(())
}

#[test]
fn reaches_what_guests_have(rt: HostRuntime) -> Result<(), Fail> {
    let alloc = rt.alloc();
    let mut place: Part<Device> = Part::Space(Space::new(alloc)?);
    space_mut(&mut place).set_clock(Some((1, 7)));
    assert!(rt; space(&place).clock() == Some((1, 7)));
    let mut place: Part<Device> = Part::Body(Boxed::new(alloc, BodyOf::new(alloc)?)?);
    assert!(rt; body_mut(&mut place).clear().is_none());
    assert!(rt; body(&place).birth() == None);
    let mut place: Part<Device> = Part::Area(Area::new(alloc, 8)?);
    area_mut(&mut place).write(4, 2, 0x4241);
    assert!(rt; area(&place).read(5, 1) == 0x42);
    Ok(())
}

#[test]
fn reaches_what_harts_run(rt: HostRuntime) -> Result<(), Fail> {
    let alloc = rt.alloc();
    let mut place: Part<Device> = Part::Queue(Queue::new(alloc)?);
    queue_mut(&mut place).push(5, 3);
    assert!(rt; queue(&place).head() == Some(5));
    let mut place: Part<Device> = Part::Vcpu(Boxed::new(alloc, Vcpu::new())?);
    let add = Move::Add {
        birth: 7,
        index: 0,
        plan: PLAN,
    };
    assert!(rt; vcpu_mut(&mut place).step(add).is_ok());
    assert!(rt; vcpu(&place).birth() == Some(7));
    Ok(())
}
