//! Events of steps on files and on VCPUs.

use super::*;
use hv_answer::Reply;
use hv_board::{Board, Stop, open_board};
use hv_dir::Shelf;
use hv_emu::Emulator;
use hv_event::ActorId;
use hv_files::FileTree;
use hv_model::Opening;
use hv_step::{Kick, Ls, Step};
use hv_text::{GREATEST_STAMP, Items, Path, Strings};
use std::test::Fail;

type Device = Box<dyn Emulator + Send>;

#[test]
fn lists_the_files(rt: HostRuntime) -> Result<(), Fail> {
    let alloc = rt.alloc();
    let opening = Opening {
        harts: 2,
        turns: 0,
        files: Items::new(alloc),
        areas: Items::new(alloc),
        plans: Items::new(alloc),
        scripts: Strings::new(alloc)?,
    };
    let files = FileTree::new(alloc)?;
    let mut board: Board<Device> = open_board(alloc, &opening, files, Shelf::new(Vec::new(alloc)))?;
    let step = Step::Ls(Ls {
        path: Path::root(alloc),
    });
    let happened = files_event(alloc, &mut board, ActorId::Terminal(1), 4, &step).expect(
        &rt,
        "no stamp is the last",
    );
    assert!(rt; happened.stamp == 5);
    assert!(rt; matches!(&happened.made.reply, Reply::Ls(Ok(_))));
    Ok(())
}

#[test]
fn kicks_the_vcpu_that_balances(rt: HostRuntime) -> Result<(), Fail> {
    let alloc = rt.alloc();
    let opening = Opening {
        harts: 2,
        turns: 0,
        files: Items::new(alloc),
        areas: Items::new(alloc),
        plans: Items::new(alloc),
        scripts: Strings::new(alloc)?,
    };
    let files = FileTree::new(alloc)?;
    let mut board: Board<Device> = open_board(alloc, &opening, files, Shelf::new(Vec::new(alloc)))?;
    let step = Step::Kick(Kick {
        vcpu: 0,
        guest: None,
    });
    let spent = vcpus_event(
        alloc,
        &mut board,
        ActorId::Terminal(0),
        GREATEST_STAMP,
        &step,
    );
    assert!(rt; matches!(spent, Err(Stop::Spent(GREATEST_STAMP))));
    let happened = vcpus_event(alloc, &mut board, ActorId::Terminal(0), 0, &step).expect(
        &rt,
        "no stamp is the last",
    );
    assert!(rt; happened.stamp == 1);
    assert!(rt; matches!(&happened.made.reply, Reply::Kick(Ok(()))));
    assert!(rt; board.queue(0).head().is_some());
    Ok(())
}
