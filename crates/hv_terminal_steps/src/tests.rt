//! Steps made at parts.

use super::*;
use hv_answer::Reply;
use hv_emu::Emulator;
use hv_files::FileTree;
use hv_parts::{Boxed, Part};
use hv_queue::Queue;
use hv_region::VcpuPlan;
use hv_step::{Halt, Kick, Look, Ls, Pause, Reset, Resume, Step, Vadd, Vdrop};
use hv_text::Path;
use hv_vcpu::Vcpu;
use std::test::Fail;

type Device = Box<dyn Emulator + Send>;

const PLAN: VcpuPlan = VcpuPlan {
    start: 0x8000_0000,
    priority: 3,
    slice: 8,
};

#[test]
fn adds_a_vcpu(rt: HostRuntime) -> Result<(), Fail> {
    let alloc = rt.alloc();
    let mut parts: [Part<Device>; 1] = [Part::Vcpu(Boxed::new(alloc, Vcpu::new())?)];
    let added = vadd_at(Vadd { vcpu: 5, birth: 7 }, 0, PLAN, &mut parts);
    assert!(rt; matches!(&added.reply, Reply::Vadd(Ok(()))));
    Ok(())
}

#[test]
fn looks_at_a_vcpu(rt: HostRuntime) -> Result<(), Fail> {
    let alloc = rt.alloc();
    let parts: [Part<Device>; 1] = [Part::Vcpu(Boxed::new(alloc, Vcpu::new())?)];
    let looked = look_at(alloc, Look { vcpu: 5 }, &parts)?;
    assert!(rt; matches!(&looked.reply, Reply::Look(_)));
    Ok(())
}

#[test]
fn lists_the_files(rt: HostRuntime) -> Result<(), Fail> {
    let alloc = rt.alloc();
    let mut parts: [Part<Device>; 1] = [Part::Files(FileTree::new(alloc)?)];
    let step = Step::Ls(Ls {
        path: Path::root(alloc),
    });
    let made = files_at(alloc, &step, &mut parts)?;
    assert!(rt; matches!(&made.reply, Reply::Ls(Ok(_))));
    Ok(())
}

#[test]
fn makes_no_unknown_vcpu_ready(rt: HostRuntime) -> Result<(), Fail> {
    let alloc = rt.alloc();
    let mut parts: [Part<Device>; 2] = [
        Part::Queue(Queue::new(alloc)?),
        Part::Vcpu(Boxed::new(alloc, Vcpu::new())?),
    ];
    let step = Kick {
        vcpu: 5,
        guest: None,
    };
    let made = kick_at(1, &step, &mut parts);
    assert!(rt; matches!(&made.reply, Reply::Kick(Err(_))));
    let mut parts: [Part<Device>; 2] = [
        Part::Queue(Queue::new(alloc)?),
        Part::Vcpu(Boxed::new(alloc, Vcpu::new())?),
    ];
    let step = Resume {
        vcpu: 5,
        guest: None,
    };
    let made = resume_at(1, &step, &mut parts);
    assert!(rt; matches!(&made.reply, Reply::Resume(Err(_))));
    Ok(())
}

#[test]
fn stops_no_unknown_vcpu(rt: HostRuntime) -> Result<(), Fail> {
    let alloc = rt.alloc();
    let mut parts: [Part<Device>; 2] = [
        Part::Queue(Queue::new(alloc)?),
        Part::Vcpu(Boxed::new(alloc, Vcpu::new())?),
    ];
    let step = Pause {
        vcpu: 5,
        guest: None,
    };
    let made = pause_at(1, &step, &mut parts);
    assert!(rt; matches!(&made.reply, Reply::Pause(Err(_))));
    let mut parts: [Part<Device>; 2] = [
        Part::Queue(Queue::new(alloc)?),
        Part::Vcpu(Boxed::new(alloc, Vcpu::new())?),
    ];
    let step = Halt {
        vcpu: 5,
        guest: None,
    };
    let made = halt_at(1, &step, &mut parts);
    assert!(rt; matches!(&made.reply, Reply::Halt(Err(_))));
    Ok(())
}

#[test]
fn ends_no_unknown_vcpu(rt: HostRuntime) -> Result<(), Fail> {
    let alloc = rt.alloc();
    let mut parts: [Part<Device>; 2] = [
        Part::Queue(Queue::new(alloc)?),
        Part::Vcpu(Boxed::new(alloc, Vcpu::new())?),
    ];
    let step = Reset {
        vcpu: 5,
        guest: None,
    };
    let made = reset_at(1, &step, &mut parts);
    assert!(rt; matches!(&made.reply, Reply::Reset(Err(_))));
    let mut parts: [Part<Device>; 2] = [
        Part::Queue(Queue::new(alloc)?),
        Part::Vcpu(Boxed::new(alloc, Vcpu::new())?),
    ];
    let step = Vdrop { vcpu: 5 };
    let made = vdrop_at(1, step, &mut parts);
    assert!(rt; matches!(&made.reply, Reply::Vdrop(Err(_))));
    Ok(())
}
