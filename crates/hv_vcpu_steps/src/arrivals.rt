//! VCPUs that become ready by a command.
ghost use Rattle.std.specs.Prelude.{◌≡◌, ◌<◌, ℕ};
ghost use Rattle.hv_event.specs.declared.event.ActorId.{ActorId};
ghost use Rattle.hv_handed.specs.Given.{given};
ghost use Rattle.hv_handed.specs.Takes.{QueueTakes, VcpuTakes};
ghost use Rattle.hv_rules.specs.Handed.{handed_over};
ghost use Rattle.hv_step.specs.declared.step.Step.TheVariants as steps;
ghost use Rattle.hv_text.specs.declared.limits.TheConstants.{VCPUS};

use crate::hands::hand_priority;
use crate::moves::{make_move, priority_of};
use hv_answer::Reply;
use hv_emu::Emulator;
use hv_handed::Handed;
use hv_queue::Queue;
use hv_step::{Kick, Resume};
use hv_vcpu::{Move, Vcpu};

/// Makes a VCPU ready that is in reset, and puts it into its home queue.
pub fn kick<E: Emulator>(step: &Kick, home: &mut Queue, vcpu: &mut Vcpu) -> (Reply, Handed<E>)
    requires { step.now.vcpu < VCPUS }
    ensures queue { (hart : ℕ) → QueueTakes hart (steps.Kick step.now) result.0
        (given E.state result.1.value) home.old home.new }
    ensures vcpu { (by : ActorId) → VcpuTakes by (steps.Kick step.now) result.0
        (given E.state result.1.value) vcpu.old vcpu.new }
    ensures handed { handed_over (steps.Kick step.now) (given E.state result.1.value)
        ≡ given E.state result.1.value }
{
    let handed = hand_priority(vcpu);
    let priority = priority_of(vcpu);
    match make_move(vcpu, Move::Kick) {
        Ok(()) => {
            home.push(step.vcpu, priority);
            (Reply::Kick(Ok(())), handed)
        }
        Err(why) => (Reply::Kick(Err(why)), handed),
    }
}

/// Makes a paused VCPU ready, and puts it into its home queue.
pub fn resume<E: Emulator>(step: &Resume, home: &mut Queue, vcpu: &mut Vcpu) -> (Reply, Handed<E>)
    requires { step.now.vcpu < VCPUS }
    ensures queue { (hart : ℕ) → QueueTakes hart (steps.Resume step.now) result.0
        (given E.state result.1.value) home.old home.new }
    ensures vcpu { (by : ActorId) → VcpuTakes by (steps.Resume step.now) result.0
        (given E.state result.1.value) vcpu.old vcpu.new }
    ensures handed { handed_over (steps.Resume step.now) (given E.state result.1.value)
        ≡ given E.state result.1.value }
{
    let handed = hand_priority(vcpu);
    let priority = priority_of(vcpu);
    match make_move(vcpu, Move::Resume) {
        Ok(()) => {
            home.push(step.vcpu, priority);
            (Reply::Resume(Ok(())), handed)
        }
        Err(why) => (Reply::Resume(Err(why)), handed),
    }
}
