//! Steps printed.
ghost use Rattle.std.specs.Prelude.{◌≡◌, ◌++◌, [], ◌∷◌, Some, OnOk, OnErr};
ghost use Rattle.hv_data.specs.Data.{Number8, Address, Name, Born, At, Towards, data_words, spaced};
ghost use Rattle.hv_step.specs.Words.{guest_data, step_data, step_text};
ghost use Rattle.hv_step.specs.declared.step.Step.TheVariants as step;

use crate::name::step_name;
use crate::spaced::{
    push_address_word, push_bytes_word, push_generation_word, push_name_word, push_number_word,
    push_path_word, push_stage_word,
};
use crate::step::{Access, ByGuest, Fault, Fetch, Load, Mem, Pin, Sample, Step};
use hv_data::{push_access_kind, push_direction, push_next_stage};
use hv_kinds::Generation;
use hv_name::push_name;
use hv_text::Bytes;
use std::alloc::{AllocError, Global};

fn push_guest(alloc: Global, to: &mut Bytes, guest: &Option<ByGuest>) -> Result<(), AllocError>
    ensures { OnOk result (to.new ≡ to.old ++ spaced (data_words (guest_data guest.now))) }
{
    match guest {
        None => Ok(()),
        Some(guest) => {
            push_name_word(to, &guest.name)?;
            push_generation_word(alloc, to, guest.generation)
        }
    }
}

fn push_region(
    alloc: Global,
    to: &mut Bytes,
    name: &Bytes,
    region: &Bytes,
    stage: hv_kinds::Stage,
    generation: Option<Generation>,
) -> Result<(), AllocError>
    ensures { OnOk result (to.new ≡ to.old ++ spaced (data_words
        (Name name.now ∷ Name region.now ∷ At stage ∷ Born generation ∷ []))) }
{
    push_name_word(to, name)?;
    push_name_word(to, region)?;
    push_stage_word(to, stage)?;
    push_generation_word(alloc, to, generation)
}

fn push_load(alloc: Global, to: &mut Bytes, s: &Load) -> Result<(), AllocError>
    ensures { OnOk result (to.new ≡ to.old ++ spaced (data_words (step_data (step.Load s.now)))) }
{
    push_name_word(to, &s.name)?;
    push_path_word(alloc, to, &s.path)?;
    push_address_word(alloc, to, s.address)?;
    push_generation_word(alloc, to, s.generation)
}

fn push_mem(alloc: Global, to: &mut Bytes, s: &Mem) -> Result<(), AllocError>
    ensures { OnOk result (to.new ≡ to.old ++ spaced (data_words (step_data (step.Mem s.now)))) }
{
    push_name_word(to, &s.name)?;
    push_address_word(alloc, to, s.address)?;
    push_number_word(alloc, to, s.count)?;
    push_generation_word(alloc, to, s.generation)
}

fn push_fetch(alloc: Global, to: &mut Bytes, s: &Fetch) -> Result<(), AllocError>
    ensures { OnOk result (to.new ≡ to.old ++ spaced (data_words (step_data (step.Fetch s.now)))) }
{
    push_number_word(alloc, to, s.vcpu as u64)?;
    push_number_word(alloc, to, s.row as u64)?;
    push_generation_word(alloc, to, Some(s.generation))
}

fn push_place(alloc: Global, to: &mut Bytes, s: &Access) -> Result<(), AllocError>
    ensures { OnOk result (to.new ≡ to.old ++ spaced (data_words
        (Number8 s.now.vcpu ∷ Number8 s.now.row ∷ Address s.now.address ∷ []))) }
{
    push_number_word(alloc, to, s.vcpu as u64)?;
    push_number_word(alloc, to, s.row as u64)?;
    push_address_word(alloc, to, s.address)
}

fn push_made(alloc: Global, to: &mut Bytes, s: &Access) -> Result<(), AllocError>
    ensures { OnOk result (to.new ≡ to.old ++ spaced (data_words
        (Number8 s.now.size ∷ Towards s.now.direction ∷ Address s.now.value
        ∷ Born (Some s.now.generation) ∷ []))) }
{
    push_number_word(alloc, to, s.size as u64)?;
    to.append(b" ")?;
    push_direction(to, s.direction)?;
    push_address_word(alloc, to, s.value)?;
    push_generation_word(alloc, to, Some(s.generation))
}

fn push_access(alloc: Global, to: &mut Bytes, s: &Access) -> Result<(), AllocError>
    ensures { OnOk result (to.new ≡ to.old ++ spaced (data_words (step_data (step.Access s.now)))) }
{
    push_place(alloc, to, s)?;
    push_made(alloc, to, s)
}

fn push_fault(alloc: Global, to: &mut Bytes, s: &Fault) -> Result<(), AllocError>
    ensures { OnOk result (to.new ≡ to.old ++ spaced (data_words (step_data (step.Fault s.now)))) }
{
    push_number_word(alloc, to, s.vcpu as u64)?;
    push_address_word(alloc, to, s.address)?;
    push_number_word(alloc, to, s.size as u64)?;
    to.append(b" ")?;
    push_access_kind(to, s.access)?;
    push_generation_word(alloc, to, Some(s.generation))
}

fn push_sample(alloc: Global, to: &mut Bytes, s: &Sample) -> Result<(), AllocError>
    ensures { OnOk result (to.new ≡ to.old ++ spaced (data_words (step_data (step.Sample s.now)))) }
{
    push_number_word(alloc, to, s.row as u64)?;
    push_number_word(alloc, to, s.parent as u64)?;
    push_number_word(alloc, to, s.source as u64)?;
    push_generation_word(alloc, to, Some(s.generation))
}

fn push_pin(alloc: Global, to: &mut Bytes, s: &Pin) -> Result<(), AllocError>
    ensures { OnOk result (to.new ≡ to.old ++ spaced (data_words (step_data (step.Pin s.now)))) }
{
    push_number_word(alloc, to, s.row as u64)?;
    push_number_word(alloc, to, s.vcpu as u64)?;
    push_generation_word(alloc, to, Some(s.generation))
}

fn push_data(alloc: Global, to: &mut Bytes, step: &Step) -> Result<(), AllocError>
    ensures { OnOk result (to.new ≡ to.old ++ spaced (data_words (step_data step.now))) }
{
    match step {
        Step::Bad(s) => push_bytes_word(alloc, to, &s.line),
        Step::Rest(_) => Ok(()),
        Step::Ls(s) => push_path_word(alloc, to, &s.path),
        Step::Cat(s) => push_path_word(alloc, to, &s.path),
        Step::Dts(s) => push_path_word(alloc, to, &s.path),
        Step::Run(s) => push_path_word(alloc, to, &s.path),
        Step::Mkdir(s) => push_path_word(alloc, to, &s.path),
        Step::Rm(s) => push_path_word(alloc, to, &s.path),
        Step::Write(s) => {
            push_path_word(alloc, to, &s.path)?;
            push_bytes_word(alloc, to, &s.bytes)
        }
        Step::Asm(s) => {
            push_path_word(alloc, to, &s.source)?;
            push_path_word(alloc, to, &s.target)
        }
        Step::Guests(_) => Ok(()),
        Step::Name(s) => push_name_word(to, &s.name),
        Step::Stage(s) => {
            push_name_word(to, &s.name)?;
            push_stage_word(to, s.from)?;
            to.append(b" ")?;
            push_next_stage(to, s.to)
        }
        Step::Add(s) => push_region(alloc, to, &s.name, &s.region, s.stage, s.generation),
        Step::Drop(s) => push_region(alloc, to, &s.name, &s.region, s.stage, s.generation),
        Step::Regions(s) => {
            push_name_word(to, &s.name)?;
            push_generation_word(alloc, to, s.generation)
        }
        Step::Load(s) => push_load(alloc, to, s),
        Step::Mem(s) => push_mem(alloc, to, s),
        Step::Devreset(s) => {
            push_name_word(to, &s.name)?;
            push_name_word(to, &s.region)?;
            push_generation_word(alloc, to, s.generation)
        }
        Step::Feed(s) => {
            push_name_word(to, &s.name)?;
            push_name_word(to, &s.region)?;
            push_bytes_word(alloc, to, &s.bytes)?;
            push_generation_word(alloc, to, s.generation)
        }
        Step::Output(s) => {
            push_name_word(to, &s.name)?;
            push_name_word(to, &s.region)?;
            push_generation_word(alloc, to, s.generation)
        }
        Step::Vadd(s) => {
            push_number_word(alloc, to, s.vcpu as u64)?;
            push_number_word(alloc, to, s.birth)
        }
        Step::Vdrop(s) => push_number_word(alloc, to, s.vcpu as u64),
        Step::Kick(s) => {
            push_number_word(alloc, to, s.vcpu as u64)?;
            push_guest(alloc, to, &s.guest)
        }
        Step::Resume(s) => {
            push_number_word(alloc, to, s.vcpu as u64)?;
            push_guest(alloc, to, &s.guest)
        }
        Step::Pause(s) => {
            push_number_word(alloc, to, s.vcpu as u64)?;
            push_guest(alloc, to, &s.guest)
        }
        Step::Halt(s) => {
            push_number_word(alloc, to, s.vcpu as u64)?;
            push_guest(alloc, to, &s.guest)
        }
        Step::Reset(s) => {
            push_number_word(alloc, to, s.vcpu as u64)?;
            push_guest(alloc, to, &s.guest)
        }
        Step::Look(s) => push_number_word(alloc, to, s.vcpu as u64),
        Step::Tick(s) => push_number_word(alloc, to, s.slot as u64),
        Step::Idle(_) => Ok(()),
        Step::Dispatch(s) => push_number_word(alloc, to, s.vcpu as u64),
        Step::Preempt(s) => push_number_word(alloc, to, s.vcpu as u64),
        Step::Leave(s) => push_number_word(alloc, to, s.vcpu as u64),
        Step::Take(s) => push_number_word(alloc, to, s.vcpu as u64),
        Step::Fetch(s) => push_fetch(alloc, to, s),
        Step::Access(s) => push_access(alloc, to, s),
        Step::Fault(s) => push_fault(alloc, to, s),
        Step::Balance(_) => Ok(()),
        Step::Sample(s) => push_sample(alloc, to, s),
        Step::Pin(s) => push_pin(alloc, to, s),
    }
}

fn push_step(alloc: Global, to: &mut Bytes, step: &Step) -> Result<(), AllocError>
    ensures { OnOk result (to.new ≡ to.old ++ step_text step.now) }
{
    push_name(to, step_name(step))?;
    push_data(alloc, to, step)
}

/// Appends a step's text. At `Err` nothing has changed.
pub fn print_step(alloc: Global, to: &mut Bytes, step: &Step) -> Result<(), AllocError>
    ensures ok { OnOk result (to.new ≡ to.old ++ step_text step.now) }
    ensures err { OnErr result (to.new ≡ to.old) }
{
    let mut text = Bytes::from_vec(Vec::new(alloc));
    push_step(alloc, &mut text, step)?;
    to.append(text.as_slice())
}
