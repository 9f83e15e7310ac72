//! The text of a check.
ghost use Rattle.std.specs.Prelude.{◌≡◌, ◌++◌, ◌+◌, OnOk, IfOk, Ok, Err};
ghost use Rattle.std.specs.List.{flat_map};
ghost use Rattle.xvsim.specs.Check.{bundle_line, file_line, host_line, plan_text, guest_line, guests_text, check_text};

use crate::input::Input;
use hv_bundle::File;
use hv_host::Fault;
use hv_plan::{GuestPlan, Host};
use hv_text::{Bytes, push_decimal};
use std::alloc::{AllocError, Global};

fn push_bundle(alloc: Global, to: &mut Bytes, files: usize, size: usize) -> Result<(), AllocError>
    ensures { OnOk result (to.new ≡ to.old ++ bundle_line files size) }
{
    to.append(b"bundle ")?;
    push_decimal(alloc, to, files as u64)?;
    to.append(b" ")?;
    push_decimal(alloc, to, size as u64)?;
    to.append(b"\n")
}

fn push_file(alloc: Global, to: &mut Bytes, file: &File) -> Result<(), AllocError>
    ensures { OnOk result (to.new ≡ to.old ++ file_line file.now) }
{
    to.append(b"file ")?;
    to.append(file.path.text(alloc)?.as_slice())?;
    to.append(b" ")?;
    push_decimal(alloc, to, file.bytes.len() as u64)?;
    to.append(b"\n")
}

fn push_files(alloc: Global, to: &mut Bytes, files: &[File]) -> Result<(), AllocError>
    ensures { OnOk result (to.new ≡ to.old ++ flat_map file_line files.now) }
{
    for file in files {
        push_file(alloc, to, file)?;
    }
    Ok(())
}

fn push_host(alloc: Global, to: &mut Bytes, host: &Host) -> Result<(), AllocError>
    ensures { OnOk result (to.new ≡ to.old ++ host_line host.now) }
{
    to.append(b"host harts ")?;
    push_decimal(alloc, to, host.harts as u64)?;
    to.append(b" turns ")?;
    push_decimal(alloc, to, host.turns as u64)?;
    to.append(b" areas ")?;
    push_decimal(alloc, to, host.areas.len() as u64)?;
    to.append(b"\n")
}

fn push_good(alloc: Global, to: &mut Bytes, plan: &GuestPlan) -> Result<(), AllocError>
    ensures { OnOk result (to.new ≡ to.old ++ plan_text (Ok plan.now)) }
{
    to.append(b" ok vcpus ")?;
    push_decimal(alloc, to, plan.vcpus.len() as u64)?;
    to.append(b" regions ")?;
    push_decimal(alloc, to, plan.regions.len() as u64)
}

fn push_bad(to: &mut Bytes, fault: &Fault) -> Result<(), AllocError>
    ensures { OnOk result (to.new ≡ to.old ++ plan_text (Err fault.now)) }
{
    to.append(b" bad ")?;
    to.append(fault.path.as_slice())?;
    to.append(b" ")?;
    to.append(fault.cause.name().as_bytes())
}

fn push_plan(
    alloc: Global,
    to: &mut Bytes,
    plan: &Result<GuestPlan, Fault>,
) -> Result<(), AllocError>
    ensures { OnOk result (to.new ≡ to.old ++ plan_text plan.now) }
{
    match plan {
        Ok(plan) => push_good(alloc, to, plan),
        Err(fault) => push_bad(to, fault),
    }
}

fn push_guest(
    alloc: Global,
    to: &mut Bytes,
    name: &[u8],
    plan: &Result<GuestPlan, Fault>,
) -> Result<(), AllocError>
    ensures { OnOk result (to.new ≡ to.old ++ guest_line name.now plan.now) }
{
    to.append(b"guest ")?;
    to.append(name)?;
    push_plan(alloc, to, plan)?;
    to.append(b"\n")
}

fn push_guests(
    alloc: Global,
    to: &mut Bytes,
    names: &[Bytes],
    plans: &[Result<GuestPlan, Fault>],
) -> Result<(), AllocError>
    ensures { OnOk result (to.new ≡ to.old ++ guests_text names.now plans.now) }
{
    let mut names = names;
    let mut plans = plans;
    'guests: while let Some((name, more_names)) = names.split_first() {
        let Some((plan, more_plans)) = plans.split_first() else {
            return Ok(());
        };
        push_guest(alloc, to, name.as_slice(), plan)?;
        names = more_names;
        plans = more_plans;
    }
    Ok(())
}

/// The text of a check of an input.
pub fn check_text(alloc: Global, input: &Input) -> Result<Bytes, AllocError>
    ensures { IfOk result (λ text.
        text ≡ check_text input.now.files.items input.now.size input.now.board) }
{
    let mut text = Bytes::from_vec(Vec::new(alloc));
    push_bundle(alloc, &mut text, input.files.len(), input.size)?;
    push_files(alloc, &mut text, &input.files)?;
    push_host(alloc, &mut text, &input.board.host)?;
    push_guests(
        alloc,
        &mut text,
        &input.board.host.guests,
        &input.board.plans,
    )?;
    Ok(text)
}
