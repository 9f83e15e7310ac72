//! Memory that is taken before a region is made.
ghost use Rattle.std.specs.Prelude.{◌≡◌, IfOk};
ghost use Rattle.hv_body.specs.Rules.{zeros_for};

use crate::memory::Memory;
use hv_region::{Form, RegionPlan, WindowList};
use hv_text::Strings;
use std::alloc::{AllocError, Global};
use std::marker::Model;

/// What the body of a new region needs of memory: a copy of the plan, bytes for RAM and ROM, and
/// room for windows. Contracts see it as the plan.
#[derive(Drop)]
pub struct BodyRoom {
    pub(crate) plan: RegionPlan,
    pub(crate) memory: Memory,
    pub(crate) windows: WindowList,
}

impl Model for BodyRoom {
    ghost use Rattle.std.specs.Prelude.{◌≡◌, []};
    ghost use Rattle.hv_region.specs.declared.plan.RegionPlan.{RegionPlan};
    ghost use Rattle.hv_body.specs.Rules.{zeros_for};

    ghost Value = { RegionPlan };

    ghost view = { λ r. r.plan };

    ghost invariant = { λ r. (r.memory ≡ zeros_for r.plan.form r.plan.size) × (r.windows ≡ []) };
}

impl BodyRoom {
    /// Room for a region of this plan.
    pub fn new(alloc: Global, plan: &RegionPlan) -> Result<BodyRoom, AllocError>
        ensures { IfOk result (λ room. room ≡ plan.now) }
    {
        Ok(BodyRoom {
            plan: copy_plan(alloc, plan)?,
            memory: zeros(alloc, &plan.form, plan.size)?,
            windows: WindowList::new(alloc)?,
        })
    }
}

/// The memory of a new region.
fn zeros(alloc: Global, form: &Form, size: u64) -> Result<Memory, AllocError>
    ensures { IfOk result (λ memory. memory ≡ zeros_for form.now size) }
{
    match form {
        Form::Ram => Memory::zeroed(alloc, size),
        Form::Rom => Memory::zeroed(alloc, size),
        _ => Ok(Memory::empty(alloc)),
    }
}

fn copy_plan(alloc: Global, plan: &RegionPlan) -> Result<RegionPlan, AllocError>
    ensures { IfOk result (λ copy. copy ≡ plan.now) }
{
    Ok(RegionPlan {
        name: plan.name.clone()?,
        kind: plan.kind,
        base: plan.base,
        size: plan.size,
        form: copy_form(alloc, &plan.form)?,
        detached: plan.detached,
        clock: plan.clock,
        parent: plan.parent,
    })
}

fn copy_form(alloc: Global, form: &Form) -> Result<Form, AllocError>
    ensures { IfOk result (λ copy. copy ≡ form.now) }
{
    Ok(match form {
        Form::Ram => Form::Ram,
        Form::Rom => Form::Rom,
        Form::Device(names) => Form::Device(Strings::from_vec(names.as_slice().to_vec(alloc)?)),
        Form::Real { area, offset } => Form::Real {
            area: *area,
            offset: *offset,
        },
        Form::Alias(addr) => Form::Alias(*addr),
    })
}
