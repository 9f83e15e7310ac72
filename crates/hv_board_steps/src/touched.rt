//! What steps touch, as lists of components in the order of locks.
ghost use Rattle.std.specs.Prelude.{◌≡◌, ◌<◌, ◌∷◌, ◌++◌, [], IfOk, map};
ghost use Rattle.std.specs.List.{range_with_len};
ghost use Rattle.hv_event.specs.declared.event.CellId.TheVariants as component;
ghost use Rattle.hv_rules.specs.Footprint.{all_queues, home_queue, past_dir_if};
ghost use Rattle.hv_board_steps.specs.Vcpus.{IsShown, directory_if};

use hv_event::CellId;
use hv_step::ByGuest;
use std::alloc::{AllocError, Global};

// The directory, where a step is by guest.
fn directory_if(alloc: Global, guest: &Option<ByGuest>) -> Result<Vec<CellId>, AllocError>
    ensures { IfOk result (λ xs. xs.items ≡ directory_if guest.now) }
{
    let mut xs = Vec::new(alloc);
    if guest.is_some() {
        xs.push(CellId::Dir)?;
    }
    Ok(xs)
}

/// The home queue of a VCPU, and the VCPU.
pub(crate) fn home_parts(
    alloc: Global,
    harts: u8,
    guest: &Option<ByGuest>,
    vcpu: u8,
) -> Result<Vec<CellId>, AllocError>
    requires harts { 0 < harts }
    requires shown { IsShown guest.now }
    ensures { IfOk result (λ xs. xs.items
        ≡ past_dir_if guest.now (home_queue harts vcpu ∷ component.Vcpu vcpu ∷ [])) }
{
    let mut xs = directory_if(alloc, guest)?;
    xs.push(CellId::Queue(vcpu % harts))?;
    xs.push(CellId::Vcpu(vcpu))?;
    Ok(xs)
}

/// The queues of all harts, and a VCPU.
pub(crate) fn queue_parts(
    alloc: Global,
    harts: u8,
    guest: &Option<ByGuest>,
    vcpu: u8,
) -> Result<Vec<CellId>, AllocError>
    requires { IsShown guest.now }
    ensures { IfOk result (λ xs. xs.items
        ≡ past_dir_if guest.now (all_queues harts ++ component.Vcpu vcpu ∷ [])) }
{
    let mut xs = directory_if(alloc, guest)?;
    for hart in 0..harts {
        xs.push(CellId::Queue(hart))?;
    }
    xs.push(CellId::Vcpu(vcpu))?;
    Ok(xs)
}

/// A VCPU alone.
pub(crate) fn vcpu_alone(alloc: Global, vcpu: u8) -> Result<Vec<CellId>, AllocError>
    ensures { IfOk result (λ xs. xs.items ≡ component.Vcpu vcpu ∷ []) }
{
    let mut xs = Vec::new(alloc);
    xs.push(CellId::Vcpu(vcpu))?;
    Ok(xs)
}
