//! Looks at the memory of guests.
ghost use Rattle.std.specs.Prelude.{◌≡◌, ◌+◌, ◌≤◌, ℕ, None, Some, IfOk, IsSomeAnd, length};
ghost use Rattle.hv_answer.specs.declared.reply.Reply.TheVariants as replies;
ghost use Rattle.hv_body.specs.Body.{seen};
ghost use Rattle.hv_handed.specs.Given.{given};
ghost use Rattle.hv_handed.specs.Takes.{AreaTakes, BodyTakes, SpaceTakes};
ghost use Rattle.hv_handed.specs.Told.{IsTold};
ghost use Rattle.hv_kinds.specs.declared.address.AddressType.TheVariants as address_type;
ghost use Rattle.hv_rules.specs.Body.{ShowsMemory, shared_in};
ghost use Rattle.hv_rules.specs.Carry.{nothing};
ghost use Rattle.hv_rules.specs.Windows.{window_at};
ghost use Rattle.hv_step.specs.declared.step.Step.TheVariants as steps;
ghost use Rattle.hv_memory_steps.specs.Hands.{mem_carry};
ghost use Rattle.hv_memory_steps.specs.Ranges.{shown_range};

use crate::bytes::{area_bytes, own_bytes};
use crate::hands::{made_alone, made_mem};
use crate::ranges::{Found, area_shown, find};
use hv_answer::Reply;
use hv_body::{Area, BodyOf};
use hv_emu::Emulator;
use hv_handed::Made;
use hv_refusal::Refusal;
use hv_region::Window;
use hv_space::Space;
use hv_step::Mem;
use hv_text::Bytes;
use std::alloc::{AllocError, Global};

/// Looks at a guest's memory where no window holds it.
pub fn mem_nowhere<E: Emulator>(step: &Mem, space: &Space) -> Made<E>
    requires { window_at space.now.windows address_type.Memory step.now.address step.now.count ≡ None }
    ensures space { SpaceTakes (steps.Mem step.now) result.reply
        (given E.state result.handed.value) space.now space.now }
    ensures told { IsTold (given E.state result.handed.value) result.told }
    ensures handed { given E.state result.handed.value ≡ nothing }
{
    let _ = step;
    let _ = space;
    made_alone(Reply::Mem(Err(Refusal::NoWindow)))
}

/// Looks at what a region has of its own. A region without memory there refuses.
pub fn mem<E: Emulator>(
    alloc: Global,
    step: &Mem,
    space: &Space,
    window: Window,
    body: &BodyOf<E>,
) -> Result<Made<E>, AllocError>
    requires window { window_at space.now.windows address_type.Memory step.now.address step.now.count
        ≡ Some window }
    requires own { shared_in (shown_range (seen E.state body.now) window step.now.address
        step.now.count) ≡ None }
    ensures space { IfOk result (λ made. SpaceTakes (steps.Mem step.now) made.reply
        (given E.state made.handed.value) space.now space.now) }
    ensures body { IfOk result (λ made. (row : ℕ) → BodyTakes row (steps.Mem step.now) made.reply
        (given E.state made.handed.value) (seen E.state body.now) (seen E.state body.now)) }
    ensures told { IfOk result (λ made. IsTold (given E.state made.handed.value) made.told) }
    ensures handed { IfOk result (λ made. given E.state made.handed.value ≡ mem_carry window None) }
{
    let _ = space;
    let shown = memory_shown(alloc, body, window, step.address, step.count)?;
    Ok(made_mem(Reply::Mem(shown), window, None))
}

/// What a region shows of its own memory; it refuses where it has none.
fn memory_shown<E: Emulator>(
    alloc: Global,
    body: &BodyOf<E>,
    window: Window,
    address: u64,
    size: u64,
) -> Result<Result<Bytes, Refusal>, AllocError>
    requires { shared_in (shown_range (seen E.state body.now) window address size) ≡ None }
    ensures { IfOk result (λ answer. ShowsMemory
        (shown_range (seen E.state body.now) window address size) (replies.Mem answer)) }
{
    match find(body, window, address, size) {
        Found::Own(offset) => Ok(Ok(own_bytes(alloc, body, offset, size)?)),
        Found::InArea(_, _) => unreachable!(),
        Found::NoMemory => Ok(Err(Refusal::NotMemory)),
    }
}

/// The same of an area, of which a window shows a part.
pub fn mem_shared<E: Emulator>(
    alloc: Global,
    step: &Mem,
    space: &Space,
    window: Window,
    body: &BodyOf<E>,
    area: &Area,
) -> Result<Made<E>, AllocError>
    requires window { window_at space.now.windows address_type.Memory step.now.address step.now.count
        ≡ Some window }
    requires shared { IsSomeAnd (shared_in (shown_range (seen E.state body.now) window
        step.now.address step.now.count))
        (λ place. place.1 + step.now.count ≤ length area.now) }
    ensures space { IfOk result (λ made. SpaceTakes (steps.Mem step.now) made.reply
        (given E.state made.handed.value) space.now space.now) }
    ensures body { IfOk result (λ made. (row : ℕ) → BodyTakes row (steps.Mem step.now) made.reply
        (given E.state made.handed.value) (seen E.state body.now) (seen E.state body.now)) }
    ensures area { IfOk result (λ made. AreaTakes (steps.Mem step.now) made.reply
        (given E.state made.handed.value) area.now area.now) }
    ensures told { IfOk result (λ made. IsTold (given E.state made.handed.value) made.told) }
    ensures handed { IfOk result (λ made. given E.state made.handed.value ≡ mem_carry window
        (shared_in (shown_range (seen E.state body.now) window step.now.address
        step.now.count))) }
{
    let _ = space;
    let Some((number, offset)) = area_shown(body, window, step.address, step.count) else {
        unreachable!();
    };
    let bytes = area_bytes(alloc, area, offset, step.count)?;
    let area = Some((number, offset));
    Ok(made_mem(Reply::Mem(Ok(bytes)), window, area))
}
