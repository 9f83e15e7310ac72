//! Files that are loaded into the memory of guests.
ghost use Rattle.std.specs.Prelude.{◌≡◌, ◌+◌, ◌≤◌, ℕ, None, Some, IsSomeAnd, length};
ghost use Rattle.hv_body.specs.Body.{seen};
ghost use Rattle.hv_handed.specs.Given.{given};
ghost use Rattle.hv_handed.specs.Takes.{AreaTakes, BodyTakes, SpaceTakes};
ghost use Rattle.hv_handed.specs.Told.{IsTold};
ghost use Rattle.hv_kinds.specs.declared.address.AddressType.TheVariants as address_type;
ghost use Rattle.hv_rules.specs.Body.{shared_in};
ghost use Rattle.hv_rules.specs.Carry.{nothing};
ghost use Rattle.hv_rules.specs.Windows.{window_at};
ghost use Rattle.hv_space.specs.Space.{SpaceState};
ghost use Rattle.hv_step.specs.declared.step.Load.{Load};
ghost use Rattle.hv_step.specs.declared.step.Step.TheVariants as steps;
ghost use Rattle.hv_answer.specs.declared.reply.Reply.TheVariants as replies;
ghost use Rattle.std.specs.Prelude.{Err};
ghost use Rattle.hv_memory_steps.specs.Hands.{load_carry};
ghost use Rattle.hv_memory_steps.specs.Ranges.{shown_range};

use crate::hands::{made_alone, made_load};
use crate::ranges::{Found, area_shown, find};
use hv_answer::Reply;
use hv_body::{Area, BodyOf};
use hv_emu::Emulator;
use hv_handed::Made;
use hv_refusal::Refusal;
use hv_region::Window;
use hv_space::Space;
use hv_step::Load;
use hv_text::Bytes;

/// Loads no file, where the files say why there is none.
pub fn load_missing<E: Emulator>(why: Refusal) -> Made<E>
    ensures reply { result.reply ≡ replies.Load (Err why) }
    ensures space { (s : Load) (space : SpaceState) → SpaceTakes (steps.Load s) result.reply
        (given E.state result.handed.value) space space }
    ensures told { IsTold (given E.state result.handed.value) result.told }
    ensures handed { given E.state result.handed.value ≡ nothing }
{
    made_alone(Reply::Load(Err(why)))
}

/// Loads no file where no window holds the whole of it.
pub fn load_nowhere<E: Emulator>(step: &Load, bytes: &Bytes, space: &Space) -> Made<E>
    requires { window_at space.now.windows address_type.Memory step.now.address (length bytes.now)
        ≡ None }
    ensures space { SpaceTakes (steps.Load step.now) result.reply
        (given E.state result.handed.value) space.now space.now }
    ensures told { IsTold (given E.state result.handed.value) result.told }
    ensures handed { given E.state result.handed.value ≡ load_carry bytes.now None None }
{
    let _ = step;
    let _ = space;
    made_load(Reply::Load(Err(Refusal::NoWindow)), bytes, None, None)
}

/// Loads a file into what a region has of its own. A region without memory there refuses.
pub fn load<E: Emulator>(
    step: &Load,
    bytes: &Bytes,
    space: &Space,
    window: Window,
    body: &mut BodyOf<E>,
) -> Made<E>
    requires window { window_at space.now.windows address_type.Memory step.now.address
        (length bytes.now) ≡ Some window }
    requires own { shared_in (shown_range (seen E.state body.old) window step.now.address
        (length bytes.now)) ≡ None }
    ensures space { SpaceTakes (steps.Load step.now) result.reply
        (given E.state result.handed.value) space.now space.now }
    ensures body { (row : ℕ) → BodyTakes row (steps.Load step.now) result.reply
        (given E.state result.handed.value) (seen E.state body.old) (seen E.state body.new) }
    ensures told { IsTold (given E.state result.handed.value) result.told }
    ensures handed { given E.state result.handed.value ≡ load_carry bytes.now (Some window) None }
{
    let _ = space;
    let size = bytes.len() as u64;
    match find(body, window, step.address, size) {
        Found::Own(offset) => {
            body.store(offset, bytes.as_slice());
            made_load(Reply::Load(Ok(size)), bytes, Some(window), None)
        }
        Found::InArea(_, _) => unreachable!(),
        Found::NoMemory => {
            let reply = Reply::Load(Err(Refusal::NotMemory));
            made_load(reply, bytes, Some(window), None)
        },
    }
}

/// Loads a file into an area, of which a window shows a part.
pub fn load_shared<E: Emulator>(
    step: &Load,
    bytes: &Bytes,
    space: &Space,
    window: Window,
    body: &BodyOf<E>,
    area: &mut Area,
) -> Made<E>
    requires window { window_at space.now.windows address_type.Memory step.now.address
        (length bytes.now) ≡ Some window }
    requires shared { IsSomeAnd (shared_in (shown_range (seen E.state body.now) window
        step.now.address (length bytes.now)))
        (λ place. place.1 + length bytes.now ≤ length area.old) }
    ensures space { SpaceTakes (steps.Load step.now) result.reply
        (given E.state result.handed.value) space.now space.now }
    ensures body { (row : ℕ) → BodyTakes row (steps.Load step.now) result.reply
        (given E.state result.handed.value) (seen E.state body.now) (seen E.state body.now) }
    ensures area { AreaTakes (steps.Load step.now) result.reply
        (given E.state result.handed.value) area.old area.new }
    ensures told { IsTold (given E.state result.handed.value) result.told }
    ensures handed { given E.state result.handed.value ≡ load_carry bytes.now (Some window)
        (shared_in (shown_range (seen E.state body.now) window step.now.address
        (length bytes.now))) }
{
    let _ = space;
    let size = bytes.len() as u64;
    let Some((number, offset)) = area_shown(body, window, step.address, size) else {
        unreachable!();
    };
    area.store(offset, bytes.as_slice());
    let area = Some((number, offset));
    made_load(Reply::Load(Ok(size)), bytes, Some(window), area)
}
