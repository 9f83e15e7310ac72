//! Windows that accesses reach, by reading an address space.
ghost use Rattle.std.specs.Prelude.{◌≡◌, ◌↔◌, IsTrue, option_and_then};
ghost use Rattle.hv_answer.specs.declared.reply.Reply.{Reply};
ghost use Rattle.hv_handed.specs.Takes.{SpaceTakes};
ghost use Rattle.hv_rules.specs.Carry.{Carry};
ghost use Rattle.hv_rules.specs.Space.{reached};
ghost use Rattle.hv_rules.specs.Windows.{window_at};
ghost use Rattle.hv_step.specs.declared.step.Step.TheVariants as steps;

use hv_kinds::AddressType;
use hv_region::{Window, guest_place};
use hv_rules::searches_find_what_the_rules_name;
use hv_space::Space;
use hv_step::Fault;

/// The memory window that holds a whole range, which isn't empty.
pub fn memory_window(space: &Space, address: u64, size: u64) -> Option<Window>
    ensures { result ≡ window_at space.now.windows AddressType.Memory address size }
{
    find_window(space, AddressType::Memory, address, size)
}

/// The window that holds all bytes of an instruction or of what it loads or stores.
pub fn window_reached(space: &Space, address: u64, size: u8) -> Option<Window>
    ensures { result ≡ reached space.now.windows address size }
{
    searches_find_what_the_rules_name();
    let place = guest_place(address);
    window_in(space, place, size)
}

/// Whether an access faults: no window holds it.
pub fn is_fault(space: &Space, step: Fault) -> bool
    ensures { IsTrue result
        ↔ ((r : Reply) (c : Carry) → SpaceTakes (steps.Fault step) r c space.now space.now) }
{
    window_reached(space, step.address, step.size).is_none()
}

/// The window that holds an access at a place, if there is one.
fn window_in(space: &Space, place: Option<(AddressType, u64)>, size: u8) -> Option<Window>
    ensures { result ≡ option_and_then (λ at. window_at space.now.windows at.0 at.1 size) place }
{
    match place {
        Some((kind, address)) => find_window(space, kind, address, size as u64),
        None => None,
    }
}

/// The window that holds a whole range of a type.
fn find_window(space: &Space, kind: AddressType, address: u64, size: u64) -> Option<Window>
    ensures { result ≡ window_at space.now.windows kind address size }
{
    searches_find_what_the_rules_name();
    let windows = space.windows();
    // Of windows in their order no two hold one range.
    let _first = windows.at(0);
    windows.find(kind, address, size)
}
