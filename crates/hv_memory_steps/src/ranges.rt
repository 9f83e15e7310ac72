//! Ranges of a region's bytes, which a window shows.
ghost use Rattle.std.specs.Prelude.{◌≡◌, ◌+◌, ◌≤◌, IfSome};
ghost use Rattle.hv_body.specs.Body.{seen};
ghost use Rattle.hv_body.specs.Rules.{FitsArea, IsBody};
ghost use Rattle.hv_body.specs.Windows.{offset_in};
ghost use Rattle.hv_rules.specs.Body.{shared_in};
ghost use Rattle.hv_memory_steps.specs.Ranges.{EndsWithin, found_in, found_of, shown_range};
ghost use Rattle.hv_text.specs.declared.limits.TheConstants.{MOST_MEMORY};

use hv_body::BodyOf;
use hv_emu::Emulator;
use hv_region::{Form, RegionPlan, Window};

/// Where the bytes of a range are.
#[derive(Clone, Copy, Debug, PartialEq, Eq)]
pub(crate) enum Found {
    /// In the region's own memory, from an offset on.
    Own(u64),
    /// In an area, from an offset on.
    InArea(u8, u64),
    /// Nowhere: it isn't memory, or not all of it.
    NoMemory,
}

/// The area, and the offset there, that a window shows from an address on; None where the range is
/// the region's own, or no memory.
pub fn area_shown<E: Emulator>(
    body: &BodyOf<E>,
    window: Window,
    address: u64,
    size: u64,
) -> Option<(u8, u64)>
    ensures area { result ≡ shared_in (shown_range (seen E.state body.now) window address size) }
    ensures ends { IfSome result (λ place. place.1 + size ≤ MOST_MEMORY) }
{
    match find(body, window, address, size) {
        Found::InArea(number, offset) => Some((number, offset)),
        Found::Own(_) => None,
        Found::NoMemory => None,
    }
}

/// Where the bytes are that a window shows from an address on.
#[tactic(auto, using(crate::proofs::RangeLemmas::plan_fits, crate::proofs::RangeLemmas::found_as, crate::proofs::RangeLemmas::found_nowhere))]
pub(crate) fn find<E: Emulator>(body: &BodyOf<E>, window: Window, address: u64, size: u64) -> Found
    ensures value { result ≡ found_of body.now (offset_in window address) size }
    ensures ends { EndsWithin size result }
    ensures rules { IsBody body.now }
{
    match body.plan() {
        Some(plan) => {
            let distance = address.saturating_sub(window.base);
            find_in(plan, distance, window.offset, size)
        }
        None => Found::NoMemory,
    }
}

/// Where a range of a planned region's bytes is, by its distance behind an offset.
fn find_in(plan: &RegionPlan, distance: u64, offset: u64, size: u64) -> Found
    requires { FitsArea plan.now.size plan.now.form }
    ensures value { result ≡ found_in plan.now (distance + offset) size }
    ensures ends { EndsWithin size result }
{
    let end = plan.size;
    let Some(start) = distance.checked_add(offset) else {
        return Found::NoMemory;
    };
    if size > end || start > end - size {
        return Found::NoMemory;
    }
    match &plan.form {
        Form::Ram => Found::Own(start),
        Form::Rom => Found::Own(start),
        Form::Device(_) => Found::NoMemory,
        Form::Real {
            area,
            offset: first,
        } => Found::InArea(*area, *first + start),
        Form::Alias(_) => Found::NoMemory,
    }
}
