//! Rows of guests that regions are added to.
ghost use Rattle.std.specs.Prelude.{◌≡◌};
ghost use Rattle.std.specs.Option.{option_map};
ghost use Rattle.hv_region.specs.declared.window.Window.{Window};
ghost use Rattle.hv_rules.specs.Windows.{window_of};
ghost use Rattle.hv_guest_steps.specs.Additions.{refusal_of, region_at, stopped_by};

use hv_kinds::Generation;
use hv_refusal::Refusal;
use hv_region::{RegionPlan, Window};
use std::snapshot::Snapshot;

/// A row of a guest.
#[derive(Clone, Copy, Debug, PartialEq, Eq)]
pub struct GuestRow {
    pub guest: Generation,
    pub row: u8,
    /// How many VCPUs the guest has.
    pub vcpus: u8,
}

/// Why a region isn't added: the first of these reasons.
#[derive(Clone, Copy, Debug, PartialEq, Eq)]
pub enum NotAdded {
    /// The row has a window already.
    Live,
    /// The window would meet that of another row; the least such row.
    Overlap(u8),
    /// It is an alias of a range that no region's own window holds.
    AliasTarget,
    /// The pool has no device that would do.
    NoEmulator,
}

/// The window of the region that a plan puts into a row. That of an alias leads to its target, from
/// an offset there on.
pub fn window_of(at: GuestRow, plan: &RegionPlan, target: Option<(u8, u64)>) -> Window
    ensures { result ≡ window_of (region_at at plan.now) target }
{
    let (leads_to, offset) = match target {
        Some(target) => target,
        None => (at.row, 0),
    };
    Window {
        owner: at.row,
        target: leads_to,
        birth: at.guest.birth,
        kind: plan.kind,
        base: plan.base,
        size: plan.size,
        offset,
    }
}

/// Why a region isn't added, as a reply shows it.
pub fn refusal_of(why: NotAdded) -> Refusal
    ensures { result ≡ refusal_of why }
{
    match why {
        NotAdded::Live => Refusal::Live,
        NotAdded::Overlap(row) => Refusal::Overlap(row),
        NotAdded::AliasTarget => Refusal::AliasTarget,
        NotAdded::NoEmulator => Refusal::NoEmulator,
    }
}

/// Why the space stops an addition, if it does.
pub fn stopped_by(why: NotAdded) -> Option<Snapshot<Refusal>>
    ensures { option_map (λ stopped. stopped.value) result ≡ stopped_by why }
{
    match why {
        NotAdded::NoEmulator => None,
        _ => Some(Snapshot::of(&refusal_of(why))),
    }
}
