//! The windows of a guest's regions, listed.
ghost use Rattle.std.specs.Prelude.{◌≡◌, map, IfOk};
ghost use Rattle.hv_handed.specs.Given.{given};
ghost use Rattle.hv_handed.specs.Takes.{SpaceTakes};
ghost use Rattle.hv_rules.specs.Carry.{nothing};
ghost use Rattle.hv_rules.specs.Space.{listed};
ghost use Rattle.hv_step.specs.declared.step.Regions.{Regions};
ghost use Rattle.hv_step.specs.declared.step.Step.TheVariants as step;

use hv_answer::Reply;
use hv_emu::Emulator;
use hv_handed::{Handed, hand_nothing};
use hv_listing::ListedWindow;
use hv_region::Window;
use hv_space::Space;
use std::alloc::{AllocError, Global};

/// Lists the windows of a guest, which is admitted.
pub fn regions<E: Emulator>(alloc: Global, space: &Space) -> Result<(Reply, Handed<E>), AllocError>
    ensures space { IfOk result (λ made. (s : Regions)
        → SpaceTakes (step.Regions s) made.0 (given E.state made.1.value) space.now space.now) }
    ensures handed { IfOk result (λ made. given E.state made.1.value ≡ nothing) }
{
    let windows = listed_windows(alloc, space.windows())?;
    Ok((Reply::Regions(Ok(windows)), hand_nothing()))
}

/// The windows as they are listed.
fn listed_windows(
    alloc: Global,
    windows: &hv_region::WindowList,
) -> Result<hv_listing::WindowList, AllocError>
    ensures { IfOk result (λ list. list ≡ map listed windows.now) }
{
    let mut list = Vec::new(alloc);
    let mut place = 0;
    'others: while let Some(window) = windows.at(place) {
        list.push(listed(window))?;
        place += 1;
    }
    Ok(hv_listing::WindowList::from_vec(list))
}

/// A window as it is listed.
fn listed(window: Window) -> ListedWindow
    ensures { result ≡ listed window }
{
    ListedWindow {
        owner: window.owner,
        target: window.target,
        address_type: window.kind,
        base: window.base,
        size: window.size,
        offset: window.offset,
    }
}
