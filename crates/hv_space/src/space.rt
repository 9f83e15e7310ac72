//! An address space.
ghost use Rattle.std.specs.Prelude.{◌≡◌, IfOk};
ghost use Rattle.std.specs.Borrow.{Lends, sem};
ghost use Rattle.hv_region.specs.contracts.list.WindowList.{the_row as windows_row};
ghost use Rattle.hv_space.specs.Space.{no_windows, with_windows, with_clock};

use hv_region::WindowList;
use std::alloc::{AllocError, Global};
use std::marker::Model;

/// The address space of a guest, which contracts see as its windows and its clock.
#[derive(Debug, Drop)]
pub struct Space {
    windows: WindowList,
    clock: Option<(u8, u64)>,
}

impl Model for Space {
    ghost use Rattle.hv_space.specs.Space.{SpaceState};

    ghost Value = { SpaceState };

    ghost view = { λ s. record { windows = s.windows; clock = s.clock } };
}

impl Space {
    ghost use Rattle.hv_space.specs.contracts.space.Space.{the_row};

    /// A space without windows, and without a clock.
    pub fn new(alloc: Global) -> Result<Space, AllocError>
        ensures { IfOk result (λ space. space ≡ no_windows) }
    {
        Ok(Space {
            windows: WindowList::new(alloc)?,
            clock: None,
        })
    }

    pub fn windows(&self) -> &WindowList
        ensures { result.now ≡ self.now.windows }
    {
        &self.windows
    }

    /// The windows, to be changed. The clock stays as it is.
    pub fn windows_mut(&mut self) -> &mut WindowList
        ensures* writes_back { sem 𝓛 (Lends the_row windows_row self.entry result (with_windows self.old)) }
        ensures value { result.now ≡ self.old.windows }
    {
        &mut self.windows
    }

    /// The index of the clock's region and the guest's birth, or None while no clock is live.
    pub fn clock(&self) -> Option<(u8, u64)>
        ensures { result ≡ self.now.clock }
    {
        self.clock
    }

    /// Says which clock is live, if any.
    pub fn set_clock(&mut self, clock: Option<(u8, u64)>)
        ensures { self.new ≡ with_clock self.old clock }
    {
        self.clock = clock;
    }
}
