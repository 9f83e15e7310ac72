//! Laws of bounds, each the contract of a function that does nothing.
ghost use Rattle.hv_bound_laws.specs.Boards.{HoldsWithinBounds};
ghost use Rattle.hv_bound_laws.specs.Bounds.{LegalHistoriesAreBounded, RunsAreBounded};
ghost use Rattle.hv_bound_laws.specs.Openings.{HostTreesAreGood};
ghost use Rattle.hv_bound_laws.specs.Regions.{GoodRegionsCanBe};

use hv_board::Board;
use hv_emu::Emulator;

/// The harts, the areas and the guests of a board are good that a host tree says: there are as many
/// as a board may have, and the plans keep the rules.
pub fn host_trees_are_good()
    ensures { HostTreesAreGood }
{}

/// Each region of such plans can be put into a guest, and its interrupts go to another region of
/// the guest, if to any.
pub fn regions_can_be()
    ensures { GoodRegionsCanBe }
{}

/// Each state is within bounds that a run leads to from a good opening, and so is each that a run
/// behind it leads to that all actors begin.
pub fn runs_are_bounded()
    ensures { RunsAreBounded }
{}

/// So is each state that a legal history leads to.
pub fn legal_histories_are_bounded()
    ensures { LegalHistoriesAreBounded }
{}

/// A board is within the same bounds that holds such a state and has the areas of the opening.
pub fn boards_are_bounded<E: Emulator>(board: &Board<E>)
    ensures { HoldsWithinBounds E.state board.now }
{
    let _ = board;
}
