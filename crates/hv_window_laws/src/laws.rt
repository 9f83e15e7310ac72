//! Laws of runs, each the contract of a function that does nothing.
ghost use Rattle.hv_window_laws.specs.Answers.{FetchIsAnsweredOnce, AccessIsAnsweredOnce};
ghost use Rattle.hv_window_laws.specs.Answers.{FetchIsAnsweredInAWindow, AccessIsAnsweredInAWindow};
ghost use Rattle.hv_window_laws.specs.Answers.{NoFetchIsAnsweredAtAFault, NoAccessIsAnsweredAtAFault};
ghost use Rattle.hv_window_laws.specs.Legal.{LegalHistoriesMatch};
ghost use Rattle.hv_window_laws.specs.Rows.{AccessIsTheOnlyOne, AccessOrFault};
ghost use Rattle.hv_window_laws.specs.Rows.{FetchIsTheOnlyOne, FetchOrFault};
ghost use Rattle.hv_window_laws.specs.Windows.{AccessesReachOneRegion, AccessesAreHeldByRange};
ghost use Rattle.hv_window_laws.specs.Windows.{WindowsMatchRegions};

/// The windows of a guest's address space are in order, and none meets another; those that lead to
/// a row are the windows of the region there; a region is live exactly where it has its own window,
/// with the same birth and range; and each window has the birth of its guest.
pub fn windows_match_regions()
    ensures { WindowsMatchRegions }
{}

/// An access reaches one region at most: that to which the window leads that holds it. Of the guest
/// that has the slot this is the window which has the access's range.
pub fn accesses_reach_one_region()
    ensures region { AccessesReachOneRegion }
    ensures range { AccessesAreHeldByRange }
{}

/// A fetch and an access are answered by one region at most, and by none where the space agrees to
/// a fault. Of the guest that has the slot, one answers exactly where a window leads there.
pub fn one_region_answers()
    ensures fetch_once { FetchIsAnsweredOnce }
    ensures access_once { AccessIsAnsweredOnce }
    ensures fetch_or_fault { NoFetchIsAnsweredAtAFault }
    ensures access_or_fault { NoAccessIsAnsweredAtAFault }
    ensures fetch { FetchIsAnsweredInAWindow }
    ensures access { AccessIsAnsweredInAWindow }
{}

/// A VCPU has one fetch, an access has one row, and where a fetch or an access may be made its
/// fault may not.
pub fn the_row_is_the_only_one()
    ensures fetch { FetchIsTheOnlyOne }
    ensures fetch_or_fault { FetchOrFault }
    ensures access { AccessIsTheOnlyOne }
    ensures access_or_fault { AccessOrFault }
{}

/// In each state that a legal history leads to whose events are in order, windows match regions.
pub fn legal_histories_match()
    ensures { LegalHistoriesMatch }
{}
