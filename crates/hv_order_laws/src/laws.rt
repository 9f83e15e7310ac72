//! Laws of legal histories, each the contract of a function that does nothing.
ghost use Rattle.hv_order_laws.specs.Orders.{LegalHistoriesAreInOrder, LinesOwnTheirGuests};
ghost use Rattle.hv_order_laws.specs.Orders.{RunsAreInOrder};

/// Each event of a run is in order, where the plans of the opening are good: it adds a region that
/// can be, or a VCPU to the guest that has its slot, and it lets a slot go only once the guest there
/// has no window and no VCPU. So is each event of a run behind it that all actors begin.
pub fn runs_are_in_order()
    ensures { RunsAreInOrder }
{}

/// So is each event of a legal history.
pub fn legal_histories_are_in_order()
    ensures { LegalHistoriesAreInOrder }
{}

/// In each state that such a history leads to, a line that makes a guest or ends it owns it: the
/// directory has the guest with the line's name, slot and birth at that stage, its windows and its
/// VCPUs are those that the line has added, or has still to drop, and no other line owns a guest of
/// that name.
pub fn lines_own_their_guests()
    ensures { LinesOwnTheirGuests }
{}
