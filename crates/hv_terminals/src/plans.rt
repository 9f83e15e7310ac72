//! The plans of the guests of the host tree.
ghost use Rattle.std.specs.Prelude.{◌≡◌, ◌∷◌, ◌++◌, ◌≤◌, ◌+◌, ◌<◌, [], codes, find, length, nat_eq, position, slice_get, IfOk, IfSome};
ghost use Rattle.std.specs.List.{AllByRecursion, position_from, starts_with};
ghost use Rattle.std.specs.Option.{option_copied, option_map};
ghost use Rattle.std.specs.Str.{bytes_eq};
ghost use Rattle.hv_region.specs.declared.plan.RegionPlan.{RegionPlan};
ghost use Rattle.hv_model.specs.Plans.{good, is_named, plan_of, planned, refusal_for, region_of, regions_of, row_of, vcpus_of};
ghost use Rattle.hv_model.specs.Terminal.{vcpu_given};
ghost use Rattle.hv_rules.specs.Body.{index_of};
ghost use Rattle.hv_programs.specs.Line.{IsPlanned};
ghost use Rattle.hv_terminals.specs.Plans.{HasVcpu, IsSized, AreSized, refusal_in, region_given};

use hv_refusal::Refusal;
use hv_region::{Fault, GuestPlan, RegionPlan, VcpuPlan};
use hv_text::{GUEST_REGIONS, GUEST_VCPUS, Items};
use std::alloc::AllocError;
use std::marker::Model;

/// Why no guest is made of a name, before the directory is asked.
#[derive(Clone, Copy)]
pub enum Unplanned<'a> {
    /// The host tree has no guest of this name.
    NoGuest,
    /// The plan of the guest has this fault.
    Faulty(&'a Fault),
}

impl<'a> Unplanned<'a> {
    /// The refusal itself.
    pub fn refusal(self) -> Result<Refusal, AllocError>
        ensures { IfOk result (λ why. why ≡ refusal_in self.entry) }
    {
        match self {
            Unplanned::NoGuest => Ok(Refusal::NoGuest),
            Unplanned::Faulty(fault) => Ok(Refusal::BadNode(fault.path.clone()?, fault.cause)),
        }
    }
}

/// The guests of the host tree: the plan of each, or what is wrong with it.
#[derive(Drop)]
pub struct Plans {
    guests: Items<Result<GuestPlan, Fault>>,
}

impl Model for Plans {
    ghost use Rattle.std.specs.Prelude.{List};
    ghost use Rattle.hv_model.specs.Plans.{Planned};
    ghost use Rattle.hv_terminals.specs.Plans.{AreSized};

    ghost Value = { List Planned };

    ghost view = { λ p. p.guests };

    ghost invariant = { λ p. AreSized p.guests };
}

// Whether a path, with a slash behind it, begins with a name and a slash.
fn begins(path: &[u8], name: &[u8]) -> bool
    ensures { result ≡ starts_with nat_eq (path.now ++ 47 ∷ []) (name.now ++ 47 ∷ []) }
{
    match name {
        [] => match path {
            [] => true,
            [byte, ..] => *byte == b'/',
        },
        [first, others @ ..] => match path {
            [] => false,
            [byte, rest @ ..] => *byte == *first && begins(rest, others),
        },
    }
}

// The same of a name that stands behind a folder.
fn begins_in(path: &[u8], folder: &[u8], name: &[u8]) -> bool
    ensures { result ≡ starts_with nat_eq (path.now ++ 47 ∷ []) (folder.now ++ name.now ++ 47 ∷ []) }
{
    match folder {
        [] => begins(path, name),
        [first, others @ ..] => match path {
            [] => false,
            [byte, rest @ ..] => *byte == *first && begins_in(rest, others, name),
        },
    }
}

// Whether a guest of the host tree has this name.
fn is_named(guest: &Result<GuestPlan, Fault>, name: &[u8]) -> bool
    ensures { result ≡ is_named name.now guest.now }
{
    match guest {
        Ok(plan) => plan.name.as_slice() == name,
        Err(fault) => begins_in(fault.path.as_slice(), b"/guests/".as_slice(), name),
    }
}

// The first of these guests that has a name.
fn find_named<'a>(
    guests: &'a [Result<GuestPlan, Fault>],
    name: &[u8],
) -> Option<&'a Result<GuestPlan, Fault>>
    requires { AreSized guests.now }
    ensures found { option_copied result ≡ find (is_named name.now) guests.now }
    ensures sized { IfSome (option_copied result) IsSized }
{
    match guests {
        [] => None,
        [guest, others @ ..] => {
            if is_named(guest, name) {
                return Some(guest);
            }
            find_named(others, name)
        }
    }
}

// The row of the first of these regions that has a name, by row from a number on.
fn row_from(regions: &[RegionPlan], name: &[u8], row: u8) -> Option<u8>
    requires { row + length regions.now ≤ GUEST_REGIONS }
    ensures { result
        ≡ position_from (λ (region : RegionPlan). bytes_eq region.name name.now) row regions.now }
{
    match regions {
        [] => None,
        [region, others @ ..] => {
            if region.name.as_slice() == name {
                return Some(row);
            }
            row_from(others, name, row + 1)
        }
    }
}

/// The index in its guest of a VCPU with a number on the board.
pub fn index_of(vcpu: u8) -> u8
    ensures index { result ≡ index_of vcpu }
    ensures within { result < GUEST_VCPUS }
{
    vcpu.saturating_sub(1) % GUEST_VCPUS as u8
}

impl Plans {
    /// These guests.
    pub fn new(guests: Items<Result<GuestPlan, Fault>>) -> Plans
        requires { AreSized guests }
        ensures { result ≡ guests }
    {
        Plans { guests }
    }

    /// The guests themselves, once no terminal goes by them.
    pub fn into_guests(self) -> Items<Result<GuestPlan, Fault>>
        ensures { result ≡ self }
    {
        let Plans { guests } = self;
        guests
    }

    /// The guest with a name.
    pub fn planned(&self, name: &[u8]) -> Option<&Result<GuestPlan, Fault>>
        ensures planned { option_copied result ≡ planned self.now name.now }
        ensures sized { IfSome (option_copied result) IsSized }
    {
        find_named(self.guests.as_slice(), name)
    }

    /// The good plan of the guest with a name.
    pub fn plan_of(&self, name: &[u8]) -> Option<&GuestPlan>
        ensures plan { option_copied result ≡ plan_of self.now name.now }
        ensures sized { IsPlanned (option_copied result) }
        ensures vcpus { IfSome (option_copied result) HasVcpu }
    {
        match self.planned(name) {
            Some(Ok(plan)) => Some(plan),
            _ => None,
        }
    }

    /// Why no guest is made of a name, before the directory is asked.
    pub fn refusal_for(&self, name: &[u8]) -> Option<Unplanned<'_>>
        ensures { option_map refusal_in result ≡ refusal_for (planned self.now name.now) }
    {
        match self.planned(name) {
            None => Some(Unplanned::NoGuest),
            Some(Err(fault)) => Some(Unplanned::Faulty(fault)),
            Some(Ok(_)) => None,
        }
    }

    /// The regions of a guest by its plan; without a plan it has none.
    pub fn regions_of(&self, guest: &[u8]) -> &[RegionPlan]
        ensures regions { result.now ≡ regions_of self.now guest.now }
        ensures few { length result.now ≤ GUEST_REGIONS }
    {
        match self.plan_of(guest) {
            Some(plan) => plan.regions.as_slice(),
            None => &[],
        }
    }

    /// The VCPUs of a guest by its plan; without a plan it has none.
    pub fn vcpus_of(&self, guest: &[u8]) -> &[VcpuPlan]
        ensures vcpus { result.now ≡ vcpus_of self.now guest.now }
        ensures few { length result.now ≤ GUEST_VCPUS }
    {
        match self.plan_of(guest) {
            Some(plan) => plan.vcpus.as_slice(),
            None => &[],
        }
    }

    /// The row of a guest's region by its name, if its plan has it.
    pub fn row_of(&self, guest: &[u8], region: &[u8]) -> Option<u8>
        ensures { result ≡ row_of self.now guest.now region.now }
    {
        row_from(self.regions_of(guest), region, 0)
    }

    /// The plan of a guest's region, with how many VCPUs the guest has.
    pub fn region_of(&self, guest: &[u8], region: &[u8]) -> Option<(&RegionPlan, u8)>
        ensures { region_given result ≡ region_of self.now guest.now region.now }
    {
        let row = self.row_of(guest, region)?;
        let plan = self.regions_of(guest).get(row as usize)?;
        Some((plan, self.vcpus_of(guest).len() as u8))
    }

    /// The index in a guest of a VCPU with a number on the board, with its plan.
    pub fn vcpu_given(&self, guest: &[u8], vcpu: u8) -> Option<(u8, VcpuPlan)>
        ensures { result ≡ vcpu_given (vcpus_of self.now guest.now) vcpu }
    {
        let index = index_of(vcpu);
        let plan = self.vcpus_of(guest).get(index as usize)?;
        Some((index, *plan))
    }
}
