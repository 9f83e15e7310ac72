//! The plan of a guest.
ghost use Rattle.std.specs.Prelude.{◌≡◌, ◌≤◌, [], Some, length, map, IfOk};
ghost use Rattle.std.specs.Option.{option_copied};
ghost use Rattle.hv_dtree.specs.Nodes.{name_of};
ghost use Rattle.hv_plan.specs.Properties.{first_of};
ghost use Rattle.hv_plan.specs.Vcpus.{vcpu_causes, vcpu_plan};
ghost use Rattle.hv_plan.specs.Regions.{region_causes};
ghost use Rattle.hv_plan.specs.Links.{link_causes, links_of, region_plans};
ghost use Rattle.hv_plan.specs.Windows.{overlap_causes, alias_causes};
ghost use Rattle.hv_plan.specs.Rules.{KeepsRules};
ghost use Rattle.hv_plan.specs.Guests.{Plans, guest_node, faults_from, causes_of_count, in_vcpus, in_regions};
ghost use Rattle.hv_plan.specs.Reading.{Reads, Passes};

use crate::link::{clock_row, link_cause, links_of, region_plan};
use crate::path::{guest_fault, inner_fault};
use crate::properties::{child, nodes_in};
use crate::refusal::PlanRefusal;
use crate::region::region_cause;
use crate::vcpu::read_vcpu;
use crate::windows::{alias_cause, overlap_cause};
use hv_dtree::{Node, Tree};
use hv_kinds::Cause;
use hv_region::{GuestPlan, RegionPlan, VcpuPlan};
use hv_text::{Bytes, GUEST_REGIONS, GUEST_VCPUS, MOST_AREAS};
use std::alloc::Global;

/// What is wrong with the numbers of VCPUs and regions.
fn count_cause(vcpus: &[Node], regions: &[Node]) -> Option<Cause>
    ensures { result ≡ first_of (causes_of_count vcpus.now regions.now) }
{
    if vcpus.len() < 1 || regions.len() < 1 {
        return Some(Cause::Missing);
    }
    if GUEST_VCPUS < vcpus.len() || GUEST_REGIONS < regions.len() {
        return Some(Cause::TooMany);
    }
    None
}

/// The plans of a guest's VCPUs.
fn read_vcpus(alloc: Global, guest: &[u8], nodes: &[Node]) -> Result<Vec<VcpuPlan>, PlanRefusal>
    ensures { Reads (faults_from (in_vcpus guest.now) name_of (λ row node. vcpu_causes node) 0 nodes.now)
        (map vcpu_plan nodes.now) result }
{
    let mut plans = Vec::new(alloc);
    for row in 0..nodes.len() {
        let node = &nodes[row];
        match read_vcpu(node) {
            Ok(plan) => plans.push(plan)?,
            Err(cause) => {
                return Err(inner_fault(alloc, guest, b"vcpus", node.name.as_slice(), cause));
            }
        }
    }
    Ok(plans)
}

/// The plans of a guest's regions, of which nothing is wrong by themselves.
fn read_regions(
    alloc: Global,
    areas: &[(Bytes, u64)],
    guest: &[u8],
    aspace: &Node,
    nodes: &[Node],
    links: &[Option<(u8, u8)>],
) -> Result<Vec<RegionPlan>, PlanRefusal>
    requires areas { length areas.now ≤ MOST_AREAS }
    requires links { links.now ≡ links_of (Some aspace.now) nodes.now }
    ensures { Reads (faults_from (in_regions guest.now) name_of (λ row node. region_causes areas.now node) 0 nodes.now)
        (region_plans areas.now (Some aspace.now) nodes.now) result }
{
    let clock = clock_row(nodes);
    let mut plans = Vec::new(alloc);
    for row in 0..nodes.len() {
        let node = &nodes[row];
        if let Some(cause) = region_cause(areas, node) {
            return Err(inner_fault(alloc, guest, b"aspace", node.name.as_slice(), cause));
        }
        let link = links[row];
        let plan = region_plan(alloc, areas, aspace, nodes, clock, row, node, link)?;
        plans.push(plan)?;
    }
    Ok(plans)
}

/// Tells the first fault of the regions' interrupts.
fn check_links(
    alloc: Global,
    guest: &[u8],
    aspace: &Node,
    nodes: &[Node],
    links: &[Option<(u8, u8)>],
) -> Result<(), PlanRefusal>
    requires { links.now ≡ links_of (Some aspace.now) nodes.now }
    ensures { Passes (faults_from (in_regions guest.now) name_of (link_causes (Some aspace.now) nodes.now) 0 nodes.now) result }
{
    for row in 0..nodes.len() {
        let node = &nodes[row];
        if let Some(cause) = link_cause(links, row, node, links[row]) {
            return Err(inner_fault(alloc, guest, b"aspace", node.name.as_slice(), cause));
        }
    }
    Ok(())
}

/// Tells the first region that has an address of an earlier one.
fn check_windows(alloc: Global, guest: &[u8], plans: &[RegionPlan]) -> Result<(), PlanRefusal>
    ensures { Passes (faults_from (in_regions guest.now) (λ plan. plan.name) (overlap_causes plans.now) 0 plans.now) result }
{
    for row in 0..plans.len() {
        let plan = &plans[row];
        if let Some(cause) = overlap_cause(plans, row, plan) {
            return Err(inner_fault(alloc, guest, b"aspace", plan.name.as_slice(), cause));
        }
    }
    Ok(())
}

/// Tells the first alias without a target.
fn check_aliases(alloc: Global, guest: &[u8], plans: &[RegionPlan]) -> Result<(), PlanRefusal>
    ensures { Passes (faults_from (in_regions guest.now) (λ plan. plan.name) (alias_causes plans.now) 0 plans.now) result }
{
    for row in 0..plans.len() {
        let plan = &plans[row];
        if let Some(cause) = alias_cause(plans, plan) {
            return Err(inner_fault(alloc, guest, b"aspace", plan.name.as_slice(), cause));
        }
    }
    Ok(())
}

/// The plan of a guest's node.
fn plan_of(alloc: Global, areas: &[(Bytes, u64)], guest: &Node) -> Result<GuestPlan, PlanRefusal>
    requires { length areas.now ≤ MOST_AREAS }
    ensures { Plans areas.now (Some guest.now) result }
{
    let name = guest.name.as_slice();
    let vcpus = nodes_in(guest, b"vcpus");
    let regions = nodes_in(guest, b"aspace");
    if let Some(cause) = count_cause(vcpus, regions) {
        return Err(guest_fault(alloc, name, cause));
    }
    let Some(aspace) = child(guest, b"aspace") else {
        return Err(guest_fault(alloc, name, Cause::Missing));
    };
    let links = links_of(alloc, aspace, regions)?;
    let vcpu_plans = match read_vcpus(alloc, name, vcpus) {
        Ok(plans) => plans,
        Err(refusal) => return Err(refusal),
    };
    let plans = match read_regions(alloc, areas, name, aspace, regions, links.as_slice()) {
        Ok(plans) => plans,
        Err(refusal) => return Err(refusal),
    };
    if let Err(refusal) = check_links(alloc, name, aspace, regions, links.as_slice()) {
        return Err(refusal);
    }
    if let Err(refusal) = check_windows(alloc, name, plans.as_slice()) {
        return Err(refusal);
    }
    if let Err(refusal) = check_aliases(alloc, name, plans.as_slice()) {
        return Err(refusal);
    }
    Ok(GuestPlan {
        name: guest.name.clone()?,
        vcpus: vcpu_plans,
        regions: plans,
    })
}

/// The plan of a guest below a root.
pub(crate) fn plan_below(
    alloc: Global,
    root: &Node,
    areas: &[(Bytes, u64)],
    name: &[u8],
) -> Result<GuestPlan, PlanRefusal>
    requires { length areas.now ≤ MOST_AREAS }
    ensures { Plans areas.now (guest_node root.now name.now) result }
{
    let Some(guests) = child(root, b"guests") else {
        return Err(PlanRefusal::NoGuest);
    };
    let Some(guest) = child(guests, name) else {
        return Err(PlanRefusal::NoGuest);
    };
    plan_of(alloc, areas, guest)
}

/// The plan of the guest of a name, whose regions may show these areas.
pub fn plan_guest(
    alloc: Global,
    tree: &Tree,
    areas: &[(Bytes, u64)],
    name: &[u8],
) -> Result<GuestPlan, PlanRefusal>
    requires { length areas.now ≤ MOST_AREAS }
    ensures plan { Plans areas.now (guest_node tree.now name.now) result }
    // What is given has numbers in range, lies within the areas, and its windows have no address in common.
    ensures rules { IfOk result (KeepsRules areas.now) }
{
    plan_below(alloc, tree.root(), areas, name)
}
