//! Which region takes the interrupts of another, the clock, and the plans of regions.
ghost use Rattle.std.specs.Prelude.{◌≡◌, ◌<◌, ◌≤◌, Some, length, IfOk, IfSome};
ghost use Rattle.std.specs.List.{position_from, list_any};
ghost use Rattle.hv_plan.specs.Properties.{first_of};
ghost use Rattle.hv_plan.specs.Links.{interrupts, parent_phandle, has_phandle, link_of, links_of, leads_from, is_same_link, causes_of_link, clock_row, is_clock, is_row, region_plan};

use crate::properties::{cell, has, number};
use crate::region::{form_of, is_device, source_of, type_of};
use hv_dtree::Node;
use hv_kinds::{AddressType, Cause};
use hv_region::RegionPlan;
use hv_text::{Bytes, GUEST_REGIONS, MOST_AREAS};
use std::alloc::{AllocError, Global};

/// Whether a region is a device with interrupts.
pub(crate) fn interrupts(node: &Node) -> bool
    ensures { result ≡ interrupts node.now }
{
    is_device(node) && has(node, b"interrupts")
}

/// The phandle of a region's parent.
fn parent_phandle(aspace: &Node, node: &Node) -> Option<u64>
    ensures { result ≡ parent_phandle (Some aspace.now) node.now }
{
    if has(node, b"interrupt-parent") {
        return cell(node, b"interrupt-parent");
    }
    cell(aspace, b"interrupt-parent")
}

fn has_phandle(phandle: u64, region: &Node) -> bool
    ensures { result ≡ has_phandle phandle region.now }
{
    match cell(region, b"phandle") {
        Some(own) => own == phandle,
        None => false,
    }
}

/// The row of the region that has a phandle.
fn row_of(phandle: u64, regions: &[Node]) -> Option<usize>
    ensures row { result ≡ position_from (has_phandle phandle) 0 regions.now }
    ensures within { IfSome result (λ row. row < length regions.now) }
{
    for row in 0..regions.len() {
        if has_phandle(phandle, &regions[row]) {
            return Some(row);
        }
    }
    None
}

/// The row of the region that takes a device's interrupts, and the source there.
fn link_of(aspace: &Node, regions: &[Node], node: &Node) -> Option<(u8, u8)>
    requires { length regions.now ≤ GUEST_REGIONS }
    ensures { result ≡ link_of (Some aspace.now) regions.now node.now }
{
    if !interrupts(node) {
        return None;
    }
    let row = row_of(parent_phandle(aspace, node)?, regions)?;
    let source = source_of(node)?;
    Some((row as u8, source))
}

/// The links of all regions.
pub(crate) fn links_of(
    alloc: Global,
    aspace: &Node,
    regions: &[Node],
) -> Result<Vec<Option<(u8, u8)>>, AllocError>
    requires { length regions.now ≤ GUEST_REGIONS }
    ensures { IfOk result (λ links. links.items ≡ links_of (Some aspace.now) regions.now) }
{
    let mut links = Vec::new(alloc);
    for node in regions {
        links.push(link_of(aspace, regions, node))?;
    }
    Ok(links)
}

/// Whether a link leads to another region.
fn leads_from(row: usize, link: Option<(u8, u8)>) -> bool
    ensures { result ≡ leads_from row link }
{
    match link {
        Some(link) => link.0 as usize != row,
        None => false,
    }
}

fn is_same_link(one: Option<(u8, u8)>, other: Option<(u8, u8)>) -> bool
    ensures { result ≡ is_same_link one other }
{
    let Some(one) = one else {
        return false;
    };
    let Some(other) = other else {
        return false;
    };
    one.0 == other.0 && one.1 == other.1
}

/// Whether an earlier region has the source of a link.
fn is_used(earlier: &[Option<(u8, u8)>], link: Option<(u8, u8)>) -> bool
    ensures { result ≡ list_any (is_same_link link) earlier.now }
{
    for one in earlier {
        if is_same_link(link, *one) {
            return true;
        }
    }
    false
}

/// What is wrong with the interrupts of the region in a row.
pub(crate) fn link_cause(
    links: &[Option<(u8, u8)>],
    row: usize,
    node: &Node,
    link: Option<(u8, u8)>,
) -> Option<Cause>
    requires { row ≤ length links.now }
    ensures { result ≡ first_of (causes_of_link links.now row node.now link) }
{
    if interrupts(node) && !leads_from(row, link) {
        return Some(Cause::Parent);
    }
    if is_used(&links[..row], link) {
        return Some(Cause::SourceUsed);
    }
    None
}

/// The row of the guest's clock.
pub(crate) fn clock_row(regions: &[Node]) -> Option<usize>
    ensures { result ≡ clock_row regions.now }
{
    for row in 0..regions.len() {
        if is_clock(&regions[row]) {
            return Some(row);
        }
    }
    None
}

fn is_clock(node: &Node) -> bool
    ensures { result ≡ is_clock node.now }
{
    is_device(node) && has(node, b"clock")
}

/// The plan of the region in a row.
pub(crate) fn region_plan(
    alloc: Global,
    areas: &[(Bytes, u64)],
    aspace: &Node,
    regions: &[Node],
    clock: Option<usize>,
    row: usize,
    node: &Node,
    link: Option<(u8, u8)>,
) -> Result<RegionPlan, AllocError>
    requires areas { length areas.now ≤ MOST_AREAS }
    requires clock { clock ≡ clock_row regions.now }
    requires link { link ≡ link_of (Some aspace.now) regions.now node.now }
    ensures { IfOk result (λ plan. plan ≡ region_plan areas.now (Some aspace.now) regions.now row node.now) }
{
    Ok(RegionPlan {
        name: node.name.clone()?,
        kind: type_of(node).unwrap_or(AddressType::Memory),
        base: number(node, b"guest_physical_addr").unwrap_or(0),
        size: number(node, b"physical_size").unwrap_or(0),
        form: form_of(alloc, areas, node)?,
        detached: has(node, b"detached"),
        clock: is_row(clock, row),
        parent: link,
    })
}

fn is_row(clock: Option<usize>, row: usize) -> bool
    ensures { result ≡ is_row clock row }
{
    match clock {
        Some(clock) => clock == row,
        None => false,
    }
}
