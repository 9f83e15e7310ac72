//! A region by itself.
ghost use Rattle.std.specs.Prelude.{◌≡◌, ◌<◌, ◌≤◌, not, length, IfOk, IfSome};
ghost use Rattle.std.specs.List.{list_any, position_from, slice_get};
ghost use Rattle.std.specs.Option.{option_and_then};
ghost use Rattle.hv_plan.specs.Properties.{has, first_of};
ghost use Rattle.hv_plan.specs.Regions.{sort_of, type_of, is_device, required, source_of, is_named, area_of, area_row, area_len, is_range, is_part, keeps_sort, is_region, has_no_area, region_causes, compatible_of, strings_in, form_by};

use crate::properties::{cell, has, is_within, number, number_or, says, text};
use crate::sort::Sort;
use hv_dtree::Node;
use hv_kinds::{AddressType, Cause};
use hv_region::{Form, end_of};
use hv_text::{Bytes, MOST_AREAS, MOST_MEMORY, Strings, word_at};
use std::alloc::{AllocError, Global};

/// The greatest number of a source of interrupts; the least one is 1.
pub const LAST_SOURCE: u64 = 31;

/// What sort of region a node means.
pub(crate) fn sort_of(node: &Node) -> Option<Sort>
    ensures { result ≡ sort_of node.now }
{
    if says(node, b"manifest_type", b"virtual") {
        if says(node, b"device_type", b"ram") {
            return Some(Sort::Ram);
        }
        if says(node, b"device_type", b"rom") {
            return Some(Sort::Rom);
        }
        return Some(Sort::Device);
    }
    if says(node, b"manifest_type", b"real") {
        return Some(Sort::Real);
    }
    if says(node, b"manifest_type", b"alias") {
        return Some(Sort::Alias);
    }
    None
}

/// The type of a region's addresses.
pub(crate) fn type_of(node: &Node) -> Option<AddressType>
    ensures { result ≡ type_of node.now }
{
    if says(node, b"address_type", b"memory") {
        return Some(AddressType::Memory);
    }
    if says(node, b"address_type", b"io") {
        return Some(AddressType::Io);
    }
    None
}

/// Whether a region is a device.
pub(crate) fn is_device(node: &Node) -> bool
    ensures { result ≡ is_device node.now }
{
    match sort_of(node) {
        Some(Sort::Device) => true,
        _ => false,
    }
}

/// Whether a property isn't there that a region of a sort must have.
fn lacks(node: &Node, sort: Option<Sort>) -> bool
    ensures { result ≡ list_any (λ name. not (has node.now name)) (required sort) }
{
    if !has(node, b"manifest_type")
        || !has(node, b"address_type")
        || !has(node, b"guest_physical_addr")
        || !has(node, b"physical_size")
    {
        return true;
    }
    match sort {
        Some(Sort::Device) => !has(node, b"compatible"),
        Some(Sort::Real) => !has(node, b"host_area"),
        Some(Sort::Alias) => !has(node, b"alias_physical_addr"),
        _ => false,
    }
}

/// The source of a device's interrupts.
pub(crate) fn source_of(node: &Node) -> Option<u8>
    ensures { result ≡ source_of node.now }
{
    let source = cell(node, b"interrupts")?;
    if source < 1 || source > LAST_SOURCE {
        return None;
    }
    Some(source as u8)
}

/// The place of the area that a region shows.
fn area_of(areas: &[(Bytes, u64)], node: &Node) -> Option<usize>
    ensures area { result ≡ area_of areas.now node.now }
    ensures within { IfSome result (λ area. area < length areas.now) }
{
    area_named(areas, text(node, b"host_area")?)
}

fn area_named(areas: &[(Bytes, u64)], name: &[u8]) -> Option<usize>
    ensures area { result ≡ position_from (is_named name.now) 0 areas.now }
    ensures within { IfSome result (λ area. area < length areas.now) }
{
    for place in 0..areas.len() {
        if areas[place].0.as_slice() == name {
            return Some(place);
        }
    }
    None
}

/// Whether there is at least one address, and none behind those of the type.
fn is_range(kind: Option<AddressType>, base: Option<u64>, size: Option<u64>) -> bool
    ensures { result ≡ is_range kind base size }
{
    let Some(kind) = kind else {
        return false;
    };
    let Some(base) = base else {
        return false;
    };
    let Some(size) = size else {
        return false;
    };
    let end = end_of(kind);
    1 <= size && base <= end && size <= end - base
}

/// Whether a range is a part of an area.
fn is_part(offset: Option<u64>, size: Option<u64>, area: Option<u64>) -> bool
    ensures { result ≡ is_part offset size area }
{
    let Some(offset) = offset else {
        return false;
    };
    let Some(size) = size else {
        return true;
    };
    let Some(area) = area else {
        return true;
    };
    offset <= area && size <= area - offset
}

/// How many bytes the area has that a region shows.
fn area_len(areas: &[(Bytes, u64)], node: &Node) -> Option<u64>
    ensures { result ≡ area_len areas.now node.now }
{
    let area = area_of(areas, node)?;
    Some(areas[area].1)
}

/// Whether a region keeps the rules of its sort.
fn keeps_sort(areas: &[(Bytes, u64)], node: &Node, sort: Option<Sort>) -> bool
    ensures { result ≡ keeps_sort areas.now node.now sort }
{
    match sort {
        None => true,
        Some(Sort::Ram) => is_within(1, MOST_MEMORY, number(node, b"physical_size")),
        Some(Sort::Rom) => is_within(1, MOST_MEMORY, number(node, b"physical_size")),
        Some(Sort::Device) => !has(node, b"interrupts") || source_of(node).is_some(),
        Some(Sort::Real) => is_part(
            number_or(0, node, b"area_offset"),
            number(node, b"physical_size"),
            area_len(areas, node),
        ),
        Some(Sort::Alias) => number(node, b"alias_physical_addr").is_some(),
    }
}

/// Whether a real region's area isn't there.
fn has_no_area(areas: &[(Bytes, u64)], node: &Node, sort: Option<Sort>) -> bool
    ensures { result ≡ has_no_area areas.now node.now sort }
{
    match sort {
        Some(Sort::Real) => area_of(areas, node).is_none(),
        _ => false,
    }
}

/// The first thing that is wrong with a region's node by itself.
pub(crate) fn region_cause(areas: &[(Bytes, u64)], node: &Node) -> Option<Cause>
    ensures { result ≡ first_of (region_causes areas.now node.now) }
{
    let sort = sort_of(node);
    if lacks(node, sort) {
        return Some(Cause::Missing);
    }
    let kind = type_of(node);
    if sort.is_none() || kind.is_none() {
        return Some(Cause::Kind);
    }
    let base = number(node, b"guest_physical_addr");
    let size = number(node, b"physical_size");
    if !is_range(kind, base, size) || !keeps_sort(areas, node, sort) {
        return Some(Cause::Form);
    }
    if has_no_area(areas, node, sort) {
        return Some(Cause::NoArea);
    }
    None
}

/// The strings of a value, each of which ends in a zero byte.
fn strings_in(alloc: Global, value: &[u8]) -> Result<Strings, AllocError>
    ensures { IfOk result (λ strings. strings ≡ strings_in value.now) }
{
    let mut strings = Strings::new(alloc)?;
    let mut rest = value;
    'pieces: while let Some((text, behind)) = word_at(rest, 0) {
        strings.push(Bytes::from_vec(Vec::from_slice(alloc, text)?))?;
        rest = behind;
    }
    Ok(strings)
}

/// What a region of a sort is made of.
pub(crate) fn form_of(
    alloc: Global,
    areas: &[(Bytes, u64)],
    node: &Node,
) -> Result<Form, AllocError>
    requires { length areas.now ≤ MOST_AREAS }
    ensures { IfOk result (λ form. form ≡ form_by areas.now node.now (sort_of node.now)) }
{
    match sort_of(node) {
        None => Ok(Form::Ram),
        Some(Sort::Ram) => Ok(Form::Ram),
        Some(Sort::Rom) => Ok(Form::Rom),
        Some(Sort::Device) => Ok(Form::Device(compatible_of(alloc, node)?)),
        Some(Sort::Real) => Ok(Form::Real {
            area: area_row(areas, node),
            offset: number_or(0, node, b"area_offset").unwrap_or(0),
        }),
        Some(Sort::Alias) => Ok(Form::Alias(number(node, b"alias_physical_addr").unwrap_or(0))),
    }
}

fn compatible_of(alloc: Global, node: &Node) -> Result<Strings, AllocError>
    ensures { IfOk result (λ strings. strings ≡ compatible_of node.now) }
{
    match node.prop(b"compatible") {
        Some(value) => strings_in(alloc, value),
        None => Strings::new(alloc),
    }
}

fn area_row(areas: &[(Bytes, u64)], node: &Node) -> u8
    requires { length areas.now ≤ MOST_AREAS }
    ensures { result ≡ area_row areas.now node.now }
{
    match area_of(areas, node) {
        Some(area) => area as u8,
        None => 0,
    }
}
