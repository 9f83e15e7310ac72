//! The settings of a host.
ghost use Rattle.std.specs.Prelude.{◌≡◌, [], ◌∷◌, map, codes, IfOk};
ghost use Rattle.hv_dtree.specs.Nodes.{name_of};
ghost use Rattle.hv_plan.specs.Properties.{first_of};
ghost use Rattle.hv_plan.specs.Rules.{KeepsHostRules};
ghost use Rattle.hv_plan.specs.Settings.{setting, passed, Settles};
ghost use Rattle.hv_plan.specs.Reading.{IsMachine, IsArea, ReadsAreas, TellsHost};
ghost use Rattle.hv_text.specs.Path.{path_text};

use crate::nest::nest_of;
use crate::path::{path_of_one, path_of_two};
use crate::properties::{cell, child, has, nodes_in, number};
use crate::refusal::HostRefusal;
use hv_dtree::{Node, Tree};
use hv_kinds::LimitName;
use hv_text::{Bytes, HARTS, MOST_AREAS, MOST_MEMORY};
use std::alloc::{AllocError, Global};

/// The most nodes of a host tree that lie in one another.
pub const MOST_NEST: u64 = 32;

/// The most guests of a host tree.
pub const MOST_GUESTS: usize = 32;

/// What a tree says of the host, and the names of its guests.
#[derive(Debug, Drop)]
pub struct Host {
    pub harts: u32,
    pub turns: u32,
    /// The name of each area, and how many bytes it has.
    pub areas: Vec<(Bytes, u64)>,
    pub guests: Vec<Bytes>,
}

/// A setting of one cell, or its default.
fn setting(default: u64, root: &Node, name: &[u8]) -> Option<u64>
    ensures { result ≡ setting default root.now name.now }
{
    let Some(node) = child(root, b"vmm") else {
        return Some(default);
    };
    if !has(node, name) {
        return Some(default);
    }
    cell(node, name)
}

/// The settings of harts and turns, where they keep their rules.
fn machine(root: &Node) -> Option<(u32, u32)>
    ensures { IsMachine root.now result }
{
    let Some(harts) = setting(2, root, b"harts") else {
        return None;
    };
    let Some(turns) = setting(1000, root, b"turns") else {
        return None;
    };
    if harts < 1 || harts > HARTS as u64 || turns > 100000 {
        return None;
    }
    Some((harts as u32, turns as u32))
}

/// The first limit that is passed.
fn limit_passed(nest: u64, areas: usize, guests: usize) -> Option<(LimitName, u64)>
    ensures { result ≡ first_of (passed nest areas guests) }
{
    if nest > MOST_NEST {
        return Some((LimitName::Nest, nest));
    }
    if areas > MOST_AREAS {
        return Some((LimitName::Areas, areas as u64));
    }
    if guests > MOST_GUESTS {
        return Some((LimitName::Guests, guests as u64));
    }
    None
}

/// How many bytes an area has.
fn area_size(node: &Node) -> Option<u64>
    ensures { IsArea node.now result }
{
    let size = number(node, b"size")?;
    if size < 1 || size > MOST_MEMORY {
        return None;
    }
    Some(size)
}

/// A faulty node at the top, or one below it.
fn bad_top(alloc: Global, name: &[u8]) -> HostRefusal
    ensures { TellsHost (path_text (name.now ∷ [])) result }
{
    match path_of_one(alloc, name) {
        Ok(path) => HostRefusal::BadHost(path),
        Err(refused) => HostRefusal::Memory(refused),
    }
}

fn bad_area(alloc: Global, name: &[u8]) -> HostRefusal
    ensures { TellsHost (path_text (codes "areas" ∷ name.now ∷ [])) result }
{
    match path_of_two(alloc, b"areas", name) {
        Ok(path) => HostRefusal::BadHost(path),
        Err(refused) => HostRefusal::Memory(refused),
    }
}

/// The areas, or the first faulty one.
fn read_areas(alloc: Global, nodes: &[Node]) -> Result<Vec<(Bytes, u64)>, HostRefusal>
    ensures { ReadsAreas nodes.now result }
{
    let mut areas = Vec::new(alloc);
    for row in 0..nodes.len() {
        let node = &nodes[row];
        let Some(size) = area_size(node) else {
            return Err(bad_area(alloc, node.name.as_slice()));
        };
        let name = node.name.clone()?;
        areas.push((name, size))?;
    }
    Ok(areas)
}

/// The names of nodes.
fn names_of(alloc: Global, nodes: &[Node]) -> Result<Vec<Bytes>, AllocError>
    ensures { IfOk result (λ names. names.items ≡ map name_of nodes.now) }
{
    let mut names = Vec::new(alloc);
    for row in 0..nodes.len() {
        let name = nodes[row].name.clone()?;
        names.push(name)?;
    }
    Ok(names)
}

/// The settings of a host below a root.
pub(crate) fn settings_below(alloc: Global, root: &Node) -> Result<Host, HostRefusal>
    ensures { Settles root.now result }
{
    let area_nodes = nodes_in(root, b"areas");
    let guest_nodes = nodes_in(root, b"guests");
    let nest = nest_of(alloc, root)?;
    if let Some((name, number)) = limit_passed(nest, area_nodes.len(), guest_nodes.len()) {
        return Err(HostRefusal::Limit(name, number));
    }
    let Some((harts, turns)) = machine(root) else {
        return Err(bad_top(alloc, b"vmm"));
    };
    let areas = match read_areas(alloc, area_nodes) {
        Ok(areas) => areas,
        Err(refusal) => return Err(refusal),
    };
    let guests = names_of(alloc, guest_nodes)?;
    Ok(Host {
        harts,
        turns,
        areas,
        guests,
    })
}

/// The settings of a tree's host.
pub fn host_settings(alloc: Global, tree: &Tree) -> Result<Host, HostRefusal>
    ensures host { Settles tree.now result }
    // What is given has numbers in range.
    ensures rules { IfOk result KeepsHostRules }
{
    settings_below(alloc, tree.root())
}
