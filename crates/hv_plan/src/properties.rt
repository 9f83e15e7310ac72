//! Properties of nodes as numbers and texts.
ghost use Rattle.std.specs.Prelude.{◌≡◌, length};
ghost use Rattle.std.specs.Option.{option_copied};
ghost use Rattle.hv_dtree.specs.Nodes.{child_named, children_of};
ghost use Rattle.hv_plan.specs.Properties.{has, cell_of, number_of, number_or, text_of, says, is_within, nodes_in};

use hv_dtree::{Node, PropRefusal};

/// Whether a node has a property.
pub(crate) fn has(node: &Node, name: &[u8]) -> bool
    ensures { result ≡ has node.now name.now }
{
    node.prop(name).is_some()
}

/// The number of a property of one cell.
pub(crate) fn cell(node: &Node, name: &[u8]) -> Option<u64>
    ensures { result ≡ cell_of node.now name.now }
{
    let value = node.prop(name)?;
    if value.len() != 4 {
        return None;
    }
    node.cells(name).ok()
}

/// The number of a property of one or two cells.
pub(crate) fn number(node: &Node, name: &[u8]) -> Option<u64>
    ensures { result ≡ number_of node.now name.now }
{
    node.cells(name).ok()
}

/// The same of a property that may be left out.
pub(crate) fn number_or(default: u64, node: &Node, name: &[u8]) -> Option<u64>
    ensures { result ≡ number_or default node.now name.now }
{
    match node.cells(name) {
        Ok(number) => Some(number),
        Err(PropRefusal::NoProperty) => Some(default),
        Err(PropRefusal::BadForm) => None,
    }
}

/// Whether a number is there and lies between two others.
pub(crate) fn is_within(low: u64, high: u64, number: Option<u64>) -> bool
    ensures { result ≡ is_within low high number }
{
    match number {
        Some(number) => low <= number && number <= high,
        None => false,
    }
}

/// The text of a property.
pub(crate) fn text<'a>(node: &'a Node, name: &[u8]) -> Option<&'a [u8]>
    ensures { option_copied result ≡ text_of node.now name.now }
{
    node.text(name).ok()
}

/// Whether a property is a text and this one.
pub(crate) fn says(node: &Node, name: &[u8], wanted: &[u8]) -> bool
    ensures { result ≡ says node.now name.now wanted.now }
{
    match text(node, name) {
        Some(found) => found == wanted,
        None => false,
    }
}

/// The first child of a name.
pub(crate) fn child<'a>(node: &'a Node, name: &[u8]) -> Option<&'a Node>
    ensures { option_copied result ≡ child_named name.now (children_of node.now) }
{
    for child in node.children.as_slice() {
        if child.name.as_slice() == name {
            return Some(child);
        }
    }
    None
}

/// The children of a node's child of a name.
pub(crate) fn nodes_in<'a>(node: &'a Node, name: &[u8]) -> &'a [Node]
    ensures { result.now ≡ nodes_in node.now name.now }
{
    match child(node, name) {
        Some(child) => child.children.as_slice(),
        None => &[],
    }
}
