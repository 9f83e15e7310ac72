//! How long printed source is, so that no more memory is taken than it needs.
use hv_dtree::{Node, Prop};
use std::alloc::{AllocError, Global};

// The tabs, the name, and either `;` or the bytes as pairs of digits in brackets.
fn prop_len(depth: usize, prop: &Prop) -> usize {
    let shown = match prop.value.len() {
        0 => 2,
        count => count.saturating_mul(3).saturating_add(6),
    };
    prop.name.len().saturating_add(shown).saturating_add(depth)
}

// The first line of a node and its last, and its properties.
fn node_len(depth: usize, node: &Node) -> usize {
    let mut len = node.name.len().max(1).saturating_add(6);
    for prop in node.props.as_slice() {
        len = len.saturating_add(prop_len(depth.saturating_add(1), prop));
    }
    len.saturating_add(depth.saturating_mul(2))
}

/// How long the text of a tree is. It takes no stack by the depth.
pub fn text_len(alloc: Global, root: &Node) -> Result<usize, AllocError> {
    let mut len = node_len(0, root).saturating_add(11);
    let mut stack: Vec<&[Node]> = Vec::new(alloc);
    stack.push(root.children.as_slice())?;
    'measuring: while let Some(nodes) = stack.pop() {
        if let Some((node, rest)) = nodes.split_first() {
            stack.push(rest)?;
            len = len.saturating_add(node_len(stack.len(), node));
            stack.push(node.children.as_slice())?;
        }
    }
    Ok(len)
}
