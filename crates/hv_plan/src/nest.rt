//! How many nodes of a tree lie in one another.
ghost use Rattle.std.specs.Prelude.{◌≡◌, ◌+◌, ◌++◌, map, IfOk, OnOk};
ghost use Rattle.hv_dtree.specs.Nodes.{children_of};
ghost use Rattle.hv_plan.specs.Settings.{nest_of};
ghost use Rattle.hv_plan.specs.Reading.{nodes_at, all_children};

use hv_dtree::Node;
use std::alloc::{AllocError, Global};

/// Adds the children of a node to a level.
fn push_children<'a>(level: &mut Vec<&'a Node>, node: &'a Node) -> Result<(), AllocError>
    ensures { OnOk result (nodes_at level.new.items ≡ nodes_at level.old.items ++ children_of node.now) }
{
    for child in node.children.as_slice() {
        level.push(child)?;
    }
    Ok(())
}

/// The children of all nodes of a level.
fn level_below<'a>(alloc: Global, level: &[&'a Node]) -> Result<Vec<&'a Node>, AllocError>
    ensures { IfOk result (λ below. nodes_at below.items ≡ all_children (nodes_at level.now)) }
{
    let mut below = Vec::new(alloc);
    for node in level {
        push_children(&mut below, node)?;
    }
    Ok(below)
}

/// How many levels a tree has. The levels lie in memory one at a time, so that no stack is taken by the depth.
pub(crate) fn nest_of(alloc: Global, root: &Node) -> Result<u64, AllocError>
    ensures { IfOk result (λ nest. nest ≡ nest_of root.now) }
{
    let mut level = Vec::new(alloc);
    level.push(root)?;
    let mut nest = 0u64;
    'levels: while !level.is_empty() {
        let Some(more) = nest.checked_add(1) else {
            return Err(AllocError);
        };
        nest = more;
        level = level_below(alloc, level.as_slice())?;
    }
    Ok(nest)
}
