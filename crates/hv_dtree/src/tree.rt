//! A tree whose names and phandles keep the rules.
ghost use Rattle.std.specs.Prelude.{◌≡◌, map};
ghost use Rattle.std.specs.Option.{option_copied};
ghost use Rattle.hv_dtree.specs.Nodes.{IsRoot, children_of, child_named, node_at};

use crate::node::Node;
use hv_text::Bytes;
use std::marker::Model;

/// A tree that contracts see as its root.
#[derive(Drop)]
pub struct Tree {
    root: Node,
}

impl Model for Tree {
    ghost use Rattle.hv_dtree.specs.declared.node.Node.{Node};
    ghost use Rattle.hv_dtree.specs.Nodes.{IsRoot};
    ghost use Rattle.hv_dtree.specs.contracts.node.Node as node;
    ghost use Rattle.std.specs.Coded.{codes};

    ghost Value = { Node };

    ghost coded = { Prim.hlevel (codes, node.the_row.coded) };

    ghost view = { λ tree. tree.root };

    ghost invariant = { λ tree. IsRoot tree.root };
}

impl Tree {
    /// The tree of a root that keeps the rules.
    pub fn of_root(root: Node) -> Tree
        requires { IsRoot root }
        ensures { result ≡ root }
    {
        Tree { root }
    }

    pub fn root(&self) -> &Node
        ensures root { result.now ≡ self.now }
        ensures rules { IsRoot self.now }
    {
        &self.root
    }

    /// The node that names lead to from the root.
    pub fn find(&self, names: &[Bytes]) -> Option<&Node>
        ensures { option_copied result ≡ node_at names.now self.now }
    {
        let mut node = &self.root;
        for name in names {
            node = child_named(node.children.as_slice(), name.as_slice())?;
        }
        Some(node)
    }
}

/// The first of these nodes that has a name.
fn child_named<'a>(children: &'a [Node], name: &[u8]) -> Option<&'a Node>
    ensures { option_copied result ≡ child_named name.now children.now }
{
    for child in children {
        if child.name.as_slice() == name {
            return Some(child);
        }
    }
    None
}
