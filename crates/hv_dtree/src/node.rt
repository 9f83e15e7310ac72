//! Nodes and their properties.
ghost use Rattle.std.specs.Prelude.{◌≡◌};
ghost use Rattle.hv_dtree.specs.Nodes.{name_of, props_of, children_of};

use hv_text::{Bytes, Items};

/// A named value.
#[derive(Debug, Drop)]
pub struct Prop {
    pub name: Bytes,
    pub value: Bytes,
}

/// A node with what stands in it. It has no `Debug`, which would take stack by the depth of the tree.
pub struct Node {
    pub name: Bytes,
    pub props: Items<Prop>,
    pub children: Items<Node>,
}

/// Why a property gave no value.
#[derive(Clone, Copy, Debug, PartialEq, Eq)]
pub enum PropRefusal {
    NoProperty,
    /// The value isn't of the form that was asked for.
    BadForm,
}

impl Node {
    /// The name, the properties and the children.
    pub fn into_parts(self) -> (Bytes, Items<Prop>, Items<Node>)
        ensures name { result.0 ≡ name_of self }
        ensures props { result.1 ≡ props_of self }
        ensures children { result.2 ≡ children_of self }
    {
        let Node {
            name,
            props,
            children,
        } = self;
        (name, props, children)
    }
}

// A tree is let go without recursion and without memory: one node is in hand, and the nodes still to be let go lie in
// one list. Where the node in hand has children, that list goes below it, and it takes the place of its first child.
impl Drop for Node {
    fn drop(self) {
        let Node {
            name: _,
            props: _,
            children,
        } = self;
        let mut todo = children;
        let Some(first) = todo.pop() else {
            return;
        };
        let mut hand = first;
        'letting_go: loop {
            let (name, props, mut inner) = hand.into_parts();
            if inner.is_empty() {
                let Some(next) = todo.pop() else {
                    return;
                };
                hand = next;
            } else if todo.is_empty() {
                todo = inner;
                let Some(next) = todo.pop() else {
                    return;
                };
                hand = next;
            } else {
                hand = inner.swap_first(Node {
                    name,
                    props,
                    children: todo,
                });
                todo = inner;
            }
        }
    }
}
