//! A tree printed as source.
ghost use Rattle.std.specs.Prelude.{◌≡◌, All, IfOk, OnOk};
ghost use Rattle.hv_dtree.specs.Nodes.{nodes_of};
ghost use Rattle.hv_dtprint.specs.Printed.{tree_text};
ghost use Rattle.hv_dtprint.specs.Values.{HasBytes};

use crate::print_len::text_len;
use crate::print_line::{push_foot, push_head};
use hv_dtree::Node;
use hv_text::Bytes;
use std::alloc::{AllocError, Global};

/// The text of the tree of a root. It takes no stack by the depth.
pub fn print_root(alloc: Global, root: &Node) -> Result<Bytes, AllocError>
    ensures text { IfOk result (λ text. text ≡ tree_text root.now) }

    // The values of the tree were bytes.
    ensures bytes { OnOk result (All HasBytes (nodes_of root.now)) }
{
    let mut out = Vec::with_capacity(alloc, text_len(alloc, root)?)?;
    out.extend_from_slice(b"/dts-v1/;\n\n")?;
    push_head(&mut out, 0, root)?;
    // What is still to be printed of each open node's children, the innermost last.
    let mut stack: Vec<&[Node]> = Vec::new(alloc);
    stack.push(root.children.as_slice())?;
    'printing: while let Some(nodes) = stack.pop() {
        match nodes.split_first() {
            Some((node, rest)) => {
                stack.push(rest)?;
                push_head(&mut out, stack.len(), node)?;
                stack.push(node.children.as_slice())?;
            }
            None => push_foot(&mut out, stack.len())?,
        }
    }
    Ok(Bytes::from_vec(out))
}
