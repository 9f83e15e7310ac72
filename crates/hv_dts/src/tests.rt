//! Printed sources worked out by hand.
use super::*;
use hv_dtree::{Node, Tree};
use hv_text::{Bytes, Items};
use std::test::Fail;

#[test]
fn prints_the_least_tree(rt: HostRuntime) -> Result<(), Fail> {
    let alloc = rt.alloc();
    let root = Node {
        name: Bytes::from_vec(Vec::new(alloc)),
        props: Items::new(alloc),
        children: Items::new(alloc),
    };
    let tree = Tree::of_root(root);
    let text = print_dts(alloc, &tree)?;
    assert!(rt; text.as_slice() == b"/dts-v1/;\n\n/ {\n};\n".as_slice());
    Ok(())
}
