//! Printed sources worked out by hand.
use super::*;
use hv_dtree::{Node, Prop};
use hv_text::{Bytes, Items};
use std::alloc::{AllocError, Global};
use std::test::Fail;

fn bytes(alloc: Global, text: &[u8]) -> Result<Bytes, AllocError> {
    Ok(Bytes::from_vec(Vec::from_slice(alloc, text)?))
}

fn node(alloc: Global, name: &[u8], value: &[u8], children: Vec<Node>) -> Result<Node, AllocError> {
    let prop = Prop {
        name: bytes(alloc, b"v")?,
        value: bytes(alloc, value)?,
    };
    let props = Items::from_vec(vec![in alloc; prop]?);
    Ok(Node {
        name: bytes(alloc, name)?,
        props,
        children: Items::from_vec(children),
    })
}

#[test]
fn prints_lines(rt: HostRuntime) -> Result<(), Fail> {
    let alloc = rt.alloc();
    let inner = node(alloc, b"c@1", b"\x09\xaf\x10", Vec::new(alloc))?;
    let one = node(alloc, b"a", b"", vec![in alloc; inner]?)?;
    let other = node(alloc, b"b", b"\0", Vec::new(alloc))?;
    let root = node(alloc, b"", b"ok\0", vec![in alloc; one, other]?)?;
    let text = print_root(alloc, &root)?;
    let want =
        b"/dts-v1/;\n\n/ {\n\tv = [6f 6b 00];\n\ta {\n\t\tv;\n\t\tc@1 {\n\t\t\tv = [09 af 10];\n\t\t};\n\t};\n\tb {\n\t\tv = [00];\n\t};\n};\n";
    assert!(rt; text.as_slice() == want.as_slice());
    Ok(())
}
