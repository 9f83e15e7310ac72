//! Values of properties worked out by hand, and a deep tree let go.
use super::*;
use hv_text::{Bytes, Items};
use std::alloc::{AllocError, Global};
use std::test::Fail;

fn bytes(alloc: Global, text: &[u8]) -> Result<Bytes, AllocError> {
    Ok(Bytes::from_vec(Vec::from_slice(alloc, text)?))
}

fn node(alloc: Global, props: Vec<Prop>) -> Result<Node, AllocError> {
    Ok(Node {
        name: bytes(alloc, b"n")?,
        props: Items::from_vec(props),
        children: Items::new(alloc),
    })
}

fn prop(alloc: Global, name: &[u8], value: &[u8]) -> Result<Prop, AllocError> {
    Ok(Prop {
        name: bytes(alloc, name)?,
        value: bytes(alloc, value)?,
    })
}

#[test]
fn reads_the_values(rt: HostRuntime) -> Result<(), Fail> {
    let alloc = rt.alloc();
    let rows: [(
        &[u8],
        Result<u64, PropRefusal>,
        Option<&[u8]>,
        usize,
        Option<&[u8]>,
    ); 12] = [
        (b"", Err(PropRefusal::BadForm), None, 0, None),
        (b"\0", Err(PropRefusal::BadForm), Some(b""), 0, Some(b"")),
        (b"a\0", Err(PropRefusal::BadForm), Some(b"a"), 1, None),
        (b"a\0b\0", Ok(0x61006200), None, 0, Some(b"a")),
        (b"a\0b\0", Ok(0x61006200), None, 1, Some(b"b")),
        (b"a\0b", Err(PropRefusal::BadForm), None, 1, None),
        (b"\0\0\0\x2a", Ok(42), None, 2, Some(b"")),
        (b"\0\0\0\x2a", Ok(42), None, 3, None),
        (b"\0\0\0\x01\0\0\0\x02", Ok(0x100000002), None, 1, Some(b"")),
        (
            b"\xff\xff\xff\xff\xff\xff\xff\xff",
            Ok(u64::MAX),
            None,
            0,
            None,
        ),
        (
            b"okay\0",
            Err(PropRefusal::BadForm),
            Some(b"okay"),
            0,
            Some(b"okay"),
        ),
        (b"abc\0", Ok(0x61626300), Some(b"abc"), 0, Some(b"abc")),
    ];
    for (value, cells, text, place, string) in rows {
        let it = node(alloc, vec![in alloc; prop(alloc, b"v", value)?]?)?;
        assert!(rt;
            it.prop(b"v") == Some(value),
            "prop {}",
            value.escape_ascii()
        );
        assert!(rt; it.cells(b"v") == cells, "cells {}", value.escape_ascii());
        assert!(rt; it.text(b"v").ok() == text, "text {}", value.escape_ascii());
        assert!(rt;
            it.string_at(b"v", place) == string,
            "string {}",
            value.escape_ascii()
        );
        assert!(rt; it.prop(b"w") == None);
        assert!(rt; it.cells(b"w") == Err(PropRefusal::NoProperty));
        assert!(rt; it.text(b"w") == Err(PropRefusal::NoProperty));
        assert!(rt; it.string_at(b"w", 0) == None);
    }
    Ok(())
}

#[test]
fn lets_a_deep_tree_go(rt: HostRuntime) -> Result<(), Fail> {
    let alloc = rt.alloc();
    let mut hand = node(alloc, Vec::new(alloc))?;
    for _ in 0..300000 {
        let side = node(alloc, Vec::new(alloc))?;
        let children = vec![in alloc; hand, side]?;
        hand = Node {
            name: bytes(alloc, b"m")?,
            props: Items::new(alloc),
            children: Items::from_vec(children),
        };
    }
    let (_, _, children) = hand.into_parts();
    assert!(rt; children.as_slice().len() == 2);
    Ok(())
}

#[test]
fn finds_the_root(rt: HostRuntime) -> Result<(), Fail> {
    let alloc = rt.alloc();
    let root = Node {
        name: Bytes::from_vec(Vec::new(alloc)),
        props: Items::new(alloc),
        children: Items::new(alloc),
    };
    let tree = Tree::of_root(root);
    assert!(rt; tree.root().name.as_slice().is_empty());
    assert!(rt; tree.find(&[]).is_some());
    assert!(rt; tree.find(&[bytes(alloc, b"a")?]).is_none());
    Ok(())
}

#[test]
fn adds_items_at_the_end(rt: HostRuntime) -> Result<(), Fail> {
    let mut items = Items::new(rt.alloc());
    items.push(3)?;
    items.push(5)?;
    assert!(rt; items.as_slice() == [3, 5].as_slice());
    items.reverse();
    items.trim();
    assert!(rt; items.as_slice() == [5, 3].as_slice());
    assert!(rt; items.pop() == Some(3));
    Ok(())
}
