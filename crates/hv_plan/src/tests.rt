//! Guests made by hand from one good guest, in which single properties are changed.

use super::*;
use crate::guest::plan_below;
use hv_dtree::{Node, Prop, Tree};
use hv_kinds::AddressType;
use hv_region::Form;
use hv_text::{Bytes, Items};
use std::alloc::{AllocError, Global};
use std::test::Fail;

/// A node's name, a property's name and its value.
type Row<'a> = (&'a [u8], &'a [u8], &'a [u8]);

/// A node's name, a property's name and its new value, or none where it goes.
type Change<'a> = (&'a [u8], &'a [u8], Option<&'a [u8]>);

fn bytes(alloc: Global, text: &[u8]) -> Result<Bytes, AllocError> {
    Ok(Bytes::from_vec(Vec::from_slice(alloc, text)?))
}

fn prop(alloc: Global, name: &[u8], value: &[u8]) -> Result<Prop, AllocError> {
    Ok(Prop {
        name: bytes(alloc, name)?,
        value: bytes(alloc, value)?,
    })
}

pub(crate) fn inner(
    alloc: Global,
    name: &[u8],
    props: Vec<Prop>,
    children: Vec<Node>,
) -> Result<Node, AllocError> {
    Ok(Node {
        name: bytes(alloc, name)?,
        props: Items::from_vec(props),
        children: Items::from_vec(children),
    })
}

fn is_changed(changes: &[Change], node: &[u8], name: &[u8]) -> bool {
    for change in changes {
        if change.0 == node && change.1 == name {
            return true;
        }
    }
    false
}

/// The properties of a node by some rows, but for the changes.
fn props_of(
    alloc: Global,
    node: &[u8],
    rows: &[Row],
    changes: &[Change],
) -> Result<Vec<Prop>, AllocError> {
    let mut props = Vec::new(alloc);
    for row in rows {
        if row.0 == node && !is_changed(changes, node, row.1) {
            props.push(prop(alloc, row.1, row.2)?)?;
        }
    }
    for change in changes {
        if change.0 == node {
            if let Some(value) = change.2 {
                props.push(prop(alloc, change.1, value)?)?;
            }
        }
    }
    Ok(props)
}

/// A node with children of these names.
pub(crate) fn nodes(
    alloc: Global,
    name: &[u8],
    names: &[&[u8]],
    rows: &[Row],
    changes: &[Change],
) -> Result<Node, AllocError> {
    let mut children = Vec::new(alloc);
    for child in names {
        let props = props_of(alloc, child, rows, changes)?;
        children.push(inner(alloc, child, props, Vec::new(alloc))?)?;
    }
    let props = props_of(alloc, name, rows, changes)?;
    inner(alloc, name, props, children)
}

const ROWS: [Row; 19] = [
    (b"v0", b"start_pc", b"\x80\0\0\0"),
    (b"ram", b"manifest_type", b"virtual\0"),
    (b"ram", b"address_type", b"memory\0"),
    (b"ram", b"guest_physical_addr", b"\x80\0\0\0"),
    (b"ram", b"physical_size", b"\0\x01\0\0"),
    (b"ram", b"device_type", b"ram\0"),
    (b"plic@c000000", b"manifest_type", b"virtual\0"),
    (b"plic@c000000", b"address_type", b"memory\0"),
    (b"plic@c000000", b"guest_physical_addr", b"\x0c\0\0\0"),
    (b"plic@c000000", b"physical_size", b"\0\x40\0\0"),
    (b"plic@c000000", b"compatible", b"riscv,plic0\0"),
    (b"plic@c000000", b"phandle", b"\0\0\0\x01"),
    (b"uart@10000000", b"manifest_type", b"virtual\0"),
    (b"uart@10000000", b"address_type", b"memory\0"),
    (b"uart@10000000", b"guest_physical_addr", b"\x10\0\0\0"),
    (b"uart@10000000", b"physical_size", b"\0\0\0\x08"),
    (b"uart@10000000", b"compatible", b"ns16550a\0ns16550\0"),
    (b"uart@10000000", b"interrupt-parent", b"\0\0\0\x01"),
    (b"uart@10000000", b"interrupts", b"\0\0\0\x0a"),
];

const REGIONS: [&[u8]; 3] = [b"ram", b"plic@c000000", b"uart@10000000"];

/// A root with the guest `g0`.
fn root_of(alloc: Global, changes: &[Change]) -> Result<Node, AllocError> {
    let vcpus = nodes(alloc, b"vcpus", &[b"v0"], &ROWS, changes)?;
    let aspace = nodes(alloc, b"aspace", &REGIONS, &ROWS, changes)?;
    let guest = inner(
        alloc,
        b"g0",
        Vec::new(alloc),
        vec![in alloc; vcpus, aspace]?,
    )?;
    let guests = inner(alloc, b"guests", Vec::new(alloc), vec![in alloc; guest]?)?;
    inner(alloc, b"", Vec::new(alloc), vec![in alloc; guests]?)
}

#[test]
fn plans_a_guest(rt: HostRuntime) -> Result<(), Fail> {
    let alloc = rt.alloc();
    let root = root_of(alloc, &[])?;
    let Ok(plan) = plan_below(alloc, &root, &[], b"g0") else {
        assert!(rt; false, "no plan");
        return Ok(());
    };
    assert!(rt; plan.vcpus.len() == 1);
    assert!(rt; plan.vcpus[0].start == 0x8000_0000);
    assert!(rt; plan.vcpus[0].priority == 3);
    assert!(rt; plan.vcpus[0].slice == 8);
    assert!(rt; plan.regions.len() == 3);
    let ram = &plan.regions[0];
    assert!(rt; ram.kind == AddressType::Memory);
    assert!(rt; ram.base == 0x8000_0000);
    assert!(rt; ram.size == 0x1_0000);
    assert!(rt; matches!(&ram.form, Form::Ram));
    assert!(rt; plan.regions[2].parent == Some((1, 10)));
    Ok(())
}

#[test]
fn finds_no_guest(rt: HostRuntime) -> Result<(), Fail> {
    let alloc = rt.alloc();
    let bare = Node {
        name: Bytes::from_vec(Vec::new(alloc)),
        props: Items::new(alloc),
        children: Items::new(alloc),
    };
    let tree = Tree::of_root(bare);
    match plan_guest(alloc, &tree, &[], b"g0") {
        Err(PlanRefusal::NoGuest) => {}
        _ => assert!(rt; false, "a guest"),
    }
    match host_settings(alloc, &tree) {
        Ok(host) => {
            assert!(rt; host.harts == 2 && host.turns == 1000);
            assert!(rt; host.areas.is_empty() && host.guests.is_empty());
        }
        Err(_) => assert!(rt; false, "no host"),
    }
    Ok(())
}

/// Whether the first fault of `g0` has this path and this cause.
fn is_fault(alloc: Global, change: Change, path: &[u8], cause: Cause) -> Result<bool, Fail> {
    let root = root_of(alloc, &[change])?;
    match plan_below(alloc, &root, &[], b"g0") {
        Err(PlanRefusal::BadNode(found, why)) => Ok(found.as_slice() == path && why == cause),
        _ => Ok(false),
    }
}

#[test]
fn tells_the_first_fault(rt: HostRuntime) -> Result<(), Fail> {
    let alloc = rt.alloc();
    let rows: [(Change, &[u8], Cause); 3] = [
        (
            (b"v0", b"time_slice", Some(b"\0\0\x03\xe9")),
            b"/guests/g0/vcpus/v0",
            Cause::Form,
        ),
        (
            (
                b"plic@c000000",
                b"guest_physical_addr",
                Some(b"\x0f\xff\xff\xff"),
            ),
            b"/guests/g0/aspace/uart@10000000",
            Cause::Overlap,
        ),
        (
            (b"uart@10000000", b"interrupt-parent", Some(b"\0\0\0\x02")),
            b"/guests/g0/aspace/uart@10000000",
            Cause::Parent,
        ),
    ];
    for (change, path, cause) in rows {
        assert!(rt;
            is_fault(alloc, change, path, cause)?,
            "{}",
            path.escape_ascii()
        );
    }
    Ok(())
}
