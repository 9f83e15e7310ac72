//! Settings of hosts made by hand.

use super::*;
use crate::host::settings_below;
use crate::tests::{inner, nodes};
use hv_dtree::Node;
use hv_kinds::LimitName;
use std::alloc::{AllocError, Global};
use std::test::Fail;

/// A node's name, a property's name and its new value, or none where it goes.
type Change<'a> = (&'a [u8], &'a [u8], Option<&'a [u8]>);

const GOOD: [&[u8]; 2] = [b"pool", b"sea"];

/// A root whose areas have sizes.
fn root_of(
    alloc: Global,
    areas: &[&[u8]],
    guests: &[&[u8]],
    changes: &[Change],
) -> Result<Node, AllocError> {
    let rows: [(&[u8], &[u8], &[u8]); 2] = [
        (b"pool", b"size", b"\0\0\x10\0"),
        (b"sea", b"size", b"\x01\0\0\0"),
    ];
    let vmm = nodes(alloc, b"vmm", &[], &rows, changes)?;
    let areas = nodes(alloc, b"areas", areas, &rows, changes)?;
    let guests = nodes(alloc, b"guests", guests, &rows, changes)?;
    inner(
        alloc,
        b"",
        Vec::new(alloc),
        vec![in alloc; vmm, areas, guests]?,
    )
}

#[test]
fn reads_the_settings(rt: HostRuntime) -> Result<(), Fail> {
    let alloc = rt.alloc();
    let changes: [Change; 2] = [
        (b"vmm", b"harts", Some(b"\0\0\0\x01")),
        (b"vmm", b"turns", Some(b"\0\0\0\xc8")),
    ];
    let root = root_of(alloc, &GOOD, &[b"g0", b"g1"], &changes)?;
    let Ok(host) = settings_below(alloc, &root) else {
        assert!(rt; false, "no settings");
        return Ok(());
    };
    assert!(rt; host.harts == 1 && host.turns == 200);
    assert!(rt; host.areas.len() == 2);
    assert!(rt; host.areas[1].0.as_slice() == b"sea".as_slice() && host.areas[1].1 == 16777216);
    assert!(rt; host.guests.len() == 2);
    assert!(rt; host.guests[1].as_slice() == b"g1".as_slice());
    Ok(())
}

#[test]
fn tells_the_first_faulty_node(rt: HostRuntime) -> Result<(), Fail> {
    let alloc = rt.alloc();
    let changes: [Change; 2] = [(b"sea", b"size", None), (b"pool", b"size", Some(b"\0\0"))];
    let root = root_of(alloc, &GOOD, &[b"g0"], &changes)?;
    let Err(refusal) = settings_below(alloc, &root) else {
        assert!(rt; false, "no fault");
        return Ok(());
    };
    let HostRefusal::BadHost(path) = refusal else {
        assert!(rt; false, "another fault");
        return Ok(());
    };
    assert!(rt; path.as_slice() == b"/areas/pool".as_slice());
    Ok(())
}

#[test]
fn tells_the_first_limit(rt: HostRuntime) -> Result<(), Fail> {
    let alloc = rt.alloc();
    let nine: [&[u8]; 9] = [b"pool"; 9];
    let root = root_of(alloc, &nine, &[], &[])?;
    match settings_below(alloc, &root) {
        Err(HostRefusal::Limit(name, number)) => {
            assert!(rt; name == LimitName::Areas && number == 9);
        }
        _ => assert!(rt; false, "no limit"),
    }
    Ok(())
}
