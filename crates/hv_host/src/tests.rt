//! What host trees say.
use super::*;
use hv_kinds::LimitName;
use hv_plan::Cause;
use std::test::Fail;

const TREE: &[u8] = b"/dts-v1/;
/ {
    vmm { harts = <1>; turns = <200>; };
    areas { ring { size = <4096>; }; };
    guests {
        g0 {
            vcpus { v0 { start_pc = <0x80000000>; }; };
            aspace {
                ram { manifest_type = \"virtual\"; address_type = \"memory\"; guest_physical_addr = <0x80000000>; physical_size = <0x10000>; device_type = \"ram\"; };
                ring { manifest_type = \"real\"; address_type = \"memory\"; guest_physical_addr = <0x90000000>; physical_size = <4096>; host_area = \"ring\"; };
            };
        };
        g1 { vcpus { v0 { }; }; aspace { ram { }; }; };
    };
};";

#[test]
fn reads_the_host_and_its_guests(rt: HostRuntime) -> Result<(), Fail> {
    let Ok(board) = read_board(rt.alloc(), Some(TREE)) else {
        assert!(rt; false);
        return Ok(());
    };
    assert_eq!(rt; board.host.harts, 1);
    assert_eq!(rt; board.host.turns, 200);
    assert_eq!(rt; board.host.areas.len(), 1);
    assert_eq!(rt; board.host.guests.len(), 2);
    let (Some(Ok(plan)), Some(Err(fault))) = (board.plans.get(0), board.plans.get(1)) else {
        assert!(rt; false);
        return Ok(());
    };
    assert_eq!(rt; plan.vcpus.len(), 1);
    assert_eq!(rt; plan.regions.len(), 2);
    assert_eq!(rt; fault.path.as_slice(), b"/guests/g1/vcpus/v0".as_slice());
    assert_eq!(rt; fault.cause, Cause::Missing);
    Ok(())
}

#[test]
fn has_defaults_without_a_tree(rt: HostRuntime) -> Result<(), Fail> {
    let Ok(board) = read_board(rt.alloc(), None) else {
        assert!(rt; false);
        return Ok(());
    };
    assert_eq!(rt; board.host.harts, 2);
    assert_eq!(rt; board.host.turns, 1000);
    assert!(rt; board.host.areas.is_empty());
    assert!(rt; board.plans.is_empty());
    Ok(())
}

#[test]
fn refuses_what_is_no_host_tree(rt: HostRuntime) -> Result<(), Fail> {
    let alloc = rt.alloc();
    let no_source = read_board(alloc, Some(b"/dts-v1/; / { a { }; b = <1>; };"));
    assert!(rt; matches!(no_source, Err(BoardRefusal::BadTree(23))));
    let areas = read_board(
        alloc,
        Some(b"/dts-v1/; / { areas { a {}; b {}; c {}; d {}; e {}; f {}; g {}; h {}; i {}; }; };"),
    );
    assert!(rt; matches!(areas, Err(BoardRefusal::Limit(LimitName::Areas, 9))));
    let Err(BoardRefusal::BadHost(path)) = read_board(
        alloc,
        Some(b"/dts-v1/; / { areas { a { size = <0>; }; }; };"),
    ) else {
        assert!(rt; false);
        return Ok(());
    };
    assert_eq!(rt; path.as_slice(), b"/areas/a".as_slice());
    host_trees_are_unambiguous();
    Ok(())
}
