//! Sources with their verdicts, worked out by hand from the grammar and the rules. More stand in
//! examples/device-tree-refusals.
use super::*;
use std::alloc::Global;
use std::test::Fail;

// What a reader answers: 0, or a number for the kind of refusal, and its offset.
fn answer(alloc: Global, text: &[u8]) -> (u8, usize) {
    match read_dts(alloc, text) {
        Ok(_) => (0, 0),
        Err(DtsRefusal::BadToken(at)) => (1, at),
        Err(DtsRefusal::Unexpected(at)) => (2, at),
        Err(DtsRefusal::TwiceNamed(at)) => (3, at),
        Err(DtsRefusal::BadPhandle(at)) => (4, at),
        Err(DtsRefusal::NoLabel(at)) => (5, at),
        Err(DtsRefusal::Memory(_)) => (6, 0),
    }
}

#[test]
fn tells_where_a_source_is_refused(rt: HostRuntime) {
    let rows: [(&[u8], (u8, usize)); 6] = [
        (b"/dts-v1/; / { a = <1 2>, \"x\", [0a]; };", (0, 0)),
        (b"/dts-v1/; / { a = <08>; };", (1, 19)),
        (b"/dts-v1/; / { a { }; b = <1>; };", (2, 23)),
        (b"/dts-v1/; / { x: y; a { x: b; }; };", (3, 24)),
        (b"/dts-v1/; / { phandle = <0>; };", (4, 14)),
        (b"/dts-v1/; / { r = <&l>; l: p; };", (5, 19)),
    ];
    for (text, want) in rows {
        assert!(rt;
            answer(rt.alloc(), text) == want,
            "at {}",
            text.escape_ascii()
        );
    }
}

fn printed(alloc: Global, text: &[u8]) -> Result<Vec<u8>, Fail> {
    let root = read_dts(alloc, text)?;
    let shown = print_dts(alloc, &root)?;
    Ok(Vec::from_slice(alloc, shown.as_slice())?)
}

#[test]
fn resolves_references(rt: HostRuntime) -> Result<(), Fail> {
    let text = b"/dts-v1/; / { a = <&x &z>, &y; x: p { phandle = <1>; }; y: q { }; z: r { v; }; };";
    let want =
        b"/dts-v1/;\n\n/ {\n\ta = [00 00 00 01 00 00 00 02 2f 71 00];\n\tp {\n\t\tphandle = [00 00 00 01];\n\t};\n\tq {\n\t};\n\tr {\n\t\tv;\n\t\tphandle = [00 00 00 02];\n\t};\n};\n";
    let shown = printed(rt.alloc(), text)?;
    assert!(rt; shown.as_slice() == want.as_slice());
    Ok(())
}
