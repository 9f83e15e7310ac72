//! Bundles from the worked examples of the format.
use super::*;
use std::alloc::Global;
use std::test::Fail;

const HELLO: &[u8] = b"XVB1\nfile /boot.xscript 15\nvfs cat /hello\n\nfile /hello 3\nhi\n\nend\n";

fn refused_at(alloc: Global, bytes: &[u8]) -> Option<u64> {
    match read_bundle(alloc, bytes) {
        Err(BundleRefusal::BadBundle(offset)) => Some(offset),
        _ => None,
    }
}

#[test]
fn a_cut_bundle_is_refused_where_it_stops(rt: HostRuntime) {
    for (least, end, offset) in [(0, 5, 0), (5, 43, 5), (43, 61, 43), (61, 65, 61)] {
        for len in least..end {
            let cut = HELLO.get(..len).unwrap_or(HELLO);
            assert_eq!(rt; refused_at(rt.alloc(), cut), Some(offset), "cut to {len}");
        }
    }
}

#[test]
fn a_bad_item_is_refused_at_its_offset(rt: HostRuntime) {
    let cases: [(&[u8], u64); 6] = [
        (
            b"XVB1\nfile /boot.xscript 15\nvfs cat /hello\n\nfile /hello 3\nhi\n\nfile /hello 3\nhi\n\nend\n",
            61,
        ),
        (b"XVB1\nfile /a 0\n\nfile /a/b 0\n\nend\n", 16),
        (b"XVB1\nfile /a/b 0\n\nfile /a- 0\n\nfile /a 0\n\nend\n", 30),
        (b"XVB1\nfile /a 00\n\nend\n", 5),
        (b"XVB1\nfile / 0\n\nend\n", 5),
        (b"XVB1\nend\n\n", 5),
    ];
    for (bytes, offset) in cases {
        assert_eq!(rt; refused_at(rt.alloc(), bytes), Some(offset));
    }
}

#[test]
fn what_was_read_is_printed_again(rt: HostRuntime) -> Result<(), Fail> {
    let files = read_bundle(rt.alloc(), HELLO)?;
    assert_eq!(rt; files.len(), 2);
    let text = print_bundle(rt.alloc(), &files)?;
    assert_eq!(rt; text.as_slice(), HELLO);
    bundles_are_unambiguous();
    Ok(())
}
