//! The beginnings of the generated texts, from the worked example.
use super::*;
use hv_bundle::print_bundle;
use std::test::Fail;

#[test]
fn the_files_of_the_least_number(rt: HostRuntime) -> Result<(), Fail> {
    let files = gen_files(rt.alloc(), 0)?;
    let sizes = [414, 1795, 98];
    assert_eq!(rt; files.len(), sizes.len());
    for (file, size) in files.iter().zip(sizes) {
        assert_eq!(rt; file.bytes.len(), size);
    }
    let program = files[1].bytes.as_slice();
    let front = b"addi x5, x5, 57\naddi x5, x5, 1662\n".as_slice();
    assert_eq!(rt; program.get(..front.len()), Some(front));
    Ok(())
}
