//! A bundle's files as a tree.
use super::*;
use hv_bundle::read_bundle;
use hv_text::Path;
use std::test::Fail;

#[test]
fn finds_a_file_in_its_folder(rt: HostRuntime) -> Result<(), Fail> {
    let text = b"XVB1\nfile /d/e/x 2\nhi\nfile /d/y 0\n\nend\n";
    let files = read_bundle(rt.alloc(), text)?;
    let tree = load_tree(rt.alloc(), &files)?;
    let path = Path::read(rt.alloc(), b"/d/e/x")?;
    assert_eq!(rt; tree.get(&path), Ok(b"hi".as_slice()));
    Ok(())
}
