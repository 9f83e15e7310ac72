//! A bundle read.
ghost use Rattle.std.specs.Prelude.{◌≡◌, ◌-◌, ◌≤◌, List, length, IfOk};
ghost use Rattle.hv_bundle.specs.declared.file.File.{File};
ghost use Rattle.hv_bundle.specs.Bundle.{IsBundle};
ghost use Rattle.hv_bundle.specs.Reading.{Reads, RefusesRightly};

use crate::file::File;
use crate::item::item_at;
use crate::refusal::BundleRefusal;
use crate::taken::is_free;
use hv_text::strip_front;
use std::alloc::Global;
use std::collections::BTreeSet;

/// Where the rest begins in the bytes.
fn offset_of(bytes: &[u8], rest: &[u8]) -> u64
    requires { length rest.now ≤ length bytes.now }
    ensures { result ≡ length bytes.now - length rest.now }
{
    (bytes.len() - rest.len()) as u64
}

/// The files of a bundle.
pub fn read_bundle(alloc: Global, bytes: &[u8]) -> Result<Vec<File>, BundleRefusal>
    // The bytes are the bundle of what was read.
    ensures found { IfOk result (λ files. IsBundle bytes.now files.items) }

    // Every bundle is read as its files, unless memory runs out.
    ensures only { (files : List File) → IsBundle bytes.now files → Reads result files }

    // Only bytes that are no bundle are refused, with the offset at which they stop being one.
    ensures refused { RefusesRightly result bytes.now }
{
    let Some(items) = strip_front(bytes, b"XVB1\n") else {
        return Err(BundleRefusal::BadBundle(0));
    };
    let mut files = Vec::new(alloc);
    let mut taken = BTreeSet::new(alloc);
    let mut rest = items;
    while rest != b"end\n".as_slice() {
        let Some((file, size)) = item_at(alloc, rest)? else {
            return Err(BundleRefusal::BadBundle(offset_of(bytes, rest)));
        };
        if !is_free(&taken, &file.path) {
            return Err(BundleRefusal::BadBundle(offset_of(bytes, rest)));
        }
        taken.insert(file.path.clone()?)?;
        files.push(file)?;
        rest = rest.split_at(size).1;
    }
    Ok(files)
}
