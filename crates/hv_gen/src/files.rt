//! The generated files.
ghost use Rattle.std.specs.Prelude.{◌≡◌, ◌<◌, ◌^◌, [], ◌∷◌, length, IfOk, OnOk};
ghost use Rattle.hv_bundle.specs.Bundle.{AreFitting};
ghost use Rattle.hv_gen.specs.Generated.{file_named, generated_files};

use crate::boot::boot_text;
use crate::host::host_text;
use crate::program::program_text;
use hv_bundle::File;
use hv_text::{Bytes, Path};
use std::alloc::{AllocError, Global};

/// The file of this name and these bytes.
fn file_named(alloc: Global, name: &[u8], bytes: Bytes) -> Result<File, AllocError>
    ensures file { IfOk result (λ file. file ≡ file_named name.now bytes) }
    ensures size { OnOk result (length bytes < 2 ^ 64) }
{
    // No more bytes than `len` can count.
    let _size = bytes.len();
    let mut path = Path::root(alloc);
    path.push(Bytes::from_vec(Vec::from_slice(alloc, name)?))?;
    Ok(File { path, bytes })
}

/// The files that are made of a number.
#[tactic(auto, unfolding(crate::specs::Generated::generated_files))]
pub fn gen_files(alloc: Global, number: u16) -> Result<Vec<File>, AllocError>
    // They are those of the number, and want of memory alone gives none.
    ensures files { IfOk result (λ files. files.items ≡ generated_files number) }
    // They can be a bundle.
    ensures fitting { IfOk result (λ files. AreFitting [] files.items) }
{
    let number = number as u64;
    let guests = 1 + number % 8;
    let count = 100 + number % 1000;
    let mut files = Vec::new(alloc);
    files.push(file_named(alloc, b"host.dts", host_text(alloc, guests)?)?)?;
    files.push(file_named(alloc, b"p.s", program_text(alloc, number, count)?)?)?;
    files.push(file_named(alloc, b"boot.xscript", boot_text(alloc, guests)?)?)?;
    Ok(files)
}
