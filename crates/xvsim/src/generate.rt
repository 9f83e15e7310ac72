//! The text of `gen`.
ghost use Rattle.std.specs.Prelude.{◌≡◌, IfOk};
ghost use Rattle.xvsim.specs.Gen.{gen_text};

use hv_bundle::print_bundle;
use hv_gen::gen_files;
use hv_text::Bytes;
use std::alloc::{AllocError, Global};

/// The bundle of the files that are made of a number.
#[tactic(auto, unfolding(crate::specs::Gen::gen_text))]
pub fn gen_text(alloc: Global, number: u16) -> Result<Bytes, AllocError>
    ensures { IfOk result (λ text. text ≡ gen_text number) }
{
    let files = gen_files(alloc, number)?;
    print_bundle(alloc, &files)
}
