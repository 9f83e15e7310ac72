//! A tree printed as source.
ghost use Rattle.std.specs.Prelude.{◌≡◌, IfOk};
ghost use Rattle.hv_dtprint.specs.Printed.{tree_text};
ghost use Rattle.hv_dts.specs.Reading.{IsSourceOf};

use hv_dtprint::print_root;
use hv_dtree::Tree;
use hv_text::Bytes;
use std::alloc::{AllocError, Global};

/// The text of a tree.
pub fn print_dts(alloc: Global, tree: &Tree) -> Result<Bytes, AllocError>
    ensures text { IfOk result (λ text. text ≡ tree_text tree.now) }

    // What is printed is a source, and stands for the same tree.
    ensures reads_back { IfOk result (λ text. IsSourceOf text tree.now) }
{
    print_root(alloc, tree.root())
}
