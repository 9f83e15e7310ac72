//! The paths that earlier files have taken.
ghost use Rattle.std.specs.Prelude.{◌↔◌, IsTrue};
ghost use Rattle.hv_bundle.specs.Taken.{AreAllApart, LiesInTaken, HasTakenInside, IsApartFromTaken};

use hv_text::Path;
use std::collections::BTreeSet;

/// Whether this path is taken or lies in a taken one, which is then the last that isn't above it.
fn lies_in_a_file(taken: &BTreeSet<Path>, path: &Path) -> bool
    requires { AreAllApart taken.now }
    ensures { IsTrue result ↔ LiesInTaken taken.now path.now }
{
    match taken.range(..=path).next_back() {
        Some(one) => one.is_prefix_of(path),
        None => false,
    }
}

/// Whether this path is taken or has a taken one inside, as then the first that isn't below it is.
fn is_a_folder(taken: &BTreeSet<Path>, path: &Path) -> bool
    ensures { IsTrue result ↔ HasTakenInside taken.now path.now }
{
    match taken.range(path..).next() {
        Some(one) => path.is_prefix_of(one),
        None => false,
    }
}

/// Whether this path is apart from all taken ones.
pub fn is_free(taken: &BTreeSet<Path>, path: &Path) -> bool
    requires { AreAllApart taken.now }
    ensures { IsTrue result ↔ IsApartFromTaken taken.now path.now }
{
    if lies_in_a_file(taken, path) {
        return false;
    }
    !is_a_folder(taken, path)
}
