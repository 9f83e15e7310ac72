//! What holds of all bundles.
ghost use Rattle.std.specs.Prelude.{◌≡◌, ℕ, List, [], ◌++◌};
ghost use Rattle.hv_bundle.specs.declared.file.File.{File};
ghost use Rattle.hv_bundle.specs.Bundle.{IsBadAt, IsBundle};

/// A law, with no work at run time: a text is the bundle of one list of files at most, so what is
/// printed is read back as it was; no bundle is the beginning of a longer one; and a text that is no
/// bundle stops being one at one offset.
pub fn bundles_are_unambiguous()
    ensures one_reading { (text : List ℕ) (files others : List File)
        → IsBundle text files → IsBundle text others → files ≡ others }
    ensures prefix_free { (text more : List ℕ) (files others : List File)
        → IsBundle text files → IsBundle (text ++ more) others → more ≡ [] }
    ensures one_offset { (text : List ℕ) (one other : ℕ)
        → IsBadAt text one → IsBadAt text other → one ≡ other }
{}
