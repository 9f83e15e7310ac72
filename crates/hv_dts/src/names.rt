//! Names that stand twice.
ghost use Rattle.std.specs.Prelude.{◌≡◌, ◌∷◌, ◌++◌, [], List, ℕ, IfOk};
ghost use Rattle.hv_dts.specs.Rules.{has_name, lesser, least, place_if, repeated, labels_of};
ghost use Rattle.hv_dts.specs.Sets.{Holds, seen_after};

use hv_dtgram::{Entry, Named};
use hv_text::Bytes;
use std::alloc::{AllocError, Global};
use std::collections::BTreeSet;

/// The lesser of two places.
pub fn lesser(one: Option<usize>, other: Option<usize>) -> Option<usize>
    ensures { result ≡ lesser one other }
{
    match one {
        None => other,
        Some(place) => match other {
            None => Some(place),
            Some(next) => Some(place.min(next)),
        },
    }
}

/// Notes a name, and says whether it was there.
pub fn note_name(names: &mut BTreeSet<Bytes>, name: &Bytes) -> Result<bool, AllocError>
    ensures { (earlier : List (List ℕ)) → Holds names.old earlier
        → IfOk result (λ there. (there ≡ has_name earlier name.now) × Holds names.new (name.now ∷ earlier)) }
{
    let added = names.insert(name.clone()?)?;
    Ok(!added)
}

/// Notes a name, and lowers the least place where one stands twice.
pub fn note_place(
    names: &mut BTreeSet<Bytes>,
    best: Option<usize>,
    name: &Named,
) -> Result<Option<usize>, AllocError>
    ensures { (earlier : List (List ℕ)) → Holds names.old earlier
        → IfOk result (λ next. (next ≡ lesser best (least (place_if (has_name earlier name.now.name) name.now.place)))
        × Holds names.new (name.now.name ∷ earlier)) }
{
    if note_name(names, &name.name)? {
        return Ok(lesser(best, Some(name.place)));
    }
    Ok(best)
}

fn note_labels(
    names: &mut BTreeSet<Bytes>,
    before: Option<usize>,
    labels: &[Named],
) -> Result<Option<usize>, AllocError>
    ensures { (earlier : List (List ℕ)) → Holds names.old earlier
        → IfOk result (λ next. (next ≡ lesser before (least (repeated earlier labels.now)))
        × Holds names.new (seen_after earlier labels.now)) }
{
    let mut best = before;
    for label in labels {
        best = note_place(names, best, label)?;
    }
    Ok(best)
}

/// The least place of a label that stands twice.
pub fn repeated_label(alloc: Global, entries: &[Entry]) -> Result<Option<usize>, AllocError>
    ensures { IfOk result (λ found. found ≡ least (repeated [] (labels_of entries.now))) }
{
    let mut names = BTreeSet::new(alloc);
    let mut best = None;
    for entry in entries {
        best = note_labels(&mut names, best, entry.labels())?;
    }
    Ok(best)
}
