//! Names of siblings.
ghost use Rattle.std.specs.Prelude.{◌≡◌, ◌∷◌, [], List, ℕ, IfOk};
ghost use Rattle.hv_dts.specs.Rules.{has_name, lesser, least, place_if};
ghost use Rattle.hv_dts.specs.Sets.{HasNames};

use crate::names::lesser;
use hv_dtgram::Named;
use hv_text::{Bytes, Items};
use std::alloc::{AllocError, Global};
use std::collections::BTreeSet;

/// How many names lie in the list.
const FEW: usize = 4;

/// The first few names in a list, which takes less room than a set, and the further ones in a set.
#[derive(Drop)]
pub struct SiblingNames {
    pub few: Items<Bytes>,
    pub many: BTreeSet<Bytes>,
}

fn is_among(names: &[Bytes], name: &Bytes) -> bool
    ensures { result ≡ has_name names.now name.now }
{
    for one in names {
        if one.as_slice() == name.as_slice() {
            return true;
        }
    }
    false
}

impl SiblingNames {
    pub fn new(alloc: Global) -> SiblingNames
        ensures { HasNames result [] }
    {
        SiblingNames {
            few: Items::new(alloc),
            many: BTreeSet::new(alloc),
        }
    }

    fn note(&mut self, name: &Bytes) -> Result<bool, AllocError>
        ensures { (earlier : List (List ℕ)) → HasNames self.old earlier
            → IfOk result (λ there. (there ≡ has_name earlier name.now) × HasNames self.new (name.now ∷ earlier)) }
    {
        if is_among(self.few.as_slice(), name) {
            return Ok(true);
        }
        if self.many.contains(name) {
            return Ok(true);
        }
        let copy = name.clone()?;
        if self.few.as_slice().len() < FEW {
            self.few.push(copy)?;
            return Ok(false);
        }
        self.many.insert(copy)?;
        Ok(false)
    }

    /// Notes a name, and lowers the least place where one stands twice.
    pub fn note_place(
        &mut self,
        best: Option<usize>,
        name: &Named,
    ) -> Result<Option<usize>, AllocError>
        ensures { (earlier : List (List ℕ)) → HasNames self.old earlier
            → IfOk result (λ next. (next ≡ lesser best (least (place_if (has_name earlier name.now.name) name.now.place)))
            × HasNames self.new (name.now.name ∷ earlier)) }
    {
        if self.note(&name.name)? {
            return Ok(lesser(best, Some(name.place)));
        }
        Ok(best)
    }
}
