//! The phandles of a source.
ghost use Rattle.std.specs.Prelude.{◌≡◌, [], ◌∷◌, List, ℕ, Some, IfOk, OnOk};
ghost use Rattle.hv_dts.specs.Rules.{lesser, least, bad_place, bad_here, numbers_after, bad_phandles};
ghost use Rattle.hv_dts.specs.Resolved.{used_numbers};
ghost use Rattle.hv_dts.specs.Sets.{HoldsNumbers};

use crate::names::lesser;
use crate::values::{is_phandle_name, phandle_number};
use hv_dtgram::Entry;
use std::alloc::{AllocError, Global};
use std::collections::BTreeSet;

/// The numbers of phandles, and the least place of a bad one.
#[derive(Drop)]
pub struct Phandles {
    pub best: Option<usize>,
    pub used: BTreeSet<u32>,
}

impl Phandles {
    fn note(&mut self, number: u32, place: usize) -> Result<(), AllocError>
        ensures { (earlier : List ℕ) → HoldsNumbers self.old.used earlier
            → OnOk result ((self.new.best ≡ lesser self.old.best (least (bad_place earlier place (Some number))))
            × HoldsNumbers self.new.used (number ∷ earlier)) }
    {
        if !self.used.insert(number)? {
            self.best = lesser(self.best, Some(place));
        }
        Ok(())
    }

    fn take(&mut self, alloc: Global, entry: &Entry) -> Result<(), AllocError>
        ensures { (earlier : List ℕ) → HoldsNumbers self.old.used earlier
            → OnOk result ((self.new.best ≡ lesser self.old.best (least (bad_here earlier entry.now)))
            × HoldsNumbers self.new.used (numbers_after earlier entry.now)) }
    {
        let Entry::Property(_, name, values) = entry else {
            return Ok(());
        };
        if !is_phandle_name(&name.name) {
            return Ok(());
        }
        match phandle_number(alloc, values.as_slice())? {
            None => {
                self.best = lesser(self.best, Some(name.place));
                Ok(())
            }
            Some(number) => self.note(number, name.place),
        }
    }
}

/// The phandles of a source.
pub fn read_phandles(alloc: Global, entries: &[Entry]) -> Result<Phandles, AllocError>
    ensures best { IfOk result (λ found. found.best ≡ least (bad_phandles [] entries.now)) }
    ensures used { IfOk result (λ found. HoldsNumbers found.used (used_numbers entries.now)) }
{
    let mut found = Phandles {
        best: None,
        used: BTreeSet::new(alloc),
    };
    for entry in entries {
        found.take(alloc, entry)?;
    }
    Ok(found)
}
