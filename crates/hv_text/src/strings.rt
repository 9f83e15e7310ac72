//! A list of texts.
ghost use Rattle.std.specs.Prelude.{◌≡◌, [], ◌∷◌, ◌++◌, length, IfOk, OnOk, OnErr, slice_get};
ghost use Rattle.std.specs.Option.{option_copied};

use crate::bytes::Bytes;
use std::alloc::{AllocError, Global};
use std::marker::Model;

/// Texts that contracts see as a list of byte lists.
#[derive(Debug, Drop)]
pub struct Strings {
    items: Vec<Bytes>,
}

impl Model for Strings {
    ghost use Rattle.std.specs.Prelude.{List, ℕ};

    ghost Value = { List (List ℕ) };

    ghost view = { λ s. s.items.items };
}

impl Strings {
    /// No texts.
    pub fn new(alloc: Global) -> Result<Strings, AllocError>
        ensures { IfOk result (λ strings. strings ≡ []) }
    {
        Ok(Strings {
            items: Vec::new(alloc),
        })
    }

    /// These texts.
    pub fn from_vec(items: Vec<Bytes>) -> Strings
        ensures { result ≡ items.items }
    {
        Strings { items }
    }

    /// Adds a text at the end. At `Err` nothing has changed, and the text is given up.
    pub fn push(&mut self, item: Bytes) -> Result<(), AllocError>
        ensures ok { OnOk result (self.new ≡ self.old ++ item ∷ []) }
        ensures err { OnErr result (self.new ≡ self.old) }
    {
        self.items.push(item)?;
        Ok(())
    }

    /// The texts as a slice.
    pub fn as_slice(&self) -> &[Bytes]
        ensures { result.now ≡ self.now }
    {
        &self.items
    }

    /// How many texts there are.
    pub fn len(&self) -> usize
        ensures { result ≡ length self.now }
    {
        self.items.len()
    }

    /// The text at an index, or nothing past the last.
    pub fn at(&self, place: usize) -> Option<&[u8]>
        ensures { option_copied result ≡ slice_get self.now place }
    {
        match self.items.get(place) {
            Some(text) => Some(text.as_slice()),
            None => None,
        }
    }
}
