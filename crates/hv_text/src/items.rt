//! Members of a node.
ghost use Rattle.std.specs.Prelude.{◌≡◌, ◌≢◌, [], ◌∷◌, ◌++◌, ◌↔◌, IsTrue, MatchOption, OnOk, reverse};
ghost use Rattle.hv_text.specs.Lists.{SwapsFirst};

use std::alloc::{AllocError, Global};
use std::marker::Model;
use std::mem;

/// A shorter list takes room for one item more at a time, a longer one doubles its room.
const FEW: usize = 8;

/// A `Vec` that contracts see as the list of its elements, so that a tree of them is plain data.
pub struct Items<T> {
    items: Vec<T>,
}

impl<T: Drop> Drop for Items<T> {
    fn drop(self) {
        let Items { items } = self;
        drop(items);
    }
}

impl<T> Model for Items<T> {
    ghost use Rattle.std.specs.Prelude.{List};
    ghost use Rattle.std.specs.Coded.{coded_list};

    ghost Value = { List T };

    ghost coded = { coded_list T.code };

    ghost view = { λ it. it.items.items };
}

impl<T> Items<T> {
    pub fn new(alloc: Global) -> Items<T>
        ensures { result ≡ [] }
    {
        Items {
            items: Vec::new(alloc),
        }
    }

    pub fn from_vec(items: Vec<T>) -> Items<T>
        ensures { result ≡ items.items }
    {
        Items { items }
    }

    pub fn into_vec(self) -> Vec<T>
        ensures { result.items ≡ self }
    {
        let Items { items } = self;
        items
    }

    pub fn as_slice(&self) -> &[T]
        ensures { result.now ≡ self.now }
    {
        self.items.as_slice()
    }

    pub fn is_empty(&self) -> bool
        ensures { IsTrue result ↔ (self.now ≡ []) }
    {
        self.items.is_empty()
    }

    /// The last item, taken out. The room of a longer list follows its length, with at most a third of it to spare.
    pub fn pop(&mut self) -> Option<T>
        ensures { MatchOption result ((self.old ≡ []) × (self.new ≡ [])) (λ last. self.old ≡ self.new ++ last ∷ []) }
    {
        let last = self.items.pop();
        let len = self.items.len();
        if len < self.items.capacity() / 4 * 3 {
            self.items.shrink_to((len + len / 8).max(FEW));
        }
        last
    }

    /// Gives back the room that no item takes.
    pub fn trim(&mut self)
        ensures { self.new ≡ self.old }
    {
        self.items.shrink_to_fit();
    }

    /// Turns the order of the items round.
    pub fn reverse(&mut self)
        ensures { self.new ≡ reverse self.old }
    {
        self.items.as_mut_slice().reverse();
    }

    /// Puts an item in the place of the first one, which is given back.
    pub fn swap_first(&mut self, item: T) -> T
        requires { self.old ≢ [] }
        ensures { SwapsFirst self.old item result self.new }
    {
        mem::replace(&mut self.items[0], item)
    }
}

impl<T: Drop> Items<T> {
    /// Adds an item at the end, which want of memory gives up.
    pub fn push(&mut self, item: T) -> Result<(), AllocError>
        ensures { OnOk result (self.new ≡ self.old ++ item ∷ []) }
    {
        if self.items.len() < FEW {
            self.items.reserve_exact(1)?;
        }
        self.items.push(item)?;
        Ok(())
    }
}
