//! A `Vec` that contracts see as the list of its items.
ghost use Rattle.std.specs.Borrow.{sem};
ghost use Rattle.lists.specs.Lending.{LendsItem};
ghost use Rattle.std.specs.Prelude.{◌≡◌, ◌+◌, ◌<◌, ◌++◌, ◌∷◌, [], length, remove, replicate, slice_index_or, slice_set, IfOk, OnErr, OnOk};

use std::alloc::{AllocError, Global};
use std::marker::Model;

/// A list of items, numbered from 0.
#[derive(Debug, Drop)]
pub struct Items<T> {
    items: Vec<T>,
}

impl<T> Model for Items<T> {
    ghost use Rattle.std.specs.Prelude.{List};

    ghost Value = { List T };

    ghost view = { λ r. r.items.items };
}

impl<T> Items<T> {
    /// The empty list. It takes no memory.
    pub fn new(alloc: Global) -> Items<T>
        ensures { result ≡ [] }
    {
        Items {
            items: Vec::new(alloc),
        }
    }

    /// The items of a `Vec`, as a list. It takes no memory.
    pub fn from_vec(items: Vec<T>) -> Items<T>
        ensures { result ≡ items.items }
    {
        Items { items }
    }

    /// The `Vec` of the items. It takes no memory.
    pub fn into_vec(self) -> Vec<T>
        ensures { result.items ≡ self }
    {
        self.items
    }

    /// How many items there are.
    pub fn len(&self) -> usize
        ensures { result ≡ length self.now }
    {
        self.items.len()
    }

    /// Lends the items as a slice.
    pub fn as_slice(&self) -> &[T]
        ensures { result.now ≡ self.now }
    {
        self.items.as_slice()
    }

    /// Lends the item at `i`, to be read.
    pub fn at(&self, i: usize) -> &T
        requires { i < length self.now }
        ensures { (d : T) → result.now ≡ slice_index_or self.now i d }
    {
        &self.items[i]
    }

    /// Lends the item at `i`, to be written.
    pub fn at_mut(&mut self, i: usize) -> &mut T
        requires { i < length self.old }
        ensures* writes_back { sem 𝓛 (LendsItem T.row self.entry i result) }
        ensures value { (d : T) → result.now ≡ slice_index_or self.old i d }
    {
        &mut self.items[i]
    }

    /// Writes the item at `i`. Where there is none, nothing changes.
    pub fn put(&mut self, i: usize, value: T)
    where
        T: Drop,
        ensures { self.new ≡ slice_set self.old i value }
    {
        if i < self.items.len() {
            self.items[i] = value;
        }
    }

    /// Adds an item at the end. Where memory is refused, the list is as before.
    pub fn push(&mut self, value: T) -> Result<(), AllocError>
    where
        T: Drop,
        ensures ok { OnOk result (self.new ≡ self.old ++ value ∷ []) }
        ensures err { OnErr result (self.new ≡ self.old) }
    {
        self.items.push(value)?;
        Ok(())
    }

    /// Adds an item before the first. Where memory is refused, the list is as before.
    pub fn push_front(&mut self, value: T) -> Result<(), AllocError>
    where
        T: Drop,
        ensures ok { OnOk result (self.new ≡ value ∷ self.old) }
        ensures err { OnErr result (self.new ≡ self.old) }
    {
        self.items.insert(0, value)?;
        Ok(())
    }

    /// Takes out the item at `i`; the later ones move down.
    pub fn remove(&mut self, i: usize) -> T
        requires { i < length self.old }
        ensures value { (d : T) → result ≡ slice_index_or self.old i d }
        ensures rest { self.new ≡ remove self.old i }
    {
        self.items.remove(i)
    }
}

impl<T: Copy + Drop> Items<T> {
    /// The item at `i`, or `default` where there is none.
    pub fn at_or(&self, i: usize, default: T) -> T
        ensures { result ≡ slice_index_or self.now i default }
    {
        if i < self.items.len() {
            self.items[i]
        } else {
            default
        }
    }

    /// `n` copies of an item.
    #[tactic(auto, using(std::proofs::lemmas::List::replicate_more))]
    pub fn copies(alloc: Global, n: usize, value: T) -> Result<Items<T>, AllocError>
        ensures { IfOk result (λ r. r ≡ replicate n value) }
    {
        let mut all = Items::new(alloc);
        for _k in 0..n {
            all.push(value)?;
        }
        Ok(all)
    }

    /// A list of these items and then those of `other`.
    pub fn concat(&self, alloc: Global, other: &Items<T>) -> Result<Items<T>, AllocError>
        ensures { IfOk result (λ r. r ≡ self.now ++ other.now) }
    {
        let mut all = Items::new(alloc);
        for x in self.as_slice() {
            all.push(*x)?;
        }
        for y in other.as_slice() {
            all.push(*y)?;
        }
        Ok(all)
    }

    /// A list of an item and then these.
    pub fn with_front(&self, alloc: Global, value: T) -> Result<Items<T>, AllocError>
        ensures { IfOk result (λ r. r ≡ value ∷ self.now) }
    {
        let none = Items::new(alloc);
        let mut all = self.concat(alloc, &none)?;
        all.push_front(value)?;
        Ok(all)
    }

    /// A list of these and then an item.
    pub fn with_back(&self, alloc: Global, value: T) -> Result<Items<T>, AllocError>
        ensures { IfOk result (λ r. r ≡ self.now ++ value ∷ []) }
    {
        let none = Items::new(alloc);
        let mut all = self.concat(alloc, &none)?;
        all.push(value)?;
        Ok(all)
    }
}
