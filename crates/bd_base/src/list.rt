//! Lists, and the error of a call that found no memory.
ghost use Rattle.std.specs.Prelude.{◌≡◌, ℕ, ◌+◌, ◌<◌, List, [], ◌∷◌, ◌++◌, length, OnOk, OnErr, IfOk, IsSome, IsTrue, ◌↔◌, ◌≤◌, slice_range};
ghost use Rattle.std.specs.Option.{option_to_list};

use std::alloc::{AllocError, AllocFailed, Global};
use std::marker::Model;

/// No memory was found.
#[derive(Clone, Copy, Debug, PartialEq, Eq)]
pub struct OutOfMemory;

impl From<AllocError> for OutOfMemory {
    fn from(_error: AllocError) -> OutOfMemory {
        OutOfMemory
    }
}

impl<T: Drop> From<AllocFailed<T>> for OutOfMemory {
    fn from(_error: AllocFailed<T>) -> OutOfMemory {
        OutOfMemory
    }
}

/// A list that grows at its end. Contracts see it as the list of its items.
#[derive(Debug, Drop)]
pub struct List<T> {
    items: Vec<T>,
}

impl<T> Model for List<T> {
    ghost Value = { List T };

    ghost view = { λ a. a.items.items };
}

/// A list of bytes.
pub type Bytes = List<u8>;

impl<T> List<T> {
    /// An empty list. It takes no memory.
    pub fn new(alloc: Global) -> List<T>
        ensures { result ≡ [] }
    {
        List {
            items: Vec::new(alloc),
        }
    }

    /// An empty list with room for this many items.
    pub fn with_capacity(alloc: Global, capacity: usize) -> Result<List<T>, OutOfMemory>
        ensures { IfOk result (λ list. list ≡ []) }
    {
        let items = Vec::with_capacity(alloc, capacity)?;
        Ok(List { items })
    }

    /// Appends an item. Where no memory is found the item is dropped, and the list is as before.
    pub fn push(&mut self, item: T) -> Result<(), OutOfMemory>
    where
        T: Drop,
        ensures ok { OnOk result (self.new ≡ self.old ++ item ∷ []) }
        ensures err { OnErr result (self.new ≡ self.old) }
    {
        self.items.push(item)?;
        Ok(())
    }

    /// A list of these items. It takes no memory.
    pub fn from_vec(items: Vec<T>) -> List<T>
        ensures { result ≡ items.items }
    {
        List { items }
    }

    /// A list of the items of a slice.
    pub fn from_slice(alloc: Global, items: &[T]) -> Result<List<T>, OutOfMemory>
    where
        T: Copy,
        ensures { IfOk result (λ list. list ≡ items.now) }
    {
        let items = Vec::from_slice(alloc, items)?;
        Ok(List { items })
    }

    /// The items as a vector. It takes no memory.
    pub fn into_vec(self) -> Vec<T>
        ensures { result.items ≡ self }
    {
        self.items
    }

    /// Takes the last item off, where there is one.
    pub fn pop(&mut self) -> Option<T>
        ensures items { self.old ≡ self.new ++ option_to_list result }
        ensures found { IsSome result ↔ (0 < length self.old) }
    {
        self.items.pop()
    }

    /// How many items there are.
    pub fn len(&self) -> usize
        ensures { result ≡ length self.now }
    {
        self.items.len()
    }

    /// Whether there is no item.
    pub fn is_empty(&self) -> bool
        ensures { IsTrue result ↔ (self.now ≡ []) }
    {
        self.items.is_empty()
    }

    /// A list of the items from place `from` to place `to` - 1.
    pub fn copy_range(&self, from: usize, to: usize) -> Result<List<T>, OutOfMemory>
    where
        T: Copy,
        requires ordered { from ≤ to }
        requires within { to ≤ length self.now }
        ensures { IfOk result (λ list. list ≡ slice_range self.now from to) }
    {
        let items = Vec::from_slice(*self.items.allocator(), &self.items.as_slice()[from..to])?;
        Ok(List { items })
    }

    /// A list of the same items.
    pub fn copy(&self) -> Result<List<T>, OutOfMemory>
    where
        T: Copy,
        ensures { IfOk result (λ list. list ≡ self.now) }
    {
        let items = Vec::from_slice(*self.items.allocator(), self.items.as_slice())?;
        Ok(List { items })
    }

    /// The items.
    pub fn as_slice(&self) -> &[T]
        ensures { result.now ≡ self.now }
    {
        self.items.as_slice()
    }
}

#[cfg(test)]
mod tests {
    use super::*;
    use std::test::Fail;

    #[test]
    fn grows_and_shrinks_at_its_end(rt: HostRuntime) -> Result<(), Fail> {
        let mut list: Bytes = List::new(rt.alloc());
        assert!(rt; list.is_empty());
        list.push(7)?;
        list.push(9)?;
        assert_eq!(rt; list.as_slice(), [7, 9].as_slice());
        assert_eq!(rt; list.pop(), Some(9));
        assert_eq!(rt; list.len(), 1);
        assert_eq!(rt; list.into_vec().as_slice(), [7].as_slice());
        Ok(())
    }
}
