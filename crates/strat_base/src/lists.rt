//! Small lists that others keep in their fields: of versions, of descriptors, and of extents.

ghost use Rattle.std.specs.Prelude.{◌≡◌, ◌<◌, List, [], ◌∷◌, ◌++◌, length, slice_index_or, IfOk, IfErr, OnOk, OnErr, IfSome, IfNone};

use crate::failures::NoMemory;
use std::alloc::Global;
use std::marker::Model;

/// A list of items over a vector. It is seen as its items.
#[derive(Drop)]
pub struct Listing<T> {
    items: Vec<T>,
}

impl<T> Model for Listing<T> {
    ghost use Rattle.std.specs.Prelude.{List};

    ghost Value = { List T };

    ghost view = { λ l. l.items.items };
}

impl<T> Listing<T> {
    /// The empty list, which takes no memory. O(1).
    pub fn new(alloc: Global) -> Listing<T>
        ensures ok { result ≡ [] }
    {
        Listing {
            items: Vec::new(alloc),
        }
    }

    /// Adds an item at the end, in O(1) on average. Where no memory is left it hands the item back.
    pub fn push(&mut self, x: T) -> Result<(), (NoMemory, T)>
        ensures ok { OnOk result (self.new ≡ self.old ++ x ∷ []) }
        ensures err { OnErr result (self.new ≡ self.old) }
        ensures same { IfErr result (λ e. e.1 ≡ x) }
    {
        match self.items.push(x) {
            Ok(()) => Ok(()),
            Err(failed) => Err((NoMemory, failed.value)),
        }
    }

    /// Takes the last item, or answers `None` where there is none. O(1).
    pub fn pop(&mut self) -> Option<T>
        ensures found { IfSome result (λ x. self.old ≡ self.new ++ x ∷ []) }
        ensures none { IfNone result ((self.old ≡ []) × (self.new ≡ [])) }
    {
        self.items.pop()
    }

    /// The number of items. O(1).
    pub fn len(&self) -> usize
        ensures ok { result ≡ length self.now }
    {
        self.items.len()
    }

    /// An item, counted from 0. O(1).
    pub fn get(&self, i: usize) -> &T
        requires { i < length self.now }
        ensures ok { result.now ≡ slice_index_or self.now i result.now }
    {
        &self.items[i]
    }

    /// The items. O(1).
    pub fn as_slice(&self) -> &[T]
        ensures ok { result.now ≡ self.now }
    {
        &self.items
    }

    /// The allocator that the list keeps.
    pub fn allocator(&self) -> Global {
        *self.items.allocator()
    }
}

impl<T: Copy> Listing<T> {
    /// Adds items at the end, in the time of copying them.
    pub fn extend(&mut self, xs: &[T]) -> Result<(), NoMemory>
        ensures ok { OnOk result (self.new ≡ self.old ++ xs.now) }
        ensures err { OnErr result (self.new ≡ self.old) }
    {
        self.items.extend_from_slice(xs)?;
        Ok(())
    }
}
