// A list over a `Vec`, which contracts see as the list of its items.
ghost use Rattle.std.specs.Prelude.{◌≡◌, [], ◌∷◌, ◌++◌, OnOk, OnErr};

use crate::NoMemory;
use std::alloc::Global;
use std::marker::Model;

/// A list of items, in memory of its own. Contracts see it as the list of its items.
#[derive(Drop)]
pub struct List<T> {
    items: Vec<T>,
}

impl<T> Model for List<T> {
    ghost use Rattle.std.specs.Prelude.{List as Seq};

    ghost Value = { Seq T };

    ghost view = { λ l. l.items.items };
}

impl<T> List<T> {
    /// The empty list; it takes no memory.
    pub fn new(alloc: Global) -> List<T>
        ensures empty { result ≡ [] }
    {
        List {
            items: Vec::new(alloc),
        }
    }

    /// Its items, in order.
    pub fn as_slice(&self) -> &[T]
        ensures items { result.now ≡ self.now }
    {
        self.items.as_slice()
    }

    /// The list of these items; it takes no memory.
    pub fn from_vec(items: Vec<T>) -> List<T>
        ensures items { result ≡ items.items }
    {
        List { items }
    }

    /// Its items as a `Vec`; it takes no memory.
    pub fn into_vec(self) -> Vec<T>
        ensures items { result.items ≡ self }
    {
        self.items
    }
}

impl<T: Drop> List<T> {
    /// Appends one item. After `NoMemory` the list is as before, and the item is dropped.
    pub fn push(&mut self, v: T) -> Result<(), NoMemory>
        ensures ok { OnOk result (self.new ≡ self.old ++ v ∷ []) }
        ensures err { OnErr result (self.new ≡ self.old) }
    {
        self.items.push(v)?;
        Ok(())
    }
}
