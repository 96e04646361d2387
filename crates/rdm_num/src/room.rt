//! A vector with room for more.
ghost use Rattle.std.specs.Prelude.{◌≡◌, ◌++◌, ◌∷◌, ◌<◌, ◌≤◌, ◌+◌, [], length, OnOk, OnErr, remove, drop, slice_get, Some};
ghost use Rattle.rdm_num.specs.Room.{Roomy};

use std::alloc::{AllocError, Global};
use std::marker::Model;

/// A vector that contracts see as its list and as how much room was taken for more, so that a call
/// which may not want memory can write into room that an earlier call took.
#[derive(Debug, Drop)]
pub struct Room<T> {
    items: Vec<T>,
}

impl<T> Model for Room<T> {
    ghost use Rattle.std.specs.Prelude.{List, ◌-◌, vec_len, vec_capacity};
    ghost use Rattle.rdm_num.specs.Room.{Roomy};

    ghost Value = { Roomy T };

    ghost view = { λ b. record { list = b.items.items; room = vec_capacity b.items - vec_len b.items } };
}

impl<T> Room<T> {
    pub fn new(alloc: Global) -> Room<T>
        ensures { result.list ≡ [] }
    {
        Room {
            items: Vec::new(alloc),
        }
    }

    pub fn as_slice(&self) -> &[T]
        ensures { result.now ≡ self.now.list }
    {
        self.items.as_slice()
    }

    pub fn len(&self) -> usize
        ensures { result ≡ length self.now.list }
    {
        self.items.len()
    }

    /// Takes the memory for so many more.
    pub fn reserve(&mut self, more: usize) -> Result<(), AllocError>
        ensures list { self.new.list ≡ self.old.list }
        ensures ok { OnOk result (more ≤ self.new.room) }
        ensures kept { self.old.room ≤ self.new.room }
    {
        self.items.reserve(more)
    }

    /// Adds at the end, in room that was taken before.
    pub fn push(&mut self, item: T)
        requires { 0 < self.old.room }
        ensures list { self.new.list ≡ self.old.list ++ item ∷ [] }
        ensures room { self.new.room + 1 ≡ self.old.room }
    {
        self.items.push_reserved(item);
    }

    /// Takes out the item at a place; those after it close up.
    pub fn remove(&mut self, at: usize) -> T
        requires { at < length self.old.list }
        ensures item { slice_get self.old.list at ≡ Some result }
        ensures list { self.new.list ≡ remove self.old.list at }
        ensures room { self.new.room ≡ self.old.room + 1 }
    {
        self.items.remove(at)
    }
}
