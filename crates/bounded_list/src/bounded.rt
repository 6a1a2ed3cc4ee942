ghost use Rattle.std.specs.Prelude.{◌≡◌, ◌+◌, ◌<◌, ◌≤◌, ◌++◌, ◌∷◌, [], length, take, vec_capacity, vec_len};

use arrayvec::ArrayVec;
use std::default::Default;
use std::marker::Model;
use std::mem;

/// A list of at most `N` items, which lie in the value itself. Contracts see it as the list of its items.
#[derive(Drop)]
pub struct Bounded<T, const N: usize> {
    items: ArrayVec<T, N>,
}

impl<T, const N: usize> Model for Bounded<T, N> {
    ghost use Rattle.std.specs.Prelude.{◌≤◌, List, length};

    ghost Value = { List T };

    ghost view = { λ b. b.items.items };

    ghost invariant = { λ b. length b.items.items ≤ N };
}

impl<T: Default + Drop, const N: usize> Bounded<T, N> {
    /// The empty list.
    pub fn new() -> Self
        ensures { result ≡ [] }
    {
        Bounded {
            items: ArrayVec::new(),
        }
    }

    /// Puts an item behind the others. There must be room.
    pub fn push(&mut self, item: T)
        requires { length self.old < N }
        ensures { self.new ≡ self.old ++ item ∷ [] }
    {
        self.items.push(item);
    }

    /// The items, in their order.
    pub fn as_slice(&self) -> &[T]
        ensures items { result.now ≡ self.now }
        ensures few { length result.now ≤ N }
    {
        self.items.as_slice()
    }

    /// Keeps the first `count` items, and drops the others.
    pub fn truncate(&mut self, count: usize)
        ensures { self.new ≡ take count self.old }
    {
        self.items.truncate(count);
    }

    /// Drops every item.
    pub fn clear(&mut self)
        ensures { self.new ≡ [] }
    {
        self.items.clear();
    }

    /// Moves the items, in their order, behind a vector that has room for them. This list is empty then.
    pub fn hand_over(&mut self, to: &mut Vec<T>)
        requires { vec_len to.old + length self.old ≤ vec_capacity to.old }
        ensures items { to.new.items ≡ to.old.items ++ self.old }
        ensures room { vec_capacity to.new ≡ vec_capacity to.old }
        ensures emptied { self.new ≡ [] }
    {
        // Most lists of a step are empty.
        if self.items.is_empty() {
            return;
        }
        let items = self.items.as_mut_slice();
        for i in 0..items.len() {
            to.push_reserved(mem::take(&mut items[i]));
        }
        self.clear();
    }
}
