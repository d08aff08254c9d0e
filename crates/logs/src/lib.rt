//! A list in fixed room that grows at its end, or starts anew.
#![tactic(auto)]

ghost use Rattle.std.specs.Prelude.{◌≡◌, ◌+◌, ◌<◌, ◌≤◌, [], ◌∷◌, ◌++◌, ◌==◌, length};

use std::marker::Model;
use std::ops::DerefSlice;

/// At most `CAP` items, oldest first. In a clause it is the list of them. What was held is not touched when it starts anew.
#[derive(Drop)]
pub struct Log<T, const CAP: usize> {
    cells: [T; CAP],
    len: usize,
}

impl<T, const CAP: usize> Model for Log<T, CAP> {
    ghost use Rattle.std.specs.Prelude.{◌≡◌, ◌≤◌, List, length, take};

    ghost Value = { List T };

    ghost view = { λ l. take l.len l.cells };

    ghost invariant = { λ l. (l.len ≤ CAP) × (length l.cells ≡ CAP) };
}

impl<T: Copy, const CAP: usize> Log<T, CAP> {
    /// No items; what is in the room that is free is `blank`.
    pub fn new(blank: T) -> Self
        ensures { result ≡ [] }
    {
        Log {
            cells: [blank; CAP],
            len: 0,
        }
    }

    /// How many items there are.
    pub fn len(&self) -> usize
        ensures value { result ≡ length self.now }
        ensures fits { result ≤ CAP }
    {
        self.len
    }

    /// Whether there is no room left.
    pub fn is_full(&self) -> bool
        ensures value { result ≡ (length self.now == CAP) }
        ensures fits { length self.now ≤ CAP }
    {
        self.len == CAP
    }

    /// Puts an item behind the others.
    pub fn push(&mut self, item: T)
        requires { length self.old < CAP }
        ensures items { self.new ≡ self.old ++ item ∷ [] }
        ensures len { length self.new ≡ length self.old + 1 }
    {
        self.cells[self.len] = item;
        self.len += 1;
    }

    /// Forgets all items, in one step.
    pub fn clear(&mut self)
        ensures { self.new ≡ [] }
    {
        self.len = 0;
    }
}

impl<T, const CAP: usize> DerefSlice for Log<T, CAP> {
    type Elem = T;

    ghost deref_gives = { λ l xs. (xs ≡ l) × (length xs ≤ CAP) };

    fn deref(&self) -> &[T] {
        &self.cells[..self.len]
    }
}
