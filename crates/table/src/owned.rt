// An ordered table in memory of its own.
ghost use Rattle.std.specs.Prelude.{◌≡◌, ◌<◌, ◌≤◌, ◌==◌, [], ◌∷◌, length, true, MatchOption, MatchResult};
ghost use Rattle.std.specs.List.{slice_get};
ghost use Rattle.table.specs.Order.{in_order, placed};

use crate::full::Full;
use crate::order::Ordered;
use crate::table::{put, show, take_first};
use std::marker::Model;

// At most `N` records, which stand in their order. Clauses see the list of them. The calls over a lent slice serve it, too:
// one implementation, where an array with a length from a library would be a second one.
#[derive(Drop)]
pub struct Table<T: Ordered + Copy, const N: usize> {
    memory: [T; N],
    len: usize,
}

impl<T: Ordered + Copy, const N: usize> Model for Table<T, N> {
    ghost use Rattle.std.specs.Prelude.{◌≡◌, ◌≤◌, List, true, take};
    ghost use Rattle.table.specs.Order.{in_order};

    ghost Value = { List T };

    ghost view = { λ t. take t.len t.memory };

    ghost invariant = { λ t. (t.len ≤ N) × (in_order T.before (take t.len t.memory) ≡ true) };
}

impl<T: Ordered + Copy + Default, const N: usize> Table<T, N> {
    // A table that holds nothing.
    pub fn new() -> Table<T, N>
        ensures { result ≡ [] }
    {
        Table {
            memory: [T::default(); N],
            len: 0,
        }
    }
}

impl<T: Ordered + Copy, const N: usize> Table<T, N> {
    // Does the table hold nothing?
    #[inline]
    pub fn is_empty(&self) -> bool
        ensures { result ≡ (length self.now == 0) }
    {
        self.len == 0
    }

    // The records, in their order.
    #[inline]
    pub fn records(&self) -> &[T]
        ensures value { result.now ≡ self.now }
        ensures few { length self.now ≤ N }
        ensures ordered { in_order T.before self.now ≡ true }
    {
        &self.memory[..self.len]
    }

    // The first record, if there is one.
    #[inline]
    pub fn first(&self) -> Option<T>
        ensures { result ≡ slice_get self.now 0 }
    {
        show(&self.memory, self.len, 0)
    }

    // The record at a place, counted from 0, if there is one.
    #[inline]
    pub fn show(&self, at: usize) -> Option<T>
        ensures { result ≡ slice_get self.now at }
    {
        show(&self.memory, self.len, at)
    }

    // Puts a record behind its equals; refused, with nothing changed, where every place is taken.
    #[inline]
    pub fn put(&mut self, x: T) -> Result<(), Full>
        ensures cases { MatchResult result (λ _. (length self.old < N) × (self.new ≡ placed T.before x self.old)) (λ _. (N ≤ length self.old) × (self.new ≡ self.old)) }
        ensures few { length self.new ≤ N }
        ensures ordered { (in_order T.before self.old ≡ true) × (in_order T.before self.new ≡ true) }
    {
        self.len = put(&mut self.memory, self.len, x)?;
        Ok(())
    }

    // Takes the first record; none where the table holds nothing.
    #[inline]
    pub fn take_first(&mut self) -> Option<T>
        ensures cases { MatchOption result ((self.old ≡ []) × (self.new ≡ [])) (λ x. self.old ≡ x ∷ self.new) }
        ensures few { length self.old ≤ N }
        ensures ordered { (in_order T.before self.old ≡ true) × (in_order T.before self.new ≡ true) }
    {
        let (first, len) = take_first(&mut self.memory, self.len)?;
        self.len = len;
        Some(first)
    }
}
