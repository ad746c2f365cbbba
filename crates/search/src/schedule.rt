// The windows so far, in window memory that a caller lends.
ghost use Rattle.std.specs.Prelude.{◌≡◌, ℕ, ◌<◌, ◌≤◌, [], length, MatchResult};
ghost use Rattle.std.specs.List.{AllByRecursion};
ghost use Rattle.search.specs.Windows.{Fits, latest};
ghost use Rattle.search.specs.Drawn.{drawn, inserted_at, Wrote};
ghost use Rattle.search.specs.Search.{most_entries, inserted};
ghost use Rattle.search.specs.Schedules.{GoesAt};

use crate::drawing::{draw, end_of_last, start_of_first, stretch};
use crate::window::Window;
use gates::entry::{Entry, MOST_ENTRIES};
use std::marker::Model;
use table::full::Full;
use table::table::put_at;

// The windows at the front of the memory, how many entries the list drawn from them has, and how long the cycle is.
// Clauses see the windows and the cycle.
#[derive(Drop)]
pub(crate) struct Schedule<'w> {
    memory: &'w mut [Window],
    count: usize,
    entries: usize,
    cycle: u64,
}

impl<'w> Model for Schedule<'w> {
    ghost use Rattle.std.specs.Prelude.{take};
    ghost use Rattle.search.specs.Schedules.{Plan, Tallied};

    ghost Value = { Plan };

    ghost view = { λ s. record { windows = take s.count s.memory.now; long = s.cycle } };

    ghost invariant = { λ s. Tallied s.cycle s.memory.now s.count s.entries };
}

impl<'w> Schedule<'w> {
    // No windows: the list is one closed stretch.
    pub(crate) fn new(memory: &'w mut [Window], cycle: u64) -> Schedule<'w>
        requires { (most_entries ≤ length memory.old) × (cycle ≤ latest) }
        ensures { result ≡ record { windows = []; long = cycle } }
    {
        let entries = stretch(0, cycle);
        Schedule {
            memory,
            count: 0,
            entries,
            cycle,
        }
    }

    // The windows, one after the other.
    pub(crate) fn windows(&self) -> &[Window]
        ensures value { result.now ≡ self.now.windows }
        ensures fit { AllByRecursion Fits self.now.windows }
    {
        &self.memory[..self.count]
    }

    // How many entries the list has with one more window at a place.
    fn entries_with(&self, place: usize, w: &Window) -> usize
        requires { Fits w.now × (place ≤ length self.now.windows) }
        ensures { result ≡ length (drawn 0 (inserted_at place w.now self.now.windows) self.now.long) }
    {
        let (front, back) = self.windows().split_at(place);
        let before = end_of_last(front);
        let after = start_of_first(back, self.cycle);
        self.entries - stretch(before, after)
            + stretch(before, w.start)
            + 1
            + stretch(w.end(), after)
    }

    // One window more, at a place; refused, with nothing changed, where the list gets too long.
    pub(crate) fn insert(&mut self, place: usize, w: Window) -> Result<(), Full>
        requires { GoesAt place w self.old.windows }
        ensures there { inserted w self.old.windows ≡ inserted_at place w self.old.windows }
        ensures cases { MatchResult result
            (λ _. (length (drawn 0 (inserted w self.old.windows) self.old.long) ≤ most_entries) × (self.new ≡ record { windows = inserted w self.old.windows; long = self.old.long }))
            (λ _. (most_entries < length (drawn 0 (inserted w self.old.windows) self.old.long)) × (self.new ≡ self.old)) }
    {
        let entries = self.entries_with(place, &w);
        if entries > MOST_ENTRIES {
            return Err(Full);
        }
        let count = self.count;
        self.count = put_at(self.memory, count, place, w)?;
        self.entries = entries;
        Ok(())
    }

    // Draws the list, and answers its length.
    pub(crate) fn draw(&self, list: &mut [Entry]) -> usize
        requires { most_entries ≤ length list.old }
        ensures wrote { Wrote (drawn 0 self.now.windows self.now.long) 0 result list.old list.new }
        ensures few { length (drawn 0 self.now.windows self.now.long) ≤ most_entries }
    {
        draw(&self.memory[..self.count], self.cycle, list)
    }
}
