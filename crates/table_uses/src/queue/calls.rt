// The queue's calls: a packet joins at its place, and the first leaves.
ghost use Rattle.std.specs.Prelude.{◌≡◌, ◌≤◌, [], length, drop, MatchResult};
ghost use Rattle.std.specs.List.{slice_get};
ghost use Rattle.table.specs.Order.{placed};
ghost use Rattle.table_uses.specs.Orders.{waits_before};

use crate::queue::Queue;
use crate::waiting::Waiting;
use table::full::Full;
use table::owned::Table;

impl Queue {
    // An empty queue.
    pub fn new() -> Queue
        ensures { result.waiting ≡ [] }
    {
        Queue {
            waiting: Table::new(),
        }
    }

    // A packet joins, in front of the first that it is before.
    pub fn join(&mut self, packet: Waiting) -> Result<(), Full>
        ensures { MatchResult result (λ _. self.new.waiting ≡ placed waits_before packet self.old.waiting) (λ _. (64 ≤ length self.old.waiting) × (self.new.waiting ≡ self.old.waiting)) }
    {
        self.waiting.put(packet)
    }

    // The first packet.
    pub fn head(&self) -> Option<Waiting>
        ensures { result ≡ slice_get self.now.waiting 0 }
    {
        self.waiting.first()
    }

    // The first packet leaves.
    pub fn leave(&mut self) -> Option<Waiting>
        ensures first { result ≡ slice_get self.old.waiting 0 }
        ensures rest { self.new.waiting ≡ drop 1 self.old.waiting }
    {
        self.waiting.take_first()
    }
}
