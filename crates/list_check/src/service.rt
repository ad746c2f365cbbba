// How a queue is served, packet by packet, and which late packet is due first.
ghost use Rattle.std.specs.Prelude.{◌≡◌, ◌≤◌};
ghost use Rattle.list_check.specs.Service.{least_due, past};

use crate::fit::Cursor;
use gates::entry::Entry;
use traffic::packet::Job;

// How far a queue is served: up to when its packets take the wire, and where the list stands then.
#[derive(Clone, Copy)]
pub(crate) struct Service<'a> {
    free: u64,
    cursor: Cursor<'a>,
    ghost onward: { cursor.opened ≤ free },
    ghost early: { free ≤ 2000000000 },
}

impl<'a> Service<'a> {
    ghost use Rattle.std.specs.Prelude.{ℕ, List, MatchOption};
    ghost use Rattle.gates.specs.declared.entry.Entry.{Entry};
    ghost use Rattle.list_check.specs.Fit.{Placed, Sound};
    ghost use Rattle.list_check.specs.Service.{Bounded, Misses, Sends};

    // Nothing is served yet.
    pub(crate) fn start(list: &'a [Entry]) -> Service<'a>
        requires { Sound list.now }
        ensures free { result.free ≡ 0 }
        ensures placed { Placed list.now result.cursor }
    {
        Service {
            free: 0,
            cursor: Cursor::start(list),
        }
    }

    // Serves the next packet of the queue at its first fit; none where it is late.
    pub(crate) fn serve(self, x: &Job) -> Option<Service<'a>>
        requires { Bounded x.now }
        ensures { (es : List Entry) → Sound es → Placed es self.entry.cursor → MatchOption result (Misses es x.now self.entry.free) (λ s. Placed es s.cursor × ((t : ℕ) × Sends es x.now self.entry.free s.free t)) }
    {
        let from = x.arrival.max(self.free);
        let cursor = self.cursor.moved_to(from);
        let start = cursor.first_fit(x.queue, from, x.wire)?;
        let free = start.saturating_add(x.wire as u64);
        if free > x.deadline {
            return None;
        }
        Some(Service { free, cursor })
    }
}

// Of two late packets the one that is due first; of equals the one of the smaller flow.
pub(crate) fn due_first(worst: Option<Job>, x: Job) -> Job
    ensures { result ≡ least_due worst x }
{
    match worst {
        Some(w) if (x.deadline, x.flow) >= (w.deadline, w.flow) => w,
        _ => x,
    }
}

// Does the packet arrive when the late one is due, or later?
pub(crate) fn is_past(worst: Option<Job>, x: &Job) -> bool
    ensures { result ≡ past worst x.now }
{
    worst.is_some_and(|w| w.deadline <= x.arrival)
}
