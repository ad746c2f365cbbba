// The eight queues of a port. A queue is a number below 8 here: packets and lists hold numbers, and a type would be made of
// them at each call.
ghost use Rattle.std.specs.Prelude.{◌≡◌, ℕ, ◌<◌, [], length};
ghost use Rattle.std.specs.List.{slice_get};
ghost use Rattle.sending.specs.Port.{holds};
ghost use Rattle.port.specs.Lanes.{queue_at, waiting_of, nothing_waits, LaneJoined, LaneLeft};

use gates::opening::QUEUES;
use table::owned::Table;
use traffic::flow::MOST_FLOWS;
use traffic::packet::{Job, Packet};

// A queue for each gate: the packets that wait there, each with what the sheet says of it, and a place for each flow.
#[derive(Drop)]
pub(crate) struct Lanes {
    queues: [Table<Job, MOST_FLOWS>; QUEUES],
}

impl Lanes {
    // Nothing waits.
    pub(crate) fn new() -> Lanes
        ensures { (q : ℕ) → queue_at result q ≡ [] }
    {
        Lanes {
            queues: std::array::from_fn(|_| Table::new()),
        }
    }

    // Does nothing wait at all?
    pub(crate) fn is_empty(&self) -> bool
        ensures { result ≡ nothing_waits self.now }
    {
        self.queues.iter().all(|queue| queue.is_empty())
    }

    // The first that waits in a queue, if there is one.
    pub(crate) fn first(&self, queue: u8) -> Option<Job>
        requires { queue < 8 }
        ensures { result ≡ slice_get (queue_at self.now queue) 0 }
    {
        self.queues[queue as usize].first()
    }

    // Does this packet wait in the queue?
    pub(crate) fn holds(&self, queue: u8, packet: &Packet) -> bool
        requires { queue < 8 }
        ensures { result ≡ holds (waiting_of self.now queue) packet.now }
    {
        let waiting = self.queues[queue as usize].records();
        waiting.iter().any(|job| *packet == Packet::from(*job))
    }

    // A packet joins its queue, where there is room.
    pub(crate) fn join(&mut self, job: Job)
        requires there { job.queue < 8 }
        requires room { length (queue_at self.old job.queue) < MOST_FLOWS }
        ensures { LaneJoined job self.old self.new }
    {
        let _ = self.queues[job.queue as usize].put(job);
    }

    // The first leaves the queue.
    pub(crate) fn leave(&mut self, queue: u8)
        requires { queue < 8 }
        ensures { LaneLeft queue self.old self.new }
    {
        let _ = self.queues[queue as usize].take_first();
    }
}
