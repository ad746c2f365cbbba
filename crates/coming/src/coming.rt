// The packets of one queue that are still to come in the cycle.
ghost use Rattle.std.specs.Prelude.{◌≡◌, ◌+◌, ◌^◌, ◌<◌, ◌≤◌, true, [], length, MatchOption};
ghost use Rattle.std.specs.List.{slice_get};
ghost use Rattle.traffic.specs.Sorts.{FirstFrom, NoneFrom};
ghost use Rattle.traffic.specs.Orders.{queue_before};
ghost use Rattle.table.specs.Order.{in_order};
ghost use Rattle.sheet.specs.Contents.{traffic_of};
ghost use Rattle.coming.specs.Coming.{waits_in, NextDue, NoneDue, Joins, Built, Stepped, Comes, held};
ghost use Rattle.coming.specs.Left.{left};
ghost use Rattle.coming.specs.Packets.{packets_before};

use sheet::sheet::Sheet;
use std::marker::Model;
use table::table::{put, show, take_first};
use traffic::flow::{Flow, MOST_FLOWS};
use traffic::packet::{Job, job_of};
use traffic::sort::Sort;

// One queue of a sheet.
#[derive(Clone, Copy)]
struct Lane<'a> {
    sheet: &'a Sheet,
    queue: u8,
}

impl<'a> Lane<'a> {
    // The number of the flow's first packet from a number on that waits in the queue. That `from` fits is asked as in `next_of_sort`.
    #[inline]
    fn next_number(&self, flow: &Flow, from: u64) -> Option<u64>
        requires { (1 ≤ from) × (from ≤ 2 ^ 63) × (0 < flow.now.queue) }
        ensures { MatchOption result (NoneFrom (waits_in self.now.queue flow.now) from) (FirstFrom (waits_in self.now.queue flow.now) from) }
    {
        if self.queue == 0 {
            flow.next_of_sort(Sort::Optional, from)
        } else if self.queue == flow.queue {
            flow.next_of_sort(Sort::Mandatory, from)
        } else {
            None
        }
    }

    // The next packet of flow `index` in the queue and in the cycle, from a number on.
    #[inline]
    fn next_job(&self, index: u8, from: u64) -> Option<Job>
        requires flow { (0 < index) × (index ≤ length (traffic_of self.now.sheet.now).flows) }
        requires number { (1 ≤ from) × (from ≤ 2 ^ 63) }
        ensures { MatchOption result (NoneDue (traffic_of self.now.sheet.now) self.now.sheet.now.cycle self.now.queue index from) (NextDue (traffic_of self.now.sheet.now) self.now.sheet.now.cycle self.now.queue index from) }
    {
        let flow = self.sheet.flow(index)?;
        let number = self.next_number(&flow, from)?;
        let job = job_of(self.sheet.rate(), index, &flow, number)?;
        (job.arrival < self.sheet.cycle()).then_some(job)
    }
}

// The packets of a queue that are still to come, by the next one of each flow in queue order: a value that is copied at will,
// and is given its sheet and its queue at each call.
#[derive(Clone, Copy)]
pub struct Queue {
    next: [Job; MOST_FLOWS],
    len: usize,
}

impl Queue {
    // A queue to which nothing comes.
    #[inline]
    pub fn none() -> Queue
        ensures { (result.len ≡ 0) × (held result ≡ []) }
    {
        Queue {
            next: [Job::default(); MOST_FLOWS],
            len: 0,
        }
    }

    // A flow's next packet from a number on joins, if there is one.
    #[inline]
    fn join(&mut self, lane: &Lane, index: u8, from: u64)
        requires flow { (0 < index) × (index ≤ length (traffic_of lane.now.sheet.now).flows) }
        requires number { (1 ≤ from) × (from ≤ 2 ^ 63) }
        requires room { self.old.len < MOST_FLOWS }
        requires ordered { in_order queue_before (held self.old) ≡ true }
        ensures joins { Joins (traffic_of lane.now.sheet.now) lane.now.sheet.now.cycle lane.now.queue index from (held self.old) (held self.new) }
        ensures count { self.new.len ≤ self.old.len + 1 }
    {
        if let Some(job) = lane.next_job(index, from) {
            if let Ok(more) = put(&mut self.next, self.len, job) {
                self.len = more;
            }
        }
    }

    // All packets of the queue in the cycle.
    #[inline]
    pub fn of(sheet: &Sheet, queue: u8) -> Queue
        ensures built { Built (traffic_of sheet.now) sheet.now.cycle queue (length (traffic_of sheet.now).flows) (held result) }
        ensures few { result.len ≤ 64 }
        ensures comes { Comes (traffic_of sheet.now) sheet.now.cycle queue result }
        ensures all { left (traffic_of sheet.now) sheet.now.cycle queue (held result) ≡ packets_before (traffic_of sheet.now) queue sheet.now.cycle }
    {
        let lane = Lane { sheet, queue };
        let mut made = Queue::none();
        for index in 1..sheet.flows().len() as u8 + 1 {
            made.join(&lane, index, 1);
        }
        made
    }

    // The first packet still to come.
    #[inline]
    pub fn first(&self) -> Option<Job>
        ensures { result ≡ slice_get (held self.now) 0 }
    {
        show(&self.next, self.len, 0)
    }

    // Takes the first packet still to come; the next one of its flow joins.
    #[inline]
    pub fn take(&mut self, sheet: &Sheet, queue: u8) -> Option<Job>
        requires { Comes (traffic_of sheet.now) sheet.now.cycle queue self.old }
        ensures took { MatchOption result ((held self.old ≡ []) × (held self.new ≡ [])) (λ x. Stepped (traffic_of sheet.now) sheet.now.cycle queue x (held self.old) (held self.new)) }
        ensures few { self.new.len ≤ 64 }
        ensures comes { Comes (traffic_of sheet.now) sheet.now.cycle queue self.new }
    {
        let (first, rest) = take_first(&mut self.next, self.len)?;
        self.len = rest;
        let lane = Lane { sheet, queue };
        self.join(&lane, first.flow, first.number + 1);
        Some(first)
    }
}

// The packets of a queue as a list, one after the other: clauses see those that are still to come.
#[derive(Drop)]
pub struct Packets<'a> {
    sheet: &'a Sheet,
    queue: u8,
    next: Queue,
}

impl<'a> Model for Packets<'a> {
    ghost use Rattle.std.specs.Prelude.{List};
    ghost use Rattle.traffic.specs.declared.packet.Job.{Job};

    ghost Value = { List Job };

    ghost use Rattle.sheet.specs.Contents.{traffic_of};
    ghost use Rattle.coming.specs.Coming.{Comes, held};
    ghost use Rattle.coming.specs.Left.{left};

    ghost view = { λ a. left (traffic_of a.sheet.now) a.sheet.now.cycle a.queue (held a.next) };

    ghost invariant = { λ a. Comes (traffic_of a.sheet.now) a.sheet.now.cycle a.queue a.next };
}

impl<'a> Packets<'a> {
    // All packets of the queue in the cycle, in queue order.
    #[inline]
    pub fn of(sheet: &'a Sheet, queue: u8) -> Packets<'a>
        ensures { result ≡ packets_before (traffic_of sheet.now) queue sheet.now.cycle }
    {
        Packets {
            sheet,
            queue,
            next: Queue::of(sheet, queue),
        }
    }

    // The first packet still to come.
    #[inline]
    pub fn first(&self) -> Option<Job>
        ensures { result ≡ slice_get self.now 0 }
    {
        self.next.first()
    }
}

// Takes one packet after another.
impl<'a> Iterator for Packets<'a> {
    type Item = Job;

    ghost use Rattle.std.specs.Iterator.{YieldsFirst, item_count};

    ghost next_gives = { YieldsFirst (λ q. q) };

    ghost remaining = { item_count (λ q. q) };

    #[inline]
    fn next(&mut self) -> Option<Job> {
        self.next.take(self.sheet, self.queue)
    }
}
