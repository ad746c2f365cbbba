// One instant after another. Instants are numbers up to the last one, and an end is not below the clock: `advance` tests both.
// Types for them would be taken apart at each sum.
ghost use Rattle.std.specs.Prelude.{◌≡◌, ◌<◌, ◌≤◌, ◌==◌};
ghost use Rattle.std.specs.Option.{option_map};
ghost use Rattle.sending.specs.Calls.{switch, still_pending};
ghost use Rattle.port.specs.Quiet.{Lasts, NotArrived, Unswitched};
ghost use Rattle.port.specs.Meaning.{traffic, Decides, Passes, Advances};

use super::Port;
use crate::start::Start;
use arrivals::source::ArrivalSource;
use gates::entry::Entry;
use traffic::packet::Packet;

// The list in force at an offset of the cycle, and the one that still pends: at its begin a pending list comes into force.
fn in_force<'a>(
    offset: u64,
    list: &'a [Entry],
    pending: Option<&'a [Entry]>,
) -> (&'a [Entry], Option<&'a [Entry]>)
    ensures force { result.0.now ≡ switch (offset == 0) list.now (option_map (λ x. x.now) pending.entry) }
    ensures pends { option_map (λ x. x.now) result.1 ≡ still_pending (offset == 0) (option_map (λ x. x.now) pending.entry) }
{
    match pending {
        Some(next) if offset == 0 => (next, None),
        _ => (list, pending),
    }
}

// The instant, from the clock on and not past the end, up to which the head of a source has not arrived.
fn before_arrival(head: Option<Packet>, clock: u64, end: u64) -> u64
    requires { clock ≤ end }
    ensures { Lasts (NotArrived head) clock end result }
{
    head.map_or(end, |packet| packet.arrival.clamp(clock, end))
}

impl<'a> Port<'a> {
    // Decides the instant at the clock, and answers what starts then.
    fn decide<S: ArrivalSource>(&mut self, source: &mut S) -> Option<Packet>
        requires { self.old.clock < 4000000000000000000 }
        ensures { Decides result self.old (S.arrivals source.old) self.new (S.arrivals source.new) }
    {
        let at = self.clock;
        let offset = self.station.offset(at);
        let (list, pending) = in_force(offset, self.list, self.pending);
        self.station.take_arrived(list, at, source);
        let start = self.station.send(list, at, offset);
        self.list = list;
        self.pending = pending;
        self.clock = at + 1;
        start
    }

    // The instant, from the clock on and not past the end, up to which no list comes into force.
    fn before_switch(&self, end: u64) -> u64
        requires { self.now.clock ≤ end }
        ensures { Lasts (Unswitched (traffic self.now) (option_map (λ x. x.now) self.now.pending)) self.now.clock end result }
    {
        if self.pending.is_none() {
            return end;
        }
        if self.station.offset(self.clock) == 0 {
            return self.clock;
        }
        (self.clock + self.station.cycle_left(self.clock)).min(end)
    }

    // Moves the clock over the instants at which nothing happens.
    fn pass(&mut self, head: Option<Packet>, end: u64)
        requires { (self.old.clock ≤ end) × (end ≤ 4000000000000000000) }
        ensures { Passes head end self.old self.new }
    {
        let clock = self.clock;
        let arrival = before_arrival(head, clock, end);
        let switch = self.before_switch(arrival);
        self.clock = self.station.before_start(self.list, clock, switch);
    }

    // Decides the instants up to the end, or up to a start, which it answers.
    pub(crate) fn run_to<S: ArrivalSource>(&mut self, source: &mut S, end: u64) -> Option<Start>
        requires { (self.old.clock ≤ end) × (end ≤ 4000000000000000000) }
        ensures { Advances result end self.old (S.arrivals source.old) self.new (S.arrivals source.new) }
    {
        while self.clock < end {
            let at = self.clock;
            if let Some(packet) = self.decide(source) {
                return Some(Start {
                    at,
                    flow: packet.flow,
                    number: packet.number,
                });
            }
            let head = source.head();
            self.pass(head, end);
        }
        None
    }
}
