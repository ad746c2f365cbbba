// The merge of two sources.
ghost use Rattle.std.specs.Prelude.{◌≡◌};
ghost use Rattle.traffic.specs.declared.packet.Packet.{Packet};
ghost use Rattle.arrivals.specs.Merges.{merged, second_first, MergeLaws};

use crate::source::ArrivalSource;
use traffic::orders::delivered_before;
use traffic::packet::Packet;

// Is the second of two heads the one to take? Of equals the first is taken.
fn is_second(first: &Option<Packet>, second: &Option<Packet>) -> bool
    ensures { result ≡ second_first first.now second.now }
{
    match (first, second) {
        (Some(x), Some(y)) => delivered_before(y, x),
        (None, Some(_)) => true,
        (_, None) => false,
    }
}

// Two sources as one: the head that is first in delivery order, of equals the first source's.
#[derive(Drop)]
pub struct Merge<P, Q> {
    first: P,
    second: Q,
}

impl<P: ArrivalSource, Q: ArrivalSource> Merge<P, Q> {
    // The merge of two sources: all packets of both; of sources in order it never falls, and comes in order where they share no place.
    pub fn new(first: P, second: Q) -> Merge<P, Q>
        ensures parts { (result.first ≡ first) × (result.second ≡ second) }
        ensures laws { MergeLaws (P.ArrivalSource.arrivals first) (Q.ArrivalSource.arrivals second) }
    {
        Merge { first, second }
    }
}

impl<P: ArrivalSource, Q: ArrivalSource> ArrivalSource for Merge<P, Q> {
    ghost arrivals = { λ s. merged (P.ArrivalSource.arrivals s.first) (Q.ArrivalSource.arrivals s.second) };

    // Asks each source once: a choice shared with `take` would ask the chosen one again, at each level of merges.
    fn head(&self) -> Option<Packet> {
        let a = self.first.head();
        let b = self.second.head();
        if is_second(&a, &b) { b } else { a }
    }

    fn take(&mut self) -> Option<Packet> {
        let a = self.first.head();
        let b = self.second.head();
        if is_second(&a, &b) {
            self.second.take()
        } else {
            self.first.take()
        }
    }
}
