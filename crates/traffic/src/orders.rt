// The orders between packets.
ghost use Rattle.std.specs.Prelude.{◌≡◌};
ghost use Rattle.traffic.specs.Orders.{StrictOrder, lightness, queue_before, delivered_before, JobsDiffer, PacketsDiffer};
ghost use Rattle.traffic.specs.Behind.{queue_asym, queue-behind, delivery_asym, delivery-behind};

use crate::packet::{Job, Packet};
use table::order::Ordered;

// What the weight says in queue order: it counts in queue 0 only, the greater first.
fn lightness(x: &Job) -> u8
    ensures { result ≡ lightness x.now }
{
    if x.queue == 0 { 255 - x.weight } else { 0 }
}

// Queue order: earlier arrival, in queue 0 greater weight, earlier deadline, greater wire time, smaller flow.
#[tactic(auto, using(crate::proofs::Total::queue_order))]
pub fn queue_before(x: &Job, y: &Job) -> bool
    ensures value { result ≡ queue_before x.now y.now }
    ensures order { StrictOrder queue_before JobsDiffer }
{
    x.arrival < y.arrival
        || (x.arrival == y.arrival
            && (lightness(x), x.deadline, y.wire, x.flow)
                < (lightness(y), y.deadline, x.wire, y.flow))
}

// Delivery order: earlier arrival, then smaller flow.
pub fn delivered_before(p: &Packet, q: &Packet) -> bool
    ensures value { result ≡ delivered_before p.now q.now }
    ensures order { StrictOrder delivered_before PacketsDiffer }
{
    p.arrival < q.arrival || (p.arrival == q.arrival && p.flow < q.flow)
}

// The packets of a queue stand in queue order.
impl Ordered for Job {
    ghost before = { queue_before };

    ghost asym = { queue_asym };

    ghost behind = { queue-behind };

    fn precedes(&self, other: &Job) -> bool {
        queue_before(self, other)
    }
}

// The packets of a source stand in delivery order.
impl Ordered for Packet {
    ghost before = { delivered_before };

    ghost asym = { delivery_asym };

    ghost behind = { delivery-behind };

    fn precedes(&self, other: &Packet) -> bool {
        delivered_before(self, other)
    }
}
