// A capture: a source over a caller's table of packets.
ghost use Rattle.std.specs.Prelude.{◌≡◌, MatchResult};
ghost use Rattle.traffic.specs.declared.packet.Packet.{Packet};
ghost use Rattle.traffic.specs.Orders.{delivered_before};
ghost use Rattle.arrivals.specs.Captures.{Captured, FirstFault};

use crate::faults::CaptureFault;
use crate::source::ArrivalSource;
use traffic::orders::delivered_before;
use traffic::packet::Packet;

// The most packets that a capture has.
pub const MOST_PACKETS: usize = 4096;

// Does the next record rise above the one in front of it? An equal does not. It is delivery order, by the name that the
// rule of a capture has.
fn rises(front: &Packet, next: &Packet) -> bool
    ensures { result ≡ delivered_before front.now next.now }
{
    delivered_before(front, next)
}

// The packets of the table that were not taken yet.
#[derive(Drop)]
pub struct Capture<'a> {
    left: &'a [Packet],
}

impl<'a> Capture<'a> {
    // A capture of the whole table, which comes in order; refused at the first record that does not rise or is one too many.
    pub fn new(packets: &'a [Packet]) -> Result<Capture<'a>, CaptureFault>
        ensures { MatchResult result (λ c. Captured packets.now c.left.now) (λ e. FirstFault packets.now e.place) }
    {
        // the limit is tested once: a test of it at each record made the loop slower
        let few = &packets[..MOST_PACKETS.min(packets.len())];
        for (place, [front, next]) in (2u32..).zip(few.array_windows::<2>()) {
            if !rises(front, next) {
                return Err(CaptureFault { place });
            }
        }
        if packets.len() > MOST_PACKETS {
            return Err(CaptureFault {
                place: MOST_PACKETS as u32 + 1,
            });
        }
        Ok(Capture { left: packets })
    }
}

impl<'a> ArrivalSource for Capture<'a> {
    ghost arrivals = { λ s. s.left.now };

    fn head(&self) -> Option<Packet> {
        self.left.first().copied()
    }

    fn take(&mut self) -> Option<Packet> {
        let (packet, left) = self.left.split_first()?;
        self.left = left;
        Some(*packet)
    }
}
