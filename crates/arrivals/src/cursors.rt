// Each flow's next packet, in delivery order.
ghost use Rattle.std.specs.Prelude.{◌^◌, ◌≤◌, length, MatchOption};
ghost use Rattle.arrivals.specs.Upcoming.{NoPacket, NextPacket};
ghost use Rattle.arrivals.specs.Cursors.{FirstCursors};

use table::owned::Table;
use traffic::flow::{Flow, MOST_FLOWS};
use traffic::packet::Packet;
use traffic::sort::Sort;

// The first packet of the sort of flow `index`, from packet `from` on, if it arrives before the end. No source needs what else
// `job_of` works out. That `from` fits is asked as in `next_of_sort`.
pub(crate) fn next_packet(flow: &Flow, index: u8, sort: Sort, from: u64, end: u64) -> Option<Packet>
    requires { (1 ≤ from) × (from ≤ 2 ^ 63) }
    ensures { MatchOption result (NoPacket sort flow.now from end) (NextPacket sort flow.now index from end) }
{
    let number = flow.next_of_sort(sort, from)?;
    let arrival = (number - 1).checked_mul(flow.period as u64)?;
    (arrival < end).then_some(Packet {
        flow: index,
        number,
        arrival,
    })
}

// The first packet of the sort of each flow that has one before the end; there is a place for each.
pub(crate) fn first_cursors(flows: &[Flow], sort: Sort, end: u64) -> Table<Packet, MOST_FLOWS>
    requires { length flows.now ≤ MOST_FLOWS }
    ensures { FirstCursors sort flows.now end result }
{
    let mut cursors = Table::new();
    for (index, flow) in (1..).zip(flows) {
        if let Some(packet) = next_packet(flow, index, sort, 1, end) {
            let _ = cursors.put(packet);
        }
    }
    cursors
}
