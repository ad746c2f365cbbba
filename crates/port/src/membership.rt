// Which packets are of the sheet, and which of them a list admits. Sheet and packet stay apart: a value of both would be made
// at three places, for one call each.
ghost use Rattle.std.specs.Prelude.{◌≡◌, ◌≤◌, true, if◌then◌else◌, Some, None};
ghost use Rattle.sheet.specs.Contents.{traffic_of};
ghost use Rattle.cycle.specs.Cycle.{number_in_cycle};
ghost use Rattle.sending.specs.Sheet.{cycle, flow, job_of, mandatory};
ghost use Rattle.sending.specs.Rules.{admitted};
ghost use Rattle.sending.specs.Calls.{of_sheet, after};

use cycle::cycle::number_in_cycle;
use gates::entry::Entry;
use gates::naming::is_named;
use sheet::sheet::Sheet;
use traffic::orders::delivered_before;
use traffic::packet::{Job, Packet};
use traffic::pattern::is_mandatory;

// What the sheet says of a packet; none where the packet is not of the sheet.
pub(crate) fn job_on_sheet(sheet: &Sheet, packet: &Packet) -> Option<Job>
    requires { packet.now.arrival ≤ 4000000000000000000 }
    ensures { result ≡ (if of_sheet (traffic_of sheet.now) packet.now then Some (job_of (traffic_of sheet.now) packet.now) else None) }
{
    // Number 0 is told first: all that `job` works out would be for nothing.
    if packet.number == 0 {
        return None;
    }
    sheet
        .job(packet.flow, packet.number)
        .filter(|job| job.arrival == packet.arrival)
}

// Does the packet come after the one taken before it?
pub(crate) fn is_after(last: Option<Packet>, packet: &Packet) -> bool
    ensures { result ≡ after last packet.now }
{
    last.is_none_or(|front| delivered_before(&front, packet))
}

// Is the packet of the sheet mandatory?
pub(crate) fn is_mandatory_packet(sheet: &Sheet, packet: &Packet) -> bool
    requires { of_sheet (traffic_of sheet.now) packet.now ≡ true }
    ensures { result ≡ mandatory (traffic_of sheet.now) packet.now }
{
    sheet
        .flow(packet.flow)
        .is_some_and(|flow| is_mandatory(&flow, packet.number))
}

// The number in the cycle of a packet of the sheet.
fn cycle_number(sheet: &Sheet, packet: &Packet) -> Option<u64>
    requires { of_sheet (traffic_of sheet.now) packet.now ≡ true }
    ensures { result ≡ Some (number_in_cycle (cycle (traffic_of sheet.now)) (flow (traffic_of sheet.now) packet.now.flow) packet.now.number) }
{
    number_in_cycle(sheet.cycle(), &sheet.flow(packet.flow)?, packet.number)
}

// Does the list admit the packet of the sheet?
pub(crate) fn is_admitted(sheet: &Sheet, list: &[Entry], packet: &Packet) -> bool
    requires { of_sheet (traffic_of sheet.now) packet.now ≡ true }
    ensures { result ≡ admitted (traffic_of sheet.now) list.now packet.now }
{
    is_mandatory_packet(sheet, packet)
        || cycle_number(sheet, packet).is_some_and(|number| is_named(list, packet.flow, number))
}
