// A calendar's calls.
ghost use Rattle.std.specs.Prelude.{◌≡◌, ◌*◌, Some, MatchResult};
ghost use Rattle.traffic.specs.declared.packet.Packet.{Packet};
ghost use Rattle.sheet.specs.Contents.{traffic_of};
ghost use Rattle.arrivals.specs.Cursors.{from_cursors};
ghost use Rattle.arrivals.specs.Calendars.{calendar_fault, to_come, CalendarMade};

use super::Calendar;
use crate::cursors::{first_cursors, next_packet};
use crate::faults::CalendarFault;
use crate::source::ArrivalSource;
use sheet::sheet::Sheet;
use traffic::packet::Packet;
use traffic::sort::Sort;

// The most cycles of a calendar.
pub const MOST_CYCLES: u64 = 4_000_000_000;

impl<'a> Calendar<'a> {
    // The calendar of a sort for so many cycles: exactly the sheet's packets of the sort before their end, in order.
    pub fn new(sheet: &'a Sheet, sort: Sort, cycles: u64) -> Result<Calendar<'a>, CalendarFault>
        ensures { MatchResult result (λ c. CalendarMade sort sheet.now cycles (to_come c)) (λ e. calendar_fault (traffic_of sheet.now).flows cycles ≡ Some e) }
    {
        let flows = sheet.flows();
        if flows.is_empty() {
            return Err(CalendarFault::EmptySheet);
        }
        if !(1..=MOST_CYCLES).contains(&cycles) {
            return Err(CalendarFault::CyclesOutOfRange);
        }
        let end = cycles * sheet.cycle();
        let cursors = first_cursors(flows, sort, end);
        Ok(Calendar {
            sheet,
            sort,
            end,
            cursors,
        })
    }
}

impl<'a> ArrivalSource for Calendar<'a> {
    ghost arrivals = { λ c. from_cursors c.sort (traffic_of c.sheet.now).flows c.end c.cursors };

    fn head(&self) -> Option<Packet> {
        self.cursors.records().first().copied()
    }

    fn take(&mut self) -> Option<Packet> {
        let packet = self.cursors.take_first()?;
        let flow = self.sheet.flow(packet.flow)?;
        let from = packet.number + 1;
        if let Some(next) = next_packet(&flow, packet.flow, self.sort, from, self.end) {
            let _ = self.cursors.put(next);
        }
        Some(packet)
    }
}
