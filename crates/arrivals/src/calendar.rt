// A calendar: the packets of one sort of a sheet, cycle after cycle.
ghost use Rattle.std.specs.Prelude.{◌≡◌, ◌≤◌, true};
ghost use Rattle.sheet.specs.Contents.{traffic_of};
ghost use Rattle.arrivals.specs.Cursors.{standing};

use sheet::sheet::Sheet;
use table::owned::Table;
use traffic::flow::MOST_FLOWS;
use traffic::packet::Packet;
use traffic::sort::Sort;

pub mod both;
pub mod calls;

// The packets of the sort of the sheet's flows that arrive before the end, from the cursors on: each flow's next packet.
#[derive(Drop)]
pub struct Calendar<'a> {
    sheet: &'a Sheet,
    sort: Sort,
    end: u64,
    cursors: Table<Packet, MOST_FLOWS>,
    ghost early: { end ≤ 4000000000000000000 },
    ghost stands: { standing sort (traffic_of sheet.now).flows end cursors ≡ true },
}
