// What a port has at hand. A list, an instant and its offset are parameters of the steps, since they change from instant to instant;
// that an instant is not past the last one is asked as in `port::instants`.
ghost use Rattle.std.specs.Prelude.{◌≡◌, ℕ, [], None};
ghost use Rattle.sheet.specs.Contents.{traffic_of};
ghost use Rattle.sending.specs.Calls.{no_counts};
ghost use Rattle.port.specs.Counting.{counts_of};
ghost use Rattle.port.specs.Lanes.{queue_at, Lined};

use crate::counts::Counts;
use crate::lanes::Lanes;
use sheet::sheet::Sheet;
use traffic::packet::Packet;

mod outgoing;
mod resting;
mod taking;
mod timing;

// The sheet, what waits, up to when the wire is taken, the packet taken last, and the counts.
#[derive(Drop)]
pub(crate) struct Station<'a> {
    sheet: &'a Sheet,
    lanes: Lanes,
    free: u64,
    last: Option<Packet>,
    counts: Counts,
    ghost lined: { Lined (traffic_of sheet.now) lanes },
}

impl<'a> Station<'a> {
    // Nothing waits, the wire is free, nothing was taken or counted.
    pub(crate) fn new(sheet: &'a Sheet) -> Station<'a>
        ensures sheet { result.sheet ≡ sheet.entry }
        ensures lanes { (q : ℕ) → queue_at result.lanes q ≡ [] }
        ensures parts { (result.free ≡ 0) × (result.last ≡ None) × (counts_of result.counts ≡ no_counts) }
    {
        Station {
            sheet,
            lanes: Lanes::new(),
            free: 0,
            last: None,
            counts: Counts::none(),
        }
    }

    // The counts so far.
    pub(crate) fn counts(&self) -> Counts
        ensures { result ≡ self.now.counts }
    {
        self.counts
    }
}
