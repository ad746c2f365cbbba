// How long nothing starts.
ghost use Rattle.std.specs.Prelude.{◌≡◌, ◌≤◌};
ghost use Rattle.port.specs.Station.{state_of, sheet_of};
ghost use Rattle.port.specs.Quiet.{Lasts, Unsent, steady, rests_until};

use super::Station;
use gates::entry::Entry;
use gates::opening::entry_at;

// How long the gates stay as they are from an offset of a list on, within its entry; 0 past the end of the list.
fn steady(list: &[Entry], offset: u64) -> u64
    ensures { result ≡ steady list.now offset }
{
    entry_at(list, offset).map_or(0, |(_, left)| left)
}

impl<'a> Station<'a> {
    // The instant, from the clock on and not past the end, up to which nothing can start, if nothing comes:
    // the end if nothing waits, else the end of what is on the wire or of the list's entry.
    pub(crate) fn before_start(&self, list: &[Entry], clock: u64, end: u64) -> u64
        requires { (clock ≤ end) × (end ≤ 4000000000000000000) }
        ensures until { result ≡ rests_until self.now list.now clock end }
        ensures quiet { Lasts (Unsent (sheet_of self.now) list.now (state_of self.now)) clock end result }
    {
        if self.lanes.is_empty() {
            return end;
        }
        if self.free > clock {
            return self.free.min(end);
        }
        let offset = self.offset(clock);
        if self.can_start(list, offset).is_some() {
            return clock;
        }
        let still = steady(list, offset).min(self.cycle_left(clock));
        (clock + still).min(end)
    }
}
