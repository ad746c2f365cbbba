// The port's calls.
ghost use Rattle.std.specs.Prelude.{◌≡◌, is_ok, MatchResult};
ghost use Rattle.sheet.specs.Contents.{traffic_of};
ghost use Rattle.sending.specs.InTime.{Accepted};
ghost use Rattle.sending.specs.Calls.{new_port, may_advance};
ghost use Rattle.port.specs.Counting.{counts_of};
ghost use Rattle.port.specs.Meaning.{meaning, Advances, Unmoved};

use super::Port;
use crate::counts::Counts;
use crate::start::{AdvanceFault, Start};
use crate::station::Station;
use arrivals::source::ArrivalSource;
use gates::entry::Entry;
use sheet::sheet::Sheet;

// The last instant to which the clock may go.
const LAST_INSTANT: u64 = 4_000_000_000_000_000_000;

impl<'a> Port<'a> {
    // A port on a list that was accepted for the sheet: the clock is at 0, nothing waits or pends, the wire is free.
    pub fn of(sheet: &'a Sheet, list: &'a [Entry]) -> Port<'a>
        requires { Accepted (traffic_of sheet.now) list.now }
        ensures { (result.station.sheet ≡ sheet.entry) × (meaning result ≡ new_port list.now) }
    {
        Port {
            list,
            pending: None,
            clock: 0,
            station: Station::new(sheet),
        }
    }

    // The first undecided instant.
    pub fn clock(&self) -> u64
        ensures { result ≡ (meaning self.now).clock }
    {
        self.clock
    }

    // The starts and the packets thrown away so far.
    pub fn counts(&self) -> Counts
        ensures { counts_of result ≡ (meaning self.now).counts }
    {
        self.station.counts()
    }

    // Decides the instants from the clock up to the given one, that one left out, and stops after a start, which it answers;
    // refused, with nothing changed, if the instant is below the clock or past the last one.
    pub fn advance<S: ArrivalSource>(
        &mut self,
        source: &mut S,
        until: u64,
    ) -> Result<Option<Start>, AdvanceFault>
        ensures allowed { is_ok result ≡ may_advance (meaning self.old) until }
        ensures cases { MatchResult result (λ o. Advances o until self.old (S.arrivals source.old) self.new (S.arrivals source.new)) (λ _. Unmoved self.old (S.arrivals source.old) self.new (S.arrivals source.new)) }
    {
        if until < self.clock || until > LAST_INSTANT {
            return Err(AdvanceFault);
        }
        Ok(self.run_to(source, until))
    }
}
