// The second step of an instant: packets are taken.
ghost use Rattle.std.specs.Prelude.{◌≡◌, ℕ, ◌≤◌, length, if◌then◌else◌, Some, None};
ghost use Rattle.sending.specs.Sheet.{job_of};
ghost use Rattle.sending.specs.Calls.{welcome, take_in};
ghost use Rattle.port.specs.Station.{state_of, sheet_of, arrived_head, behind_arrived, TookIn, Room, TookAll};

use super::Station;
use crate::membership::{is_admitted, is_after, job_on_sheet};
use arrivals::source::ArrivalSource;
use gates::entry::Entry;
use traffic::packet::{Job, Packet};

// The head of the source, taken, if it has arrived by this instant.
fn next_arrived<S: ArrivalSource>(source: &mut S, at: u64) -> Option<Packet>
    ensures value { result ≡ arrived_head at (S.arrivals source.old) }
    ensures after { S.arrivals source.new ≡ behind_arrived at (S.arrivals source.old) }
{
    if source.head()?.arrival <= at {
        source.take()
    } else {
        None
    }
}

impl<'a> Station<'a> {
    // What the sheet says of a packet that is not foreign at this instant; none for a foreign one.
    fn welcome(&self, at: u64, packet: &Packet) -> Option<Job>
        requires { packet.now.arrival ≤ 4000000000000000000 }
        ensures { result ≡ (if welcome (sheet_of self.now) at self.now.last (state_of self.now) packet.now then Some (job_of (sheet_of self.now) packet.now) else None) }
    {
        let job = job_on_sheet(self.sheet, packet)?;
        let late = packet.arrival < at;
        if late || !is_after(self.last, packet) || self.lanes.holds(job.queue, packet) {
            return None;
        }
        Some(job)
    }

    // Takes a packet that has arrived: it joins its queue if it is welcome and admitted, else it is thrown away and counted.
    fn take_in(&mut self, list: &[Entry], at: u64, packet: Packet)
        requires arrived { (packet.arrival ≤ at) × (at ≤ 4000000000000000000) }
        requires room { (q : ℕ) → length ((take_in (sheet_of self.old) list.now at self.old.last (state_of self.old) packet).waiting q) ≤ 64 }
        ensures { TookIn list.now at packet self.old self.new }
    {
        let welcome = self.welcome(at, &packet);
        self.last = Some(packet);
        match welcome {
            Some(job) if is_admitted(self.sheet, list, &packet) => self.lanes.join(job),
            Some(_) => self.counts.add_unadmitted(),
            None => self.counts.add_foreign(),
        }
    }

    // Takes every packet that has arrived by this instant.
    pub(crate) fn take_arrived<S: ArrivalSource>(&mut self, list: &[Entry], at: u64, source: &mut S)
        requires early { at ≤ 4000000000000000000 }
        requires room { Room list.now at self.old }
        ensures { TookAll list.now at (S.arrivals source.old) self.old self.new (S.arrivals source.new) }
    {
        while let Some(packet) = next_arrived(source, at) {
            self.take_in(list, at, packet);
        }
    }
}
