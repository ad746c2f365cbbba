// The third step of an instant: a packet starts.
ghost use Rattle.std.specs.Prelude.{◌≡◌, ◌≤◌};
ghost use Rattle.gates.specs.Open.{open_at};
ghost use Rattle.port.specs.Station.{Sent};
ghost use Rattle.port.specs.Quiet.{can_start};

use super::Station;
use crate::membership::is_mandatory_packet;
use gates::entry::Entry;
use gates::opening::{open_at, open_for};
use traffic::packet::{Job, Packet};

impl<'a> Station<'a> {
    // What can start at an offset of the list, with its queue: the first behind the open gate, if the gate stays open for it.
    pub(super) fn can_start(&self, list: &[Entry], offset: u64) -> Option<(u8, Job)>
        ensures { result ≡ can_start self.now.lanes list.now offset (open_at list.now offset) }
    {
        let queue = open_at(list, offset)?;
        let first = self.lanes.first(queue)?;
        if open_for(list, queue, offset) < first.wire as u64 {
            return None;
        }
        Some((queue, first))
    }

    // Sends the first packet behind the open gate, if the wire is free and the gate stays open for it.
    pub(crate) fn send(&mut self, list: &[Entry], at: u64, offset: u64) -> Option<Packet>
        requires { at ≤ 4000000000000000000 }
        ensures { Sent list.now at offset result self.old self.new }
    {
        if self.free > at {
            return None;
        }
        let (queue, first) = self.can_start(list, offset)?;
        let packet = Packet::from(first);
        self.lanes.leave(queue);
        self.free = at + first.wire as u64;
        self.counts
            .add_start(is_mandatory_packet(self.sheet, &packet));
        Some(packet)
    }
}
