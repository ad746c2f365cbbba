// What a sheet says of one flow, and of one packet.
ghost use Rattle.std.specs.Prelude.{◌≡◌, ◌+◌, ◌^◌, ◌&&◌, if◌then◌else◌, Some, None, nat_lt};
ghost use Rattle.traffic.specs.Packets.{flow_at, listed, arrival, job};
ghost use Rattle.sheet.specs.Contents.{traffic_of};

use super::Sheet;
use traffic::flow::Flow;
use traffic::packet::{Job, job_of};

impl Sheet {
    // Flow `index`, counted from 1, if it is there.
    #[inline]
    pub fn flow(&self, index: u8) -> Option<Flow>
        ensures { result ≡ (if listed (traffic_of self.now).flows index then Some (flow_at (traffic_of self.now).flows index) else None) }
    {
        let place = index.checked_sub(1)?;
        self.flows.get(place as usize).copied()
    }

    // Packet `number` of flow `index`, both counted from 1; none where the flow is not there or the packet's deadline passes 64 bits.
    #[inline]
    pub fn job(&self, index: u8, number: u64) -> Option<Job>
        ensures { result ≡ (if listed (traffic_of self.now).flows index && nat_lt (arrival (flow_at (traffic_of self.now).flows index) number + (flow_at (traffic_of self.now).flows index).deadline) (2 ^ 64) then Some (job (traffic_of self.now).rate index (flow_at (traffic_of self.now).flows index) number) else None) }
    {
        job_of(self.rate, index, &self.flow(index)?, number)
    }
}
