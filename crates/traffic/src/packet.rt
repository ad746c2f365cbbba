// Packets, and what the sheet says of them.
ghost use Rattle.std.specs.Prelude.{◌≡◌, ◌+◌, ◌^◌, ◌<◌, if◌then◌else◌, Some, None, nat_lt};
ghost use Rattle.traffic.specs.Packets.{job, arrival, packet_of};

use crate::flow::Flow;
use crate::pattern::is_mandatory;
use crate::rate::{Rate, wire_time};

// A packet as an arrival source hands it over: its flow, its number there counted from 1, and when it arrives.
#[derive(Clone, Copy, PartialEq, Eq, Debug, Default)]
pub struct Packet {
    pub flow: u8,
    pub number: u64,
    pub arrival: u64,
}

// A packet of the sheet with what the sheet says of it: the queue in which it waits (0 if it is optional),
// the instant by which it must have been sent, its time on the wire, and the weight of its flow.
#[derive(Clone, Copy, PartialEq, Eq, Debug, Default)]
pub struct Job {
    pub flow: u8,
    pub number: u64,
    pub queue: u8,
    pub arrival: u64,
    pub deadline: u64,
    pub wire: u32,
    pub weight: u8,
}

// The packet of which the sheet says this.
impl From<Job> for Packet {
    ghost from_gives = { λ x p. p ≡ packet_of x };

    fn from(job: Job) -> Packet {
        Packet {
            flow: job.flow,
            number: job.number,
            arrival: job.arrival,
        }
    }
}

// Packet `number` of flow `index`, counted from 1; none where its deadline passes 64 bits.
pub fn job_of(rate: Rate, index: u8, flow: &Flow, number: u64) -> Option<Job>
    ensures { result ≡ (if nat_lt (arrival flow.now number + flow.now.deadline) (2 ^ 64) then Some (job rate index flow.now number) else None) }
{
    let arrival = number.saturating_sub(1).checked_mul(flow.period as u64)?;
    let deadline = arrival.checked_add(flow.deadline as u64)?;
    let queue = if is_mandatory(flow, number) {
        flow.queue
    } else {
        0
    };
    Some(Job {
        flow: index,
        number,
        queue,
        arrival,
        deadline,
        wire: wire_time(rate, flow.octets),
        weight: flow.weight,
    })
}
