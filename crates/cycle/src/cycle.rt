// The cycle of the flows of a sheet, and a packet's number in it.
ghost use Rattle.std.specs.Prelude.{◌≡◌, ◌<◌, map, if◌then◌else◌, Some, None, nat_eq};
ghost use Rattle.std.specs.Int.{◌∣◌};
ghost use Rattle.std.specs.List.{AllByRecursion};
ghost use Rattle.cycle.specs.Multiple.{lcm_of, from_one_to};
ghost use Rattle.cycle.specs.Cycle.{pattern_time, cycle_of, packets_in, number_in_cycle, KeepsPlace};

use crate::multiple::lcm_within;
use traffic::flow::Flow;
use traffic::pattern::pattern;

// The longest cycle that a sheet may have, in nanoseconds.
pub const LONGEST_CYCLE: u64 = 1_000_000_000;

// The time that a whole pattern of the flow takes.
pub fn pattern_time(flow: &Flow) -> u64
    ensures { result ≡ pattern_time flow.now }
{
    let (w, h) = pattern(flow.miss, flow.among);
    (w as u64 + h as u64) * flow.period as u64
}

// The cycle of the flows, where it is from 1 to the limit: a flow with period 0 leaves none.
pub fn cycle_within(flows: &[Flow], limit: u64) -> Option<u64>
    ensures value { result ≡ from_one_to limit (cycle_of flows.now) }
    ensures one_rule { cycle_of flows.now ≡ lcm_of (map pattern_time flows.now) }
    ensures whole { AllByRecursion (λ f. pattern_time f ∣ cycle_of flows.now) flows.now }
    ensures some { AllByRecursion (λ f. 0 < f.period) flows.now → 0 < cycle_of flows.now }
{
    let mut cycle = 1;
    for flow in flows {
        cycle = lcm_within(cycle, pattern_time(flow), limit)?;
    }
    (cycle > 0 && cycle <= limit).then_some(cycle)
}

// The number in the cycle of packet `number` of the flow; none where no packet of the flow is in the cycle.
pub fn number_in_cycle(cycle: u64, flow: &Flow, number: u64) -> Option<u64>
    ensures value { result ≡ (if nat_eq (packets_in cycle flow.now) 0 then None else Some (number_in_cycle cycle flow.now number)) }
    ensures same { KeepsPlace cycle flow.now number }
{
    let packets = cycle.checked_div(flow.period as u64)?;
    let place = number.saturating_sub(1).checked_rem(packets)?;
    Some(place + 1)
}
