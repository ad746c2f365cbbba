// A sheet of flows.
ghost use Rattle.std.specs.Prelude.{◌≡◌, ◌≤◌, true, vec_len};
ghost use Rattle.sheet.specs.Ranges.{all_kept};
ghost use Rattle.cycle.specs.Cycle.{cycle_of};

use traffic::flow::Flow;
use traffic::rate::Rate;

pub mod packets;
pub mod parts;
pub mod reads;

// The rate of the line, the flows, which count from 1, and their cycle; no flows where no sheet was read.
#[derive(Drop)]
pub struct Sheet {
    rate: Rate,
    flows: Vec<Flow>,
    cycle: u64,
    ghost few: { vec_len flows ≤ 64 },
    ghost kept: { all_kept rate flows.items ≡ true },
    ghost round: { cycle ≡ cycle_of flows.items },
    ghost short: { cycle ≤ 1000000000 },
}
