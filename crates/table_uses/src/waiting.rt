// Waiting packets by arrival, and those of one arrival by flow.
ghost use Rattle.table_uses.specs.Orders.{waits_before};
ghost use Rattle.std.proofs.Common.{rules};

use table::order::Ordered;

// A packet that waits: its flow, its number and its arrival. Crate `traffic` has such a type; this one shows how a type gets
// an order, on `table` alone.
#[derive(Clone, Copy, PartialEq, Eq, Debug, Default)]
pub struct Waiting {
    pub flow: u8,
    pub number: u64,
    pub arrival: u64,
}

impl Ordered for Waiting {
    ghost before = { waits_before };

    ghost asym = { Prim.search rules };

    ghost behind = { Prim.search rules };

    fn precedes(&self, other: &Waiting) -> bool {
        (self.arrival, self.flow) < (other.arrival, other.flow)
    }
}
