// A queue of waiting packets that is always in order.
ghost use Rattle.std.specs.Prelude.{◌≡◌, ◌≤◌, true, length};
ghost use Rattle.table.specs.Order.{in_order};
ghost use Rattle.table_uses.specs.Orders.{waits_before};

use crate::waiting::Waiting;
use table::owned::Table;

pub mod calls;

// At most 64 packets.
#[derive(Drop)]
pub struct Queue {
    waiting: Table<Waiting, 64>,
    ghost within: { length waiting ≤ 64 },
    ghost ordered: { in_order waits_before waiting ≡ true },
}
