// Serving orders, which decide between mandatory packets.
ghost use Rattle.std.specs.Prelude.{◌≡◌, ◌-◌, Bool, true, false, not};
ghost use Rattle.traffic.specs.declared.packet.Job.{Job};
ghost use Rattle.traffic.specs.Orders.{JobsDiffer, queue_before};
ghost use Rattle.search.specs.Serving.{deadline_monotonic, earliest_deadline};
ghost use Rattle.traffic.proofs.Keyed.{then_never, then_chained, then_decides};
ghost use Rattle.traffic.proofs.Total.{queue_order};

use traffic::orders::queue_before;
use traffic::packet::Job;

// An order between packets: of two that differ in flow or arrival exactly one is before the other. Each of the two below goes by
// a number, then by queue order; a tuple would need queue order as a key of its own. The number is all that differs, so each says it.
pub trait ServingOrder {
    // `before o x y`: under the order o, x is served before y
    ghost before: { Self → Job → Job → Bool };

    // Whether `x` is before `y`. The two stay apart: a pair would be made for each comparison.
    fn is_before(&self, x: &Job, y: &Job) -> bool
        ensures { result ≡ before self.now x.now y.now };

    // none is before itself
    ghost never: { (o : Self) (x : Job) → before o x x ≡ false };

    // before is transitive
    ghost chained: { (o : Self) (x y z : Job) → before o x y ≡ true → before o y z ≡ true → before o x z ≡ true };

    // of two that differ in flow or arrival exactly one is before the other
    ghost decides: { (o : Self) (x y : Job) → JobsDiffer x y → before o x y ≡ not (before o y x) };
}

// The packet with less time from its arrival to its deadline first, then queue order.
#[derive(Clone, Copy)]
pub struct DeadlineMonotonic;

impl ServingOrder for DeadlineMonotonic {
    ghost before = { λ _. deadline_monotonic };

    ghost never = { λ o x. then_never (x.deadline - x.arrival) (queue_before x x) (queue_order.never x) };

    ghost chained = { λ o x y z. then_chained (x.deadline - x.arrival) (y.deadline - y.arrival) (z.deadline - z.arrival) (queue_before x y) (queue_before y z) (queue_before x z) (queue_order.chained x y z) };

    ghost decides = { λ o x y d. then_decides (x.deadline - x.arrival) (y.deadline - y.arrival) (queue_before x y) (queue_before y x) (λ _. queue_order.decides x y d) };

    fn is_before(&self, x: &Job, y: &Job) -> bool {
        let a = x.deadline.saturating_sub(x.arrival);
        let b = y.deadline.saturating_sub(y.arrival);
        a < b || (a == b && queue_before(x, y))
    }
}

// The packet with the earlier deadline first, then queue order.
#[derive(Clone, Copy)]
pub struct EarliestDeadline;

impl ServingOrder for EarliestDeadline {
    ghost before = { λ _. earliest_deadline };

    ghost never = { λ o x. then_never x.deadline (queue_before x x) (queue_order.never x) };

    ghost chained = { λ o x y z. then_chained x.deadline y.deadline z.deadline (queue_before x y) (queue_before y z) (queue_before x z) (queue_order.chained x y z) };

    ghost decides = { λ o x y d. then_decides x.deadline y.deadline (queue_before x y) (queue_before y x) (λ _. queue_order.decides x y d) };

    fn is_before(&self, x: &Job, y: &Job) -> bool {
        x.deadline < y.deadline || (x.deadline == y.deadline && queue_before(x, y))
    }
}
