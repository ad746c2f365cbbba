// What holds of every run of a port.
ghost use Rattle.sending.specs.Laws.{ArrivingExactly, WaitsInOrder, NoneEarly, OnlyAdmitted, NoOverlap, GateOpen, FirstInFirstOut};
ghost use Rattle.sending.specs.Jumps.{QuietInstants, AdvanceSplits};
ghost use Rattle.sending.specs.Cycles.{QueueAlone};

// What comes to a queue at an instant are the admitted packets of the sheet that arrive then and wait there.
pub fn arriving_exactly()
    ensures { ArrivingExactly }
{}

// What waits always stands in queue order.
pub fn waits_in_order()
    ensures { WaitsInOrder }
{}

// A start never precedes the arrival.
pub fn none_early()
    ensures { NoneEarly }
{}

// Only admitted packets of the sheet that turned up start.
pub fn only_admitted()
    ensures { OnlyAdmitted }
{}

// Two packets never overlap on the wire.
pub fn no_overlap()
    ensures { NoOverlap }
{}

// Over the whole of every packet the gate of its queue is open.
pub fn gate_open()
    ensures { GateOpen }
{}

// Each queue is first in, first out.
pub fn first_in_first_out()
    ensures { FirstInFirstOut }
{}

// A queue's starts hang on its own packets and the lists in force alone.
pub fn queue_alone()
    ensures { QueueAlone }
{}

// Over quiet instants only the clock goes on.
pub fn quiet_instants()
    ensures { QuietInstants }
{}

// An advance may go in parts.
pub fn advance_splits()
    ensures { AdvanceSplits }
{}
