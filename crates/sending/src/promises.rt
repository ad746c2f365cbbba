// What a port promises on accepted lists.
ghost use Rattle.sending.specs.Cycles.{InTimeOnce, FewLost, CyclesApart, LatestWaits};
ghost use Rattle.sending.specs.Promise.{AsThreeSteps, PortPunctual, QueuesApart, AnySource, StartsCounted, PacketsAccounted, Promise};

// Each admitted packet that turned up starts once and ends by its deadline.
pub fn in_time_once()
    ensures { InTimeOnce }
{}

// Of any k packets in a row a flow loses at most m, if the mandatory ones turned up.
pub fn few_lost()
    ensures { FewLost }
{}

// At each multiple of the cycle nothing waits and the wire is free.
pub fn cycles_apart()
    ensures { CyclesApart }
{}

// At most one packet of a flow waits, its latest.
pub fn latest_waits()
    ensures { LatestWaits }
{}

// Whatever the calls, the starts are those that the three steps give.
pub fn as_three_steps()
    ensures { AsThreeSteps }
{}

// Each admitted packet that turned up is started once and in time, and flows lose no more than they may.
pub fn port_punctual()
    ensures { PortPunctual }
{}

// Two runs with the same packets of a queue and the same lists start them at the same instants.
pub fn queues_apart()
    ensures { QueuesApart }
{}

// Of any source at all the port takes what the three steps can use.
pub fn any_source()
    ensures { AnySource }
{}

// The counts of starts are those of the starts answered.
pub fn starts_counted()
    ensures { StartsCounted }
{}

// Every packet of a source has started, waits, was counted as thrown away, or is still to come.
pub fn packets_accounted()
    ensures { PacketsAccounted }
{}

// The promise of a port, whole.
pub fn promise_kept()
    ensures { Promise }
{}
