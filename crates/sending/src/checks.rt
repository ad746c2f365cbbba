// What a checker of lists and a search for lists stand on.
ghost use Rattle.sending.specs.Sheet.{ReadSheetsFit};
ghost use Rattle.sending.specs.Rules.{AtMostOneGate, RulesAgree};
ghost use Rattle.sending.specs.InTime.{AcceptsExactly, WindowsInTime};
ghost use Rattle.sending.specs.Verdict.{OneVerdict};
ghost use Rattle.sending.specs.Cycles.{LateWaits, SimulationFits};

// A sheet whose numbers keep their ranges has what the promises ask of one.
pub fn read_sheets_fit()
    ensures { ReadSheetsFit }
{}

// An entry that opens at most one gate by its test opens no two.
pub fn at_most_one_gate()
    ensures { AtMostOneGate }
{}

// A list breaks no rule exactly if it keeps them all.
pub fn rules_agree()
    ensures { RulesAgree }
{}

// The test of a list tells the accepted ones.
pub fn accepts_exactly()
    ensures { AcceptsExactly }
{}

// No list has two verdicts.
pub fn one_verdict()
    ensures { OneVerdict }
{}

// A packet is late exactly if it still waits when its last chance to start is over.
pub fn late_waits()
    ensures { LateWaits }
{}

// Until a deadline is missed no queue needs more than a place for each flow, whatever the list.
pub fn simulation_fits()
    ensures { SimulationFits }
{}

// Packets that have windows of their own are sent in time.
pub fn windows_in_time()
    ensures { WindowsInTime }
{}
