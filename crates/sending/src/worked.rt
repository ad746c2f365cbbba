// Worked examples, shown of the definitions.
ghost use Rattle.sending.specs.Examples.{WorkedLists, WorkedRun};

// The worked lists: which are accepted, and what the others break.
pub fn worked_lists()
    ensures { WorkedLists }
{}

// The worked run: three advances to 20,000 answer two starts and then none.
pub fn worked_run()
    ensures { WorkedRun }
{}
