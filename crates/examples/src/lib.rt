// The worked examples, shown of the definitions themselves.
#![tactic(auto)]

ghost use Rattle.examples.specs.Worked.{WorkedExamples};

use sending::worked::{worked_lists, worked_run};

// The examples hold.
pub fn worked_examples()
    ensures { WorkedExamples }
{
    worked_lists();
    worked_run();
}
