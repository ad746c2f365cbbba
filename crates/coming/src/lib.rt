// The packets of a queue that are still to come in the cycle.
#![tactic(auto)]

pub mod coming;
