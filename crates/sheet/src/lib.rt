// The flow sheet: its text, its flows and its cycle.
#![tactic(auto)]

mod cuts;
mod digits;
pub mod faults;
mod lines;
mod reader;
pub mod refusals;
pub mod sheet;
