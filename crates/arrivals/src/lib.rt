// Where a port's packets come from: sources of packets, as lists of what is still to come.
#![tactic(auto)]

pub mod calendar;
pub mod capture;
mod cursors;
pub mod faults;
pub mod merge;
pub mod sort;
pub mod source;
