// The search for a gate list: a walk over the mandatory packets, then a trial of each optional one.
#![tactic(auto)]

mod drawing;
pub mod fault;
mod queues;
mod schedule;
pub mod search;
pub mod serving;
mod trials;
mod walk;
pub mod window;
