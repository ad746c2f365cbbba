// A port of a switch: eight queues of waiting packets behind the gates of a list.
#![tactic(auto)]

pub mod counts;
mod lanes;
mod membership;
pub mod port;
pub mod start;
mod station;
