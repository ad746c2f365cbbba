// What the flows of a sheet send: wire time, pattern, packets, and the orders between packets.
#![tactic(auto)]

pub mod flow;
pub mod orders;
pub mod packet;
pub mod pattern;
pub mod rate;
pub mod sort;
