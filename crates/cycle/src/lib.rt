// The cycle in which the flows of a sheet repeat.
#![tactic(auto)]

pub mod cycle;
pub mod multiple;
#[cfg(test)]
mod tests;
