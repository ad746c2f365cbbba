// Two record types with orders of their own, each in an ordered table.
#![tactic(auto)]

pub mod queue;
#[cfg(test)]
mod tests;
pub mod waiting;
pub mod windows;
