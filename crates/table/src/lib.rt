// An ordered table: records of one type kept in their order in a caller's memory.
#![tactic(auto)]

pub mod full;
pub mod order;
pub mod owned;
pub mod table;
