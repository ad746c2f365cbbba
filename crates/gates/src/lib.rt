// Gate lists: their entries, the text of a list, and which gate is open when.
#![tactic(auto)]

pub mod entry;
pub mod naming;
pub mod opening;
pub mod text;
