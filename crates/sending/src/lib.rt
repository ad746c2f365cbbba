// How a gated port sends, instant by instant, and what it promises. Each function stands for a theorem:
// its clause is a statement of specs/, and its body is empty.
#![tactic(auto)]

pub mod checks;
pub mod every_run;
pub mod promises;
pub mod worked;
