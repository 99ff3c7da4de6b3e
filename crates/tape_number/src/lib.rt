// Numbers, as a tape writes them.
#![tactic(auto)]

pub mod fault;
pub mod number;
