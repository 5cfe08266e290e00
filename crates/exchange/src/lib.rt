// What is handed out to one neighbour, and the definitions of what its packets do.
#![tactic(auto)]

pub mod select;
