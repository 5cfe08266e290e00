// Packets read and written back, and the laws that tie the two.
#![tactic(auto)]

pub mod back;
