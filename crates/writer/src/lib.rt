// Packets being written, in three states that move from step to step.
#![tactic(auto)]

pub mod states;
