// The calls that a node answers after its start, and why they decline.
#![tactic(auto)]

pub mod down;
pub mod guard;
pub mod originate;
pub mod refusal;
pub mod second;
pub mod up;
