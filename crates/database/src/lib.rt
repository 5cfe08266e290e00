// The database of one node: what it keeps, and the few operations of which every call is made.
#![tactic(auto)]

pub mod entry;
pub mod node;
pub mod search;
pub mod second;
