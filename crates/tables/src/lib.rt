// The tables of a node and their records: elements by place, lines with their marks, wants.
#![tactic(auto)]

pub mod element;
pub mod search;
pub mod verdict;
pub mod want;
pub mod wants;
