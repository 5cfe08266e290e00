// What a node keeps place by place: sets of places, send counts, bodies. What is inside is known here only.
#![tactic(auto)]

pub mod count;
pub mod list;
pub mod row;
pub mod set;
pub mod store;
