// What the packets of a neighbour do to the node and its rows.
#![tactic(auto)]

pub mod acknowledgement;
pub mod arrive;
pub mod bundle;
mod marking;
pub mod naming;
pub mod request;
pub mod summary;
mod walk;
pub mod want;
