// Our own packets, written from the tables into a buffer.
#![tactic(auto)]

pub mod acknowledgement;
pub mod bundle;
pub mod frame;
pub mod request;
pub mod summary;
