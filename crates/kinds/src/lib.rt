// What the eight bytes that tell the instances of an element apart mean.
#![tactic(auto)]

pub mod ageing;
pub mod cache;
pub mod kind;
pub mod rank;
pub mod recency;
pub mod topology;
