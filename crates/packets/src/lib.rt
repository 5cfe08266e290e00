// The four packets: what bytes mean, read and written.
#![tactic(auto)]

pub mod acknowledgement;
pub mod bundle;
pub mod entry;
pub mod group;
pub mod header;
pub mod ids;
pub mod layout;
pub mod named;
pub mod packet;
pub mod request;
pub mod summary;
