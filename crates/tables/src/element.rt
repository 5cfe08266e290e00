// An element as its place keeps it. Its instance lies in the element row and its body in the store, at the same place.
use packets::ids::{Name, PeerGroupId};

#[derive(Clone, Copy)]
pub struct Element {
    pub name: Name,
    pub group: PeerGroupId,
    pub element_type: u16,
}
