// What entries of a packet name.
ghost use Rattle.std.specs.Prelude.{◌≡◌};
ghost use Rattle.exchange.specs.Namings.{naming};
ghost use Rattle.arrivals.specs.Readings.{naming_view};

use kinds::kind::Kind;
use packets::ids::{Name, NodeId};

// An instance and the name that it is of.
#[derive(Clone, Copy)]
pub struct Naming<K> {
    pub name: Name,
    pub instance: K,
}

impl<K: Kind> Naming<K> {
    // As an entry has it, under the node ID of its group.
    pub(crate) fn read(node: NodeId, number: u32, instance: [u8; 8]) -> Naming<K>
        ensures { naming_view result ≡ naming K.model node.bytes number instance }
    {
        Naming {
            name: Name { node, number },
            instance: K::read(instance),
        }
    }
}
