// The descriptions of a summary, read once and then worked in their order.
ghost use Rattle.std.specs.Prelude.{◌≡◌, ◌≤◌, List, [], length};
ghost use Rattle.database.specs.Nodes.{world};
ghost use Rattle.exchange.specs.Wanting.{described_all, lacks_places};
ghost use Rattle.arrivals.specs.Readings.{described_in};
ghost use Rattle.arrivals.specs.Summaries.{descriptions_of, listed};

use crate::naming::Naming;
use crate::walk::Walk;
use crate::want;
use database::node::Node;
use kinds::kind::Kind;
use packets::ids::{Name, NodeId};
use packets::layout::PacketType;
use packets::summary::Description;
use places::list;

// What the groups of a summary take at most; a description takes 16 bytes of it.
const MOST_BYTES: usize = 2032;

#[derive(Drop)]
pub struct Descriptions<K> {
    all: list::List<Naming<K>, 127>,
}

impl<K: Kind> Descriptions<K> {
    // Groups that are longer than those of a packet are passed over.
    pub fn read(groups: &[u8]) -> Descriptions<K>
        ensures { listed result ≡ descriptions_of K.model groups.now }
    {
        if groups.len() > MOST_BYTES {
            return Descriptions::none();
        }
        Descriptions::collect(groups)
    }

    fn none() -> Descriptions<K>
        ensures { listed result ≡ [] }
    {
        let naming = Naming {
            name: Name {
                node: NodeId { bytes: [0; 22] },
                number: 0,
            },
            instance: K::first(0, 0),
        };
        Descriptions {
            all: list::List::empty(naming),
        }
    }

    fn collect(groups: &[u8]) -> Descriptions<K>
        requires { length groups.now ≤ 2032 }
        ensures { listed result ≡ described_in K.model groups.now }
    {
        let mut descriptions = Descriptions::none();
        for (node, entry) in Walk::<Description>::start(PacketType::Summary, groups) {
            let naming = Naming::read(node, entry.number, entry.instance);
            descriptions.all.push(naming);
        }
        descriptions
    }

    // They need more want places than are free.
    pub fn lacks_places(&self, node: &Node, elements: &[K], line: usize) -> bool
        ensures { (ws : List K) → result ≡ lacks_places K.model line (world node.now elements.now ws) (listed self.now) }
    {
        want::is_short(node, elements, line, self.all.as_slice())
    }

    pub fn describe_all(&self, node: &mut Node, elements: &[K], wanted: &mut [K], line: usize)
        ensures { world node.new elements.now wanted.new ≡ described_all K.model line (listed self.now) (world node.old elements.now wanted.old) }
    {
        want::describe_each(node, elements, wanted, line, self.all.as_slice());
    }
}
