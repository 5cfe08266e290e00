// The elements of a bundle, one after the other.
ghost use Rattle.std.specs.Prelude.{◌≡◌, ◌+◌, ◌≤◌, [], length};
ghost use Rattle.database.specs.Nodes.{world};
ghost use Rattle.exchange.specs.Arrivals.{acknowledged_of, acknowledgement_of, arrival_of, arrived, bundle_world, left_by, left_of, verdict_on};
ghost use Rattle.packets.specs.Bundles.{element_at};
ghost use Rattle.places.specs.Lists.{listed};
ghost use Rattle.arrivals.specs.Bundles.{HasPlace, bundled, element_view, elements_in, noted};

use crate::arrive::arrive;
use database::node::Node;
use kinds::kind::Kind;
use packets::acknowledgement::Acknowledged;
use packets::bundle;
use packets::bundle::Bundle;
use packets::group::Groups;
use packets::ids::Name;
use packets::layout::PacketType;
use places::list;
use tables::element::Element;
use tables::verdict::Verdict;

// What the groups of a bundle take at most; an element takes 20 bytes of it.
const MOST_BYTES: usize = 2004;

// What is acknowledged of a bundle, in its order, and how many of its elements found no place.
#[derive(Clone, Copy)]
pub struct Arrivals {
    pub acknowledged: list::List<Acknowledged, 100>,
    pub left: usize,
}

impl Arrivals {
    fn none() -> Arrivals
        ensures { (listed result.acknowledged ≡ []) × (result.left ≡ 0) }
    {
        Arrivals {
            acknowledged: list::List::empty(Acknowledged {
                number: 0,
                instance: [0; 8],
            }),
            left: 0,
        }
    }

    fn note(&mut self, verdict: Verdict, acknowledged: Acknowledged)
        requires { HasPlace self.old }
        ensures acknowledged { listed self.new.acknowledged ≡ noted verdict acknowledged (listed self.old.acknowledged) }
        ensures left { self.new.left ≡ self.old.left + left_by verdict }
    {
        match verdict {
            Verdict::Same(_) | Verdict::Newer(_) | Verdict::Gone | Verdict::New(_) => {
                self.acknowledged.push(acknowledged);
            }
            Verdict::Older(_) => {}
            Verdict::NoPlace => self.left += 1,
        }
    }
}

// Groups that are longer than those of a packet are passed over.
// Stays: node, rows and line are parameters of each call, as at `arrive`.
pub fn arrive_all<K: Kind>(
    node: &mut Node,
    elements: &mut [K],
    wanted: &[K],
    line: usize,
    bundle: &Bundle<'_>,
) -> Arrivals
    ensures world { world node.new elements.new wanted.now ≡ bundle_world K.model line bundle.now.node.bytes bundle.now.group.bytes (bundled bundle.now) (world node.old elements.old wanted.now) }
    ensures acknowledged { listed result.acknowledged ≡ acknowledged_of K.model line bundle.now.node.bytes bundle.now.group.bytes (bundled bundle.now) (world node.old elements.old wanted.now) }
    ensures count { length (listed result.acknowledged) ≤ 100 }
    ensures left { result.left ≡ left_of K.model line bundle.now.node.bytes bundle.now.group.bytes (bundled bundle.now) (world node.old elements.old wanted.now) }
{
    if bundle.groups.len() > MOST_BYTES {
        return Arrivals::none();
    }
    arrive_groups(node, elements, wanted, line, bundle)
}

fn arrive_groups<K: Kind>(
    node: &mut Node,
    elements: &mut [K],
    wanted: &[K],
    line: usize,
    bundle: &Bundle<'_>,
) -> Arrivals
    requires { length bundle.now.groups.now ≤ 2004 }
    ensures world { world node.new elements.new wanted.now ≡ bundle_world K.model line bundle.now.node.bytes bundle.now.group.bytes (elements_in bundle.now.groups.now) (world node.old elements.old wanted.now) }
    ensures acknowledged { listed result.acknowledged ≡ acknowledged_of K.model line bundle.now.node.bytes bundle.now.group.bytes (elements_in bundle.now.groups.now) (world node.old elements.old wanted.now) }
    ensures count { length (listed result.acknowledged) ≤ 100 }
    ensures left { result.left ≡ left_of K.model line bundle.now.node.bytes bundle.now.group.bytes (elements_in bundle.now.groups.now) (world node.old elements.old wanted.now) }
{
    let mut arrivals = Arrivals::none();
    for content in Groups::new(PacketType::Bundle, bundle.groups) {
        arrive_group(node, elements, wanted, line, bundle, content, &mut arrivals);
    }
    arrivals
}

fn arrive_group<K: Kind>(
    node: &mut Node,
    elements: &mut [K],
    wanted: &[K],
    line: usize,
    bundle: &Bundle<'_>,
    content: &[u8],
    arrivals: &mut Arrivals,
)
    requires { (16 ≤ length content.now) × HasPlace arrivals.old }
    ensures world { world node.new elements.new wanted.now ≡ arrived K.model line (arrival_of K.model bundle.now.node.bytes bundle.now.group.bytes (element_at content.now)) (world node.old elements.old wanted.now) }
    ensures acknowledged { listed arrivals.new.acknowledged ≡ noted (verdict_on K.model (arrival_of K.model bundle.now.node.bytes bundle.now.group.bytes (element_at content.now)) (world node.old elements.old wanted.now)) (acknowledgement_of (element_at content.now)) (listed arrivals.old.acknowledged) }
    ensures left { arrivals.new.left ≡ arrivals.old.left + left_by (verdict_on K.model (arrival_of K.model bundle.now.node.bytes bundle.now.group.bytes (element_at content.now)) (world node.old elements.old wanted.now)) }
{
    let arrival = bundle::Element::read(content).unwrap();
    arrive_next(node, elements, wanted, line, bundle, &arrival, arrivals);
}

fn arrive_next<K: Kind>(
    node: &mut Node,
    elements: &mut [K],
    wanted: &[K],
    line: usize,
    bundle: &Bundle<'_>,
    arrival: &bundle::Element<'_>,
    arrivals: &mut Arrivals,
)
    requires { HasPlace arrivals.old }
    ensures world { world node.new elements.new wanted.now ≡ arrived K.model line (arrival_of K.model bundle.now.node.bytes bundle.now.group.bytes (element_view arrival.now)) (world node.old elements.old wanted.now) }
    ensures acknowledged { listed arrivals.new.acknowledged ≡ noted (verdict_on K.model (arrival_of K.model bundle.now.node.bytes bundle.now.group.bytes (element_view arrival.now)) (world node.old elements.old wanted.now)) (acknowledgement_of (element_view arrival.now)) (listed arrivals.old.acknowledged) }
    ensures left { arrivals.new.left ≡ arrivals.old.left + left_by (verdict_on K.model (arrival_of K.model bundle.now.node.bytes bundle.now.group.bytes (element_view arrival.now)) (world node.old elements.old wanted.now)) }
{
    let element = Element {
        name: Name {
            node: bundle.node,
            number: arrival.number,
        },
        group: bundle.group,
        element_type: arrival.element_type,
    };
    let verdict = arrive(
        node,
        elements,
        wanted,
        line,
        element,
        K::read(arrival.instance),
        arrival.body,
    );
    arrivals.note(
        verdict,
        Acknowledged {
            number: arrival.number,
            instance: arrival.instance,
        },
    );
}
