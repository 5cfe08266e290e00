// This node says something new of an element of its own.
ghost use Rattle.std.specs.Prelude.{◌≡◌, length};
ghost use Rattle.database.specs.Nodes.{world};
ghost use Rattle.calls.specs.Calls.{originate_answer, originate_world, own_name, succession_of};
ghost use Rattle.calls.specs.Laws.{EntersOnly, KeepsOnePlace, Untouched};
ghost use Rattle.calls.specs.Guards.{is_sound};

use crate::guard::check_rows;
use crate::refusal::Refusal;
use database::entry::Arrival;
use database::node::Node;
use kinds::kind::Kind;
use packets::ids::Name;
use tables::element::Element;

#[derive(Clone, Copy)]
pub struct Origination<'a> {
    pub number: u32,
    pub element_type: u16,
    pub check: u16,
    pub time: u16,
    pub body: &'a [u8],
}

// Where the new instance enters.
#[derive(Clone, Copy)]
struct Succession<K> {
    place: usize,
    new: K,
}

pub fn originate<K: Kind>(
    node: &mut Node,
    elements: &mut [K],
    wants: &mut [K],
    origination: Origination,
) -> Result<(), Refusal>
    ensures answer { result ≡ originate_answer K.model (world node.old elements.old wants.old) origination.entry }
    ensures node { node.new ≡ (originate_world K.model (world node.old elements.old wants.old) origination.entry).node }
    ensures elements { elements.new ≡ (originate_world K.model (world node.old elements.old wants.old) origination.entry).elements }
    ensures wants { wants.new ≡ wants.old }
    ensures refused { Untouched result (world node.old elements.old wants.old) (world node.new elements.new wants.new) }
    ensures one_place { KeepsOnePlace node.old node.new }
    ensures enters { EntersOnly K.model (own_name node.old origination.entry.number) (world node.old elements.old wants.old) (world node.new elements.new wants.new) }
{
    check_rows(elements, wants)?;
    if !is_sound(origination.body, origination.time) {
        return Err(Refusal::BadElement);
    }
    let name = Name {
        node: node.id,
        number: origination.number,
    };
    let Succession { place, new } = succeed(
        node,
        elements,
        &name,
        origination.check,
        origination.time,
    )?;
    let arrival = Arrival {
        element: Element {
            name,
            group: node.group,
            element_type: origination.element_type,
        },
        instance: new,
        body: origination.body,
    };
    node.enter(elements, wants, place, arrival);
    node.settle();
    Ok(())
}

// A body has 0 to 256 bytes, a multiple of 4, and a time is not 0.
fn is_sound(body: &[u8], time: u16) -> bool
    ensures { result ≡ is_sound body.now time }
{
    body.len() <= 256 && body.len() % 4 == 0 && time != 0
}

// The next instance in the place of the one held, or the first in the lowest free place.
fn succeed<K: Kind>(
    node: &Node,
    elements: &[K],
    name: &Name,
    check: u16,
    time: u16,
) -> Result<Succession<K>, Refusal>
    requires { length elements.now ≡ 64 }
    ensures { result ≡ succession_of K.model node.now elements.now name.now check time }
{
    match node.find(name) {
        Some(place) => {
            let new = elements[place]
                .next(check, time)
                .ok_or(Refusal::LastInstance)?;
            Ok(Succession { place, new })
        }
        None => {
            let place = node.free_place().ok_or(Refusal::PlacesFull)?;
            let new = K::first(check, time);
            Ok(Succession { place, new })
        }
    }
}
