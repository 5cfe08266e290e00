// An instance enters at a place, a place is given up, a line is cleared.
ghost use Rattle.std.specs.Prelude.{◌≡◌, slice_set};
ghost use Rattle.database.specs.Entries.{cleared, dropped, entered_node, brought_up, settled};
ghost use Rattle.tables.specs.Wants.{Closed, NoneOf, Settled};

use crate::node::Node;
use kinds::kind::Kind;
use lines::line::State;
use lines::marks;
use packets::ids::NodeId;
use tables::element::Element;
use tables::wants;

// An element with its instance and its body.
#[derive(Clone, Copy)]
pub struct Arrival<'a, K> {
    pub element: Element,
    pub instance: K,
    pub body: &'a [u8],
}

impl Node {
    // An entry by arrival, origination, withdrawal or running out: owed on every line past negotiation, the sender's too.
    pub fn enter<K: Kind>(
        &mut self,
        elements: &mut [K],
        wanted: &[K],
        place: usize,
        arrival: Arrival<K>,
    )
        ensures node { self.new ≡ entered_node K.model wanted.now place arrival.entry.element arrival.entry.instance arrival.entry.body.now self.old }
        ensures elements { elements.new ≡ slice_set elements.old place arrival.entry.instance }
        ensures closed { Closed K.model wanted.now arrival.entry.element.name arrival.entry.instance self.new.wants }
    {
        let Arrival {
            element,
            instance,
            body,
        } = arrival;
        marks::put(&mut self.places, place, Some(element));
        marks::put(elements, place, instance);
        self.bodies.write(place, body);
        marks::enter_all(&mut self.lines, place);
        wants::close_wants(&mut self.wants, wanted, &element.name, &instance);
    }

    // The place is free again, and its instance stays in the row.
    pub fn remove(&mut self, place: usize)
        ensures { self.new ≡ dropped place self.old }
    {
        marks::put(&mut self.places, place, None);
        self.bodies.empty(place);
    }

    // What restart and down share.
    pub fn clear(&mut self, line: usize, state: State)
        ensures node { self.new ≡ cleared line state self.old }
        ensures none { NoneOf line self.new.wants }
    {
        wants::remove_wants(&mut self.wants, line);
        marks::clear_line(&mut self.lines, line, state);
    }

    // The line negotiates with a new neighbour.
    pub fn negotiate(&mut self, line: usize, neighbour: NodeId, ds_number: u32)
        ensures { self.new ≡ brought_up line neighbour ds_number self.old }
    {
        wants::remove_wants(&mut self.wants, line);
        marks::negotiate_line(&mut self.lines, line, neighbour, ds_number);
    }

    pub fn settle(&mut self)
        ensures node { self.new ≡ settled self.old }
        ensures settled { Settled self.new.wants self.new.lines }
    {
        wants::settle(&mut self.lines, &self.wants);
    }
}
