// The passes of a second: drop, age, counts.
ghost use Rattle.std.specs.Prelude.{◌≡◌, ◌<◌, length};
ghost use Rattle.kinds.specs.Recency.{instance_at};
ghost use Rattle.database.specs.Nodes.{world};
ghost use Rattle.database.specs.Seconds.{aged_all, aged_at, dropped_all, dropped_at, raised_counts};
ghost use Rattle.lines.specs.Tables.{in_turn};

use crate::entry::Arrival;
use crate::node::Node;
use kinds::kind::Kind;
use lines::marks;
use tables::wants;

impl Node {
    // While nobody synchronizes, each expired element that is owed to nobody is dropped.
    pub fn drop_expired<K: Kind>(&mut self, elements: &[K])
        ensures { self.new ≡ dropped_all K.model elements.now self.old }
    {
        if !marks::is_any_synchronizing(&self.lines) {
            self.drop_each(elements);
        }
    }

    // What a row holds past the places of a node is of no element.
    fn drop_each<K: Kind>(&mut self, elements: &[K])
        ensures { self.new ≡ in_turn (dropped_at K.model elements.now) 64 self.old }
    {
        for (place, instance) in elements.iter().enumerate().take(64) {
            self.drop_at(place, instance);
        }
    }

    fn drop_at<K: Kind>(&mut self, place: usize, instance: &K)
        requires { place < 64 }
        ensures { (xs : _) → place < length xs → instance_at K.model xs place ≡ instance.now → self.new ≡ dropped_at K.model xs place self.old }
    {
        if self.places[place].is_some()
            && instance.is_expired()
            && !marks::is_owed(&self.lines, place)
        {
            self.remove(place);
        }
    }

    // Every unexpired element is a second older.
    // Stays a walk over the 64 places of a node, as each step changes the node and the lent row.
    pub fn age<K: Kind>(&mut self, elements: &mut [K], wanted: &[K])
        ensures { world self.new elements.new wanted.now ≡ aged_all K.model (world self.old elements.old wanted.now) }
    {
        for place in 0..64 {
            self.age_at(elements, wanted, place);
        }
    }

    // What runs out enters in its expired form with an empty body.
    fn age_at<K: Kind>(&mut self, elements: &mut [K], wanted: &[K], place: usize)
        requires { place < 64 }
        ensures { world self.new elements.new wanted.now ≡ aged_at K.model place (world self.old elements.old wanted.now) }
    {
        let (Some(element), Some(instance)) = (self.places[place], elements.get(place).copied())
        else {
            return;
        };
        if instance.is_expired() {
            return;
        }
        let older = instance.older();
        if older.is_expired() {
            let arrival = Arrival {
                element,
                instance: older,
                body: &[],
            };
            self.enter(elements, wanted, place, arrival);
        } else {
            elements[place] = older;
        }
    }

    pub fn raise_counts(&mut self)
        ensures { self.new ≡ raised_counts self.old }
    {
        wants::raise_wants(&mut self.wants);
        marks::raise_lines(&mut self.lines);
    }
}
