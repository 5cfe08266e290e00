// The neighbour machine: what a summary is to a line, and what follows from the line's state and that event together.
ghost use Rattle.std.specs.Prelude.{◌≡◌};
ghost use Rattle.lines.specs.Machine.{event_of, is_accepting, past_negotiation, reacted, reaction, repeats, to_master, to_slave, while_negotiating, right_master, awaited};
ghost use Rattle.lines.specs.Progress.{begun};

use crate::line::{Line, OwnSummary, Role, State};
use packets::ids::NodeId;
use packets::summary::{INITIALIZE, MASTER, MORE, SummaryHead};
use places::set::PlaceSet;

// What a summary is to the line on which it comes; of a duplicate, the role in which we get it.
#[derive(Clone, Copy)]
pub enum SummaryEvent {
    MakesSlave,
    MakesMaster,
    Other,
    Duplicate(Role),
    Wrong,
    InSequence,
}

#[derive(Clone, Copy)]
pub enum Reaction {
    Accepts,
    AnswersAgain,
    Ignores,
    Restarts,
}

impl Line {
    // Stays: our own ID is no part of the summary, so it comes beside the head and whether there are groups.
    pub fn event(&self, own: &NodeId, head: SummaryHead, has_groups: bool) -> SummaryEvent
        ensures { result ≡ event_of own.now self.now head.flags head.ds_number has_groups }
    {
        match self.state {
            State::Down => SummaryEvent::Other,
            State::Negotiating => self.negotiation_event(own, head, has_groups),
            State::Exchanging | State::Loading | State::Full => self.later_event(head),
        }
    }

    fn negotiation_event(&self, own: &NodeId, head: SummaryHead, has_groups: bool) -> SummaryEvent
        ensures { result ≡ while_negotiating own.now self.now head.flags head.ds_number has_groups }
    {
        if self.makes_slave(own, head, has_groups) {
            SummaryEvent::MakesSlave
        } else if self.makes_master(own, head) {
            SummaryEvent::MakesMaster
        } else {
            SummaryEvent::Other
        }
    }

    // All three flags and no groups, from a larger node.
    fn makes_slave(&self, own: &NodeId, head: SummaryHead, has_groups: bool) -> bool
        ensures { result ≡ to_slave own.now self.now head.flags has_groups }
    {
        head.has(INITIALIZE)
            && head.has(MORE)
            && head.has(MASTER)
            && !has_groups
            && self.neighbour.is_larger(own)
    }

    // Without Initialize and Master, under our own number, from a smaller node.
    fn makes_master(&self, own: &NodeId, head: SummaryHead) -> bool
        ensures { result ≡ to_master own.now self.now head.flags head.ds_number }
    {
        !head.has(INITIALIZE)
            && !head.has(MASTER)
            && head.ds_number == self.ds_number
            && own.is_larger(&self.neighbour)
    }

    fn later_event(&self, head: SummaryHead) -> SummaryEvent
        ensures { result ≡ past_negotiation self.now head.flags head.ds_number }
    {
        if self.repeats(head) {
            return SummaryEvent::Duplicate(self.role);
        }
        let right = self.role.is_right_master(head);
        if right && !head.has(INITIALIZE) && head.ds_number == self.awaited() {
            SummaryEvent::InSequence
        } else {
            SummaryEvent::Wrong
        }
    }

    // All 16 flag bits and the DS number of the last accepted summary.
    fn repeats(&self, head: SummaryHead) -> bool
        ensures { result ≡ repeats self.now.accepted head.flags head.ds_number }
    {
        self.accepted == Some(head)
    }

    // The master is answered under its number, the slave is asked under the one that follows.
    fn awaited(&self) -> u32
        ensures { result ≡ awaited self.now.role self.now.ds_number }
    {
        match self.role {
            Role::Master => self.ds_number,
            Role::Slave => self.ds_number.wrapping_add(1),
        }
    }

    // Whether a summary of this event would be accepted.
    pub fn accepts(&self, event: SummaryEvent) -> bool
        ensures { result ≡ is_accepting (reaction self.now.state event) }
    {
        matches!(
            (self.state, event),
            (
                State::Negotiating,
                SummaryEvent::MakesSlave | SummaryEvent::MakesMaster
            ) | (State::Exchanging, SummaryEvent::InSequence)
        )
    }

    // The machine's step. `held` are the places of all elements held, which the end of negotiation marks for telling.
    pub fn react(&mut self, event: SummaryEvent, ds_number: u32, held: PlaceSet) -> Reaction
        ensures reaction { result ≡ reaction self.old.state event }
        ensures line { self.new ≡ reacted held ds_number event self.old }
    {
        match (self.state, event) {
            (State::Negotiating, SummaryEvent::MakesSlave) => {
                self.begin(Role::Slave, ds_number, held);
                Reaction::Accepts
            }
            (State::Negotiating, SummaryEvent::MakesMaster) => {
                self.begin(Role::Master, ds_number, held);
                Reaction::Accepts
            }
            (State::Exchanging, SummaryEvent::InSequence) => Reaction::Accepts,
            (
                State::Exchanging | State::Loading | State::Full,
                SummaryEvent::Duplicate(Role::Slave),
            ) => Reaction::AnswersAgain,
            (State::Exchanging | State::Loading | State::Full, SummaryEvent::Wrong)
            | (State::Loading | State::Full, SummaryEvent::InSequence) => {
                self.clear(State::Negotiating);
                Reaction::Restarts
            }
            _ => Reaction::Ignores,
        }
    }

    // Negotiation ends: a slave takes the master's number, what is held is to be told, and nothing is owed.
    fn begin(&mut self, role: Role, ds_number: u32, held: PlaceSet)
        ensures { self.new ≡ begun held role ds_number self.old }
    {
        self.state = State::Exchanging;
        self.role = role;
        self.summary = OwnSummary::initial();
        if let Role::Slave = role {
            self.ds_number = ds_number;
        }
        self.owed = PlaceSet::empty();
        self.to_tell = held;
        self.told = PlaceSet::empty();
    }
}

impl Role {
    // Only the master sets Master.
    fn is_right_master(&self, head: SummaryHead) -> bool
        ensures { result ≡ right_master self.now head.flags }
    {
        match self {
            Role::Master => !head.has(MASTER),
            Role::Slave => head.has(MASTER),
        }
    }
}
