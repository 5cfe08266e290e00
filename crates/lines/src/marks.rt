// What a line's marks become.
ghost use Rattle.std.specs.Prelude.{◌≡◌, map, slice_index_or, slice_set};
ghost use Rattle.places.specs.PlaceSets.{has};
ghost use Rattle.places.specs.SendCounts.{raised};
ghost use Rattle.lines.specs.Lines.{cleared_line, entered_on, initial_summary, is_down, is_past_negotiation, is_synchronizing, is_with, no_line, owing, negotiating_line, resend_limit, second_line, shown, some_owed, some_synchronizing};
ghost use Rattle.lines.specs.Tables.{some_where};

use crate::line::{Line, OwnSummary, State};
use packets::ids::NodeId;
use places::count::SendCount;
use places::row::change_at;
pub use places::row::put;
use places::set::PlaceSet;

// Seconds after which a thing that was sent is due again.
pub const RESEND_LIMIT: u8 = 5;

impl State {
    pub fn is_down(&self) -> bool
        ensures { result ≡ is_down self.now }
    {
        matches!(self, State::Down)
    }

    pub fn is_past_negotiation(&self) -> bool
        ensures { result ≡ is_past_negotiation self.now }
    {
        matches!(self, State::Exchanging | State::Loading | State::Full)
    }

    pub fn is_synchronizing(&self) -> bool
        ensures { result ≡ is_synchronizing self.now }
    {
        matches!(self, State::Exchanging | State::Loading)
    }
}

impl OwnSummary {
    // Due at once, and with More.
    pub fn initial() -> OwnSummary
        ensures { result ≡ initial_summary }
    {
        OwnSummary {
            written: false,
            more: true,
            count: SendCount::fresh(RESEND_LIMIT),
        }
    }
}

impl Line {
    // Due at once, also where it was owed and sent a moment ago.
    pub fn owe(&mut self, place: usize)
        ensures { self.new ≡ owing place self.old }
    {
        self.owed.insert(place);
        put(&mut self.counts, place, SendCount::fresh(RESEND_LIMIT));
    }

    // The neighbour has shown the instance held. Sending is no showing.
    pub fn show(&mut self, place: usize)
        ensures { self.new ≡ shown place self.old }
    {
        self.owed.remove(place);
    }

    // An instance enters at the place, whichever line it came on.
    pub(crate) fn enter(&mut self, place: usize)
        ensures { self.new ≡ entered_on place self.old }
    {
        if self.state.is_past_negotiation() {
            self.owe(place);
        }
        self.to_tell.remove(place);
        self.told.remove(place);
    }

    // The one clearing function of up, restart and down: no mark stays, and the last accepted summary is forgotten.
    pub(crate) fn clear(&mut self, state: State)
        ensures { self.new ≡ cleared_line state self.old }
    {
        self.state = state;
        self.ds_number = self.ds_number.wrapping_add(1);
        self.accepted = None;
        self.summary = OwnSummary::initial();
        self.owed = PlaceSet::empty();
        self.to_tell = PlaceSet::empty();
        self.told = PlaceSet::empty();
    }

    // A new neighbour, with which the line negotiates.
    pub(crate) fn negotiate(&mut self, neighbour: NodeId, ds_number: u32)
        ensures { self.new ≡ negotiating_line neighbour ds_number self.old }
    {
        self.clear(State::Negotiating);
        self.neighbour = neighbour;
        self.ds_number = ds_number;
    }

    pub(crate) fn raise_counts(&mut self)
        ensures { self.new ≡ second_line self.old }
    {
        raise_one(&mut self.summary.count);
        raise_all(&mut self.counts);
    }

    fn owes(&self, place: usize) -> bool
        ensures { result ≡ has self.now.owed place }
    {
        self.owed.contains(place)
    }

    fn is_with(&self, neighbour: &NodeId) -> bool
        ensures { result ≡ is_with neighbour.now self.now }
    {
        !self.state.is_down() && self.neighbour.same(neighbour)
    }
}

fn raise_one(count: &mut SendCount)
    ensures { count.new ≡ raised count.old resend_limit }
{
    count.raise(RESEND_LIMIT);
}

// Stays: walks of one statement each, here, below and over the wants of `tables`; calls of one function that takes the statement are no shorter.
fn raise_all(counts: &mut [SendCount])
    ensures { counts.new ≡ map (λ c. raised c resend_limit) counts.old }
{
    for sent in counts.iter_mut() {
        raise_one(sent);
    }
}

pub fn enter_all(lines: &mut [Line], place: usize)
    ensures { lines.new ≡ map (entered_on place) lines.old }
{
    for line in lines.iter_mut() {
        line.enter(place);
    }
}

pub fn raise_lines(lines: &mut [Line])
    ensures { lines.new ≡ map second_line lines.old }
{
    for line in lines.iter_mut() {
        line.raise_counts();
    }
}

// A line that is not down has this neighbour.
pub fn is_neighbour(lines: &[Line], neighbour: &NodeId) -> bool
    ensures { result ≡ some_where (is_with neighbour.now) lines.now }
{
    lines.iter().any(|line| line.is_with(neighbour))
}

pub fn is_owed(lines: &[Line], place: usize) -> bool
    ensures { result ≡ some_owed lines.now place }
{
    lines.iter().any(|line| line.owes(place))
}

// Somebody is exchanging or loading.
pub fn is_any_synchronizing(lines: &[Line]) -> bool
    ensures { result ≡ some_synchronizing lines.now }
{
    lines.iter().any(|line| line.state.is_synchronizing())
}

pub fn clear_line(lines: &mut [Line], line: usize, state: State)
    ensures { lines.new ≡ slice_set lines.old line (cleared_line state (slice_index_or lines.old line no_line)) }
{
    change_at(lines, line, |cleared| cleared.clear(state));
}

pub fn negotiate_line(lines: &mut [Line], line: usize, neighbour: NodeId, ds_number: u32)
    ensures { lines.new ≡ slice_set lines.old line (negotiating_line neighbour ds_number (slice_index_or lines.old line no_line)) }
{
    change_at(lines, line, |up| up.negotiate(neighbour, ds_number));
}
