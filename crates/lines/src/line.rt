// One line and the neighbour on it.
use packets::ids::NodeId;
use packets::summary::SummaryHead;
use places::count::SendCount;
use places::set::PlaceSet;

#[derive(Clone, Copy)]
pub enum State {
    Down,
    Negotiating,
    Exchanging,
    Loading,
    Full,
}

#[derive(Clone, Copy)]
pub enum Role {
    Master,
    Slave,
}

// Our own summary under the line's DS number.
// Stays: a summary is sent with `more` as it stands, written or not; an Option would need a match for that, and for the initial one.
#[derive(Clone, Copy)]
pub struct OwnSummary {
    pub written: bool,
    pub more: bool,
    pub count: SendCount,
}

#[derive(Clone, Copy)]
pub struct Line {
    pub state: State,
    pub neighbour: NodeId,
    pub ds_number: u32,
    pub role: Role,
    // The last accepted summary, by which its duplicate is known.
    pub accepted: Option<SummaryHead>,
    pub summary: OwnSummary,
    // The retransmission list: an entry or a call of the neighbour adds, its showing removes.
    pub owed: PlaceSet,
    // When each owed element was sent.
    // Stays apart from `owed`: the definition `cleared_line` keeps the counts and none of the marks.
    pub counts: [SendCount; 64],
    // The summary list: the end of negotiation adds, our next summary and an entry remove.
    pub to_tell: PlaceSet,
    // What our present summary named: its first writing adds, the next accepted summary and an entry remove.
    pub told: PlaceSet,
}
