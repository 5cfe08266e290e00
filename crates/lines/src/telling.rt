// What our summaries and bundles leave on a line.
ghost use Rattle.std.specs.Prelude.{◌≡◌};
ghost use Rattle.lines.specs.Progress.{accepted_with, is_done, loading_or, next_due, remembered, sent_again, sent_on, taking};

use crate::line::{Line, OwnSummary, Role, State};
use crate::marks::put;
use packets::summary::{MORE, SummaryHead};
use places::count::SendCount;
use places::set::PlaceSet;

impl Line {
    // The first writing of a summary, which takes these places.
    pub fn tell(&mut self, chosen: &[usize])
        ensures { self.new ≡ taking chosen.now self.old }
    {
        for place in chosen.iter() {
            self.to_tell.remove(*place);
            self.told.insert(*place);
        }
        self.summary = OwnSummary {
            written: true,
            more: !chosen.is_empty(),
            count: SendCount::sent(),
        };
    }

    // A resend keeps its elements and More.
    pub fn tell_again(&mut self)
        ensures { self.new ≡ sent_again self.old }
    {
        self.summary.count = SendCount::sent();
    }

    // The descriptions of an accepted summary have counted. A slave's next summary takes these places.
    pub fn accept(&mut self, head: SummaryHead, chosen: &[usize])
        ensures { self.new ≡ accepted_with chosen.now head.flags head.ds_number self.old }
    {
        self.remember(head);
        match self.role {
            Role::Slave => {
                self.ds_number = head.ds_number;
                self.tell(chosen);
                if self.is_done(head) {
                    self.state = State::Loading;
                }
            }
            Role::Master => {
                if self.is_done(head) {
                    self.state = State::Loading;
                } else {
                    self.make_next_due();
                }
            }
        }
    }

    fn remember(&mut self, head: SummaryHead)
        ensures { self.new ≡ remembered head.flags head.ds_number self.old }
    {
        self.accepted = Some(head);
        self.told = PlaceSet::empty();
    }

    // Neither summary of the present number has More; one of ours that is not written counts as having it.
    fn is_done(&self, head: SummaryHead) -> bool
        ensures { result ≡ is_done head.flags self.now.summary }
    {
        !head.has(MORE) && self.summary.written && !self.summary.more
    }

    fn make_next_due(&mut self)
        ensures { self.new ≡ next_due self.old }
    {
        self.ds_number = self.ds_number.wrapping_add(1);
        self.summary = OwnSummary::initial();
    }

    // Sending is no showing: what is sent stays owed.
    pub fn send(&mut self, chosen: &[usize])
        ensures { self.new ≡ sent_on chosen.now self.old }
    {
        for place in chosen.iter() {
            put(&mut self.counts, *place, SendCount::sent());
        }
    }
}
