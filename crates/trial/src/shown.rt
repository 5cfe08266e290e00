// What the library's values are called in a tester's words.
use calls::refusal::Refusal;
use lines::line::State;
use packets::group::GroupFault;
use packets::header::HeaderFault;
use packets::layout::PacketType;
use packets::packet::Fault;
use packets::summary::{INITIALIZE, MASTER, MORE, SummaryHead};
use std::fmt;

#[derive(Clone, Copy)]
pub(crate) struct Shown<T>(pub T);

impl fmt::Display for Shown<State> {
    fn fmt<W: fmt::Write>(&self, f: &mut fmt::Formatter<W>) -> fmt::Result {
        f.write_str(match self.0 {
            State::Down => "down",
            State::Negotiating => "negotiating",
            State::Exchanging => "exchanging",
            State::Loading => "loading",
            State::Full => "full",
        })
    }
}

impl fmt::Display for Shown<Refusal> {
    fn fmt<W: fmt::Write>(&self, f: &mut fmt::Formatter<W>) -> fmt::Result {
        f.write_str(match self.0 {
            Refusal::RowLength => "a row is not 64 long",
            Refusal::LineNumber => "the line is above 7",
            Refusal::LineState => "the line is in the wrong state",
            Refusal::NeighbourId => "the neighbour ID is ours or on another line",
            Refusal::BufferLength => "the buffer is under 2,048 bytes",
            Refusal::PacketHeader => "the packet has a header fault",
            Refusal::PacketGroup => "a group of the packet breaks its layout",
            Refusal::NotSummary => "not a summary, while negotiating",
            Refusal::WantPlaces => "too few want places are free",
            Refusal::BadElement => "bad body length, or time 0",
            Refusal::PlacesFull => "not held, and no place is free",
            Refusal::LastInstance => "the held instance has no next",
            Refusal::NotHeld => "not held, or expired",
        })
    }
}

impl fmt::Display for Shown<PacketType> {
    fn fmt<W: fmt::Write>(&self, f: &mut fmt::Formatter<W>) -> fmt::Result {
        f.write_str(match self.0 {
            PacketType::Bundle => "bundle",
            PacketType::Acknowledgement => "acknowledgement",
            PacketType::Summary => "summary",
            PacketType::Request => "request",
        })
    }
}

impl fmt::Display for Shown<Fault> {
    fn fmt<W: fmt::Write>(&self, f: &mut fmt::Formatter<W>) -> fmt::Result {
        f.write_str(match self.0 {
            Fault::Header(HeaderFault::Short) => "short",
            Fault::Header(HeaderFault::Long) => "long",
            Fault::Header(HeaderFault::Length) => "length",
            Fault::Header(HeaderFault::Version) => "version",
            Fault::Header(HeaderFault::Type) => "type",
            Fault::Header(HeaderFault::Cut) => "cut",
            Fault::Group { fault, .. } => match fault {
                GroupFault::Cut => "group-cut",
                GroupFault::Type => "group-type",
                GroupFault::Short => "group-short",
                GroupFault::Long => "group-long",
                GroupFault::Body => "body",
                GroupFault::Count => "count",
            },
        })
    }
}

// A summary's flags: their digits, and the names of those that are set.
#[derive(Clone, Copy)]
pub(crate) struct Flags(pub SummaryHead);

impl fmt::Display for Flags {
    fn fmt<W: fmt::Write>(&self, f: &mut fmt::Formatter<W>) -> fmt::Result {
        write!(f, "{:04x}:", self.0.flags)?;
        for (flag, name) in [
            (INITIALIZE, "Initialize"),
            (MORE, "More"),
            (MASTER, "Master"),
        ] {
            if self.0.has(flag) {
                write!(f, " {name}")?;
            }
        }
        Ok(())
    }
}
