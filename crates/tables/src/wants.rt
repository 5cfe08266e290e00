// The wants of all lines, and the step from loading to full.
ghost use Rattle.std.specs.Prelude.{◌≡◌, ◌<◌, map, length};
ghost use Rattle.kinds.specs.Recency.{instance_at};
ghost use Rattle.lines.specs.Tables.{First};
ghost use Rattle.tables.specs.Wants.{Closed, NoneOf, Settled, at_or_below, closed_at, closed_want, closed_wants, is_of, removed_want, removed_wants, second_want, settled_line, settled_lines, want_of};

use crate::want::Want;
use kinds::kind::Kind;
use kinds::rank::Rank;
use lines::line::{Line, State};
use lines::marks::RESEND_LIMIT;
use packets::ids::Name;

fn is_at_or_below(rank: Rank) -> bool
    ensures { result ≡ at_or_below rank }
{
    !rank.is_higher()
}

// Stays: name and instance come one by one, as the record that has both, an arrival, stands in a crate above.
// The want closes where it is one of the name, at or below the instance that came.
fn close_one<K: Kind>(want: &mut Option<Want>, wanted: &K, name: &Name, instance: &K)
    ensures { want.new ≡ closed_want K.model name.now instance.now wanted.now want.old }
{
    if want.is_some_and(|open| open.name.same(name) && is_at_or_below(wanted.rank(instance))) {
        *want = None;
    }
}

// A want place that the row does not reach has no instance, and stays.
fn close_at<K: Kind>(want: &mut Option<Want>, row: &[K], place: usize, name: &Name, instance: &K)
    ensures { want.new ≡ closed_at K.model row.now name.now instance.now place want.old }
{
    if let Some(wanted) = row.get(place) {
        close_one(want, wanted, name, instance);
    }
}

// Of whatever line.
pub fn close_wants<K: Kind>(wants: &mut [Option<Want>], row: &[K], name: &Name, instance: &K)
    ensures wants { wants.new ≡ closed_wants K.model row.now name.now instance.now wants.old }
    ensures closed { Closed K.model row.now name.now instance.now wants.new }
{
    for (place, want) in wants.iter_mut().enumerate() {
        close_at(want, row, place, name, instance);
    }
}

fn remove_one(want: &mut Option<Want>, line: usize)
    ensures { want.new ≡ removed_want line want.old }
{
    if want.is_some_and(|open| open.line == line) {
        *want = None;
    }
}

// Stays a walk of one statement, as those of `lines::marks`.
pub fn remove_wants(wants: &mut [Option<Want>], line: usize)
    ensures wants { wants.new ≡ removed_wants line wants.old }
    ensures none { NoneOf line wants.new }
{
    for want in wants.iter_mut() {
        remove_one(want, line);
    }
}

fn raise_one(want: &mut Option<Want>)
    ensures { want.new ≡ second_want want.old }
{
    if let Some(open) = want {
        open.count.raise(RESEND_LIMIT);
    }
}

// Stays a walk of one statement, as those of `lines::marks`.
pub fn raise_wants(wants: &mut [Option<Want>])
    ensures { wants.new ≡ map second_want wants.old }
{
    for want in wants.iter_mut() {
        raise_one(want);
    }
}

fn is_of(want: &Option<Want>, line: usize) -> bool
    ensures { result ≡ is_of line want.now }
{
    want.is_some_and(|want| want.line == line)
}

// The first want of a line.
// Stays an indexed loop: a rule of the project (docs/DECISIONS.md, Language forms fixed from the start).
pub fn find_want(wants: &[Option<Want>], line: usize) -> Option<usize>
    ensures place { result ≡ want_of wants.now line }
    ensures first { First (is_of line) wants.now result }
{
    for (place, want) in wants.iter().enumerate() {
        if is_of(want, line) {
            return Some(place);
        }
    }
    None
}

// A loading line is full once a scan of the wants finds none of it.
fn settle_one(line: &mut Line, number: usize, wants: &[Option<Want>])
    ensures { line.new ≡ settled_line wants.now number line.old }
{
    match (line.state, find_want(wants, number)) {
        (State::Loading, None) => line.state = State::Full,
        _ => {}
    }
}

pub fn settle(lines: &mut [Line], wants: &[Option<Want>])
    ensures lines { lines.new ≡ settled_lines wants.now lines.old }
    ensures settled { Settled wants.now lines.new }
{
    for (number, line) in lines.iter_mut().enumerate() {
        settle_one(line, number, wants);
    }
}
