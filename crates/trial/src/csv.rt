// A played script for another program: a header, and a row for each call.
ghost use Rattle.std.specs.Iterator.{IsFinite};

use crate::hex::Hex;
use crate::outcome::Outcome;
use crate::play::Play;
use crate::script::Call;
use crate::scripts::Layout;
use crate::shown::Shown;
use crate::text::Numbered;
use database::node::Node;
use kinds::kind::Kind;
use lines::line::Line;
use packets::ids::Name;
use std::{fmt, io};

const HEADER: &str =
    "step,call,result,left,written,line0,line1,line2,line3,line4,line5,line6,line7,owed0,owed1,owed2,owed3,owed4,owed5,owed6,owed7,held";

pub(crate) struct Csv;

impl Layout for Csv {
    fn header(rt: &HostRuntime) -> io::Result<()> {
        rt.println(HEADER)
    }

    fn row<K: Kind>(
        rt: &HostRuntime,
        number: usize,
        step: &Numbered<Call>,
        outcome: &Outcome,
        play: &Play<K>,
    ) -> io::Result<()> {
        answer(rt, number, &step.content, outcome)?;
        for line in &play.node.lines {
            print!(rt; ",{}", Shown(line.state))?;
        }
        for line in &play.node.lines {
            owed(rt, &play.node, line)?;
        }
        held(rt, &play.node, &play.elements)?;
        println!(rt; "")
    }
}

fn answer(rt: &HostRuntime, number: usize, call: &Call, outcome: &Outcome) -> io::Result<()> {
    let result = outcome.number();
    let left = outcome.left;
    let written = Hex(outcome.packet());
    print!(rt; "{number},{call},{result},{left},{written}")
}

// The names owed on a line, in the order of their places.
fn owed(rt: &HostRuntime, node: &Node, line: &Line) -> io::Result<()> {
    let owed = node
        .places
        .iter()
        .enumerate()
        .filter(|(place, _)| line.owed.contains(*place))
        .filter_map(|(_, held)| Some(Named(&held.as_ref()?.name)));
    list(rt, owed)
}

// What is held, in the order of places.
fn held<K: Kind>(rt: &HostRuntime, node: &Node, elements: &[K]) -> io::Result<()> {
    let held = node.places.iter().zip(elements).filter_map(|(held, instance)| Some(NamedInstance(
        Named(&held.as_ref()?.name),
        instance.write(),
    )));
    list(rt, held)
}

// A field with marks between its items.
fn list<I: Iterator + Drop>(rt: &HostRuntime, items: I) -> io::Result<()>
where
    I::Item: fmt::Display + Drop,
    requires can { I.can_next items }
    requires ends { IsFinite (I.remaining items) }
{
    rt.print(",")?;
    let mut mark = "";
    for item in items {
        print!(rt; "{mark}{item}")?;
        mark = ";";
    }
    Ok(())
}

#[derive(Clone, Copy)]
struct Named<'a>(&'a Name);

impl fmt::Display for Named<'_> {
    fn fmt<W: fmt::Write>(&self, f: &mut fmt::Formatter<W>) -> fmt::Result {
        write!(f, "{}:{}", Hex(&self.0.node.bytes), self.0.number)
    }
}

// A name, and the instance under it.
#[derive(Clone, Copy)]
struct NamedInstance<'a>(Named<'a>, [u8; 8]);

impl fmt::Display for NamedInstance<'_> {
    fn fmt<W: fmt::Write>(&self, f: &mut fmt::Formatter<W>) -> fmt::Result {
        write!(f, "{}={}", self.0, Hex(&self.1))
    }
}
