// A played script for people: a row for each call, and below it the packet that it wrote.
use crate::hex::Hex;
use crate::outcome::Outcome;
use crate::play::Play;
use crate::script::Call;
use crate::scripts::Layout;
use crate::shown::Shown;
use crate::text::Numbered;
use database::node::Node;
use kinds::kind::Kind;
use std::io;

const HEADER: &str =
    "step  script    call       answer                                                    lines not down (instances owed)";

pub(crate) struct Table;

impl Layout for Table {
    fn header(rt: &HostRuntime) -> io::Result<()> {
        rt.println(HEADER)
    }

    fn row<K: Kind>(
        rt: &HostRuntime,
        number: usize,
        step: &Numbered<Call>,
        outcome: &Outcome,
        play: &Play<K>,
    ) -> io::Result<()> {
        let at = step.at;
        let call = &step.content;
        let answer = outcome.to_string(rt.alloc())?;
        print!(rt; "{number:>4}  line {at:<4} {call:<9}  {answer:<56}")?;
        lines(rt, &play.node)?;
        written(rt, outcome)
    }
}

fn lines(rt: &HostRuntime, node: &Node) -> io::Result<()> {
    if node.lines.iter().all(|line| line.state.is_down()) {
        return rt.println("  none");
    }
    let up = node
        .lines
        .iter()
        .enumerate()
        .filter(|(_, line)| !line.state.is_down());
    for (i, line) in up {
        let state = Shown(line.state);
        let owed = (0..64).filter(|place| line.owed.contains(*place)).count();
        print!(rt; "  {i} {state} ({owed})")?;
    }
    rt.println("")
}

fn written(rt: &HostRuntime, outcome: &Outcome) -> io::Result<()> {
    match &outcome.written {
        Some(packet) => println!(rt; "      wrote {}", Hex(packet.as_slice())),
        None => Ok(()),
    }
}
