// The task of playing a trial script.
use crate::outcome::Outcome;
use crate::play::Play;
use crate::script;
use crate::script::{Call, Start};
use crate::text::Numbered;
use crate::words::KindName;
use kinds::cache::Cache;
use kinds::kind::Kind;
use kinds::topology::Topology;
use std::io;

// How a played script is laid out: a header, and a row for each call.
pub(crate) trait Layout {
    fn header(rt: &HostRuntime) -> io::Result<()>;

    fn row<K: Kind>(
        rt: &HostRuntime,
        number: usize,
        step: &Numbered<Call>,
        outcome: &Outcome,
        play: &Play<K>,
    ) -> io::Result<()>;
}

// Not inlined: a function pays at entry for all its locals, and the other tasks need no node.
#[inline(never)]
pub(crate) fn play<L: Layout>(rt: &HostRuntime, text: &str) -> anyhow::Result<()> {
    let script = script::read(rt, text)?;
    let steps = script.steps.as_slice();
    let Start { kind, node, group } = script.start;
    // Stays: two arms of one call each, as in editions; a trait for the work on a kind needs a struct for each task.
    match kind {
        KindName::Topology => run::<L, _>(rt, Play::<Topology>::new(node, group), steps)?,
        KindName::Cache => run::<L, _>(rt, Play::<Cache>::new(node, group), steps)?,
    }
    Ok(())
}

// Makes each call on the node and prints what came of it.
fn run<L: Layout, K: Kind>(
    rt: &HostRuntime,
    mut play: Play<K>,
    steps: &[Numbered<Call>],
) -> io::Result<()> {
    L::header(rt)?;
    for (number, step) in (1..).zip(steps) {
        let outcome = play.make(&step.content);
        L::row(rt, number, step, &outcome, &play)?;
    }
    Ok(())
}
