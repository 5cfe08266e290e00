// The task of saying what captured editions of an element are.
use crate::request::Request;
use crate::words::KindName;
use crate::{report, request, text};
use kinds::cache::Cache;
use kinds::topology::Topology;

pub(crate) fn report(rt: &HostRuntime, text: &str) -> anyhow::Result<()> {
    let requests = text::read(rt, text, "no requests, and nothing is reported", |line| {
        Ok(request::read(rt.alloc(), line))
    })?;
    for request in &requests {
        answer(rt, request.at, &request.content)?;
    }
    Ok(())
}

fn answer(rt: &HostRuntime, line: usize, request: &Request) -> anyhow::Result<()> {
    // Stays: two arms of one call each, as in scripts; a trait for the work on a kind needs a struct for each task.
    match request.kind {
        KindName::Topology => report::print::<Topology>(rt, line, request),
        KindName::Cache => report::print::<Cache>(rt, line, request),
    }
}
