// What is said of the editions of one request.
use crate::edition::{Edition, Fields};
use crate::hex::Hex;
use crate::request::Request;
use kinds::kind::Kind;
use kinds::rank::Rank;
use kinds::{ageing, recency};
use std::io;

pub(crate) fn print<E: Edition>(
    rt: &HostRuntime,
    line: usize,
    request: &Request,
) -> anyhow::Result<()> {
    let kind = request.kind;
    let editions: Vec<E> = request
        .editions
        .iter()
        .map(|bytes| E::read(*bytes))
        .collect(rt.alloc())?;
    let count = editions.len();
    println!(rt; "line {line}: {kind}, {count} captured")?;
    for (number, edition) in (1..).zip(&editions) {
        one(rt, number, request, edition)?;
    }
    if let Some(best) = recency::newest(editions.as_slice()) {
        newest(rt, best, editions.as_slice())?;
    }
    println!(rt; "")?;
    Ok(())
}

fn one<E: Edition>(
    rt: &HostRuntime,
    number: usize,
    request: &Request,
    edition: &E,
) -> io::Result<()> {
    println!(rt;
        "  edition {number} is {}: {}",
        Hex(&edition.write()),
        Fields(edition)
    )?;
    course(rt, request.after, edition)?;
    println!(rt;
        "    its expired form is {}",
        Hex(&edition.expired().write())
    )?;
    next(rt, request.check, request.time, edition)
}

// What becomes of the edition as time goes by.
fn course<E: Edition>(rt: &HostRuntime, seconds: u32, edition: &E) -> io::Result<()> {
    let left = edition.left();
    if left == 0 {
        return println!(rt; "    it is expired and does not age");
    }
    let last = ageing::after(edition, u32::from(left));
    println!(rt;
        "    it has {left} s left, and runs out then as {}",
        Hex(&last.write())
    )?;
    let later = ageing::after(edition, seconds);
    let rest = later.left();
    println!(rt;
        "    {seconds} s later it is {}, with {rest} s left",
        Hex(&later.write())
    )
}

fn next<E: Edition>(rt: &HostRuntime, check: u16, time: u16, edition: &E) -> io::Result<()> {
    match recency::successor(Some(*edition), check, time) {
        Some(next) => println!(rt;
            "    next, with check {check} and {time} s, comes {}",
            Hex(&next.write())
        ),
        None => println!(rt; "    none comes next, as its sequence is the last"),
    }
}

// Which edition is newest, and why.
fn newest<E: Edition>(rt: &HostRuntime, best: usize, editions: &[E]) -> io::Result<()> {
    let Some(newest) = editions.get(best) else {
        return Ok(());
    };
    let first = best + 1;
    println!(rt; "  the newest is edition {first}")?;
    for (number, edition) in (1..).zip(editions) {
        match newest.rank(edition) {
            Rank::Higher => {
                let reason = newest.newer_by(edition);
                println!(rt; "    newer than edition {number}: {reason}")?;
            }
            Rank::Same if number != first => println!(rt; "    the same as edition {number}")?,
            _ => {}
        }
    }
    Ok(())
}
