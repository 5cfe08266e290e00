// A trial script: a call on each line, the first of them start.
use crate::text::Numbered;
use crate::words::{Fault, KindName};
use crate::{text, words};
use anyhow::anyhow;
use calls::originate::Origination;
use packets::ids::{NodeId, PeerGroupId};
use std::alloc::Global;
use std::fmt;

#[derive(Drop)]
pub(crate) struct Script {
    pub start: Start,
    pub steps: Vec<Numbered<Call>>,
}

#[derive(Clone, Copy)]
pub(crate) struct Start {
    pub kind: KindName,
    pub node: NodeId,
    pub group: PeerGroupId,
}

#[derive(Drop)]
pub(crate) enum Call {
    Up {
        line: usize,
        neighbour: NodeId,
        ds_number: u32,
    },
    Down {
        line: usize,
    },
    Originate(OwnElement),
    Second,
}

#[derive(Drop)]
pub(crate) struct OwnElement {
    pub number: u32,
    pub element_type: u16,
    pub check: u16,
    pub time: u16,
    pub body: Vec<u8>,
}

impl<'a> From<&'a OwnElement> for Origination<'a> {
    fn from(element: &'a OwnElement) -> Origination<'a> {
        Origination {
            number: element.number,
            element_type: element.element_type,
            check: element.check,
            time: element.time,
            body: element.body.as_slice(),
        }
    }
}

// The script's word for it.
impl fmt::Display for Call {
    fn fmt<W: fmt::Write>(&self, f: &mut fmt::Formatter<W>) -> fmt::Result {
        f.pad(match self {
            Call::Up { .. } => "up",
            Call::Down { .. } => "down",
            Call::Originate(_) => "originate",
            Call::Second => "second",
        })
    }
}

const START: &str =
    "start KIND NODE GROUP: KIND is topology or cache, NODE 44 hex digits, GROUP 28";

const FIRST: &str = "start KIND NODE GROUP as the first call";

const CALL: &str = "up, down, originate or second";

const UP: &str =
    "up LINE NODE DS: LINE is a number, NODE 44 hex digits, DS a number up to 4294967295";

const DOWN: &str = "down LINE: LINE is a number";

const ORIGINATE: &str =
    "originate NUMBER TYPE CHECK TIME BODY: NUMBER is a number up to 4294967295, TYPE, CHECK and TIME are up to 65535, BODY is pairs of hex digits, or - for none";

const SECOND: &str = "second, and nothing behind it";

const NODE: &str = "NODE, 44 hex digits";

const GROUP: &str = "GROUP, 28 hex digits";

const LINE: &str = "LINE, a number up to 18446744073709551615";

const DS: &str = "DS, a number up to 4294967295";

const NUMBER: &str = "NUMBER, a number up to 4294967295";

const TYPE: &str = "TYPE, a number up to 65535";

const CHECK: &str = "CHECK, a number up to 65535";

const TIME: &str = "TIME, a number up to 65535";

const BODY: &str = "BODY, pairs of hex digits or - for none";

pub(crate) fn read(rt: &HostRuntime, text: &str) -> anyhow::Result<Script> {
    let mut first = First::Unread;
    let steps = text::read(rt, text, "no calls, and nothing is played", |line| {
        Ok(read_line(rt.alloc(), &mut first, line))
    })?;
    match first {
        First::Read(start) => Ok(Script { start, steps }),
        First::Unread | First::Bad => {
            Err(anyhow!("expected start KIND NODE GROUP, found the end of the script"))
        }
    }
}

// What became of the first line with words.
#[derive(Clone, Copy)]
enum First {
    Unread,
    Bad,
    Read(Start),
}

// `None` for a line without words, and for the first with some, which goes to `first`.
fn read_line<'a>(
    heap: Global,
    first: &mut First,
    line: &'a str,
) -> Result<Option<Call>, Fault<'a>> {
    let mut words = line.split_whitespace();
    let Some(word) = words.next() else {
        return Ok(None);
    };
    if let First::Unread = first {
        *first = First::Bad;
        let rest: Vec<&str> = words.collect(heap)?;
        *first = First::Read(read_start(word, rest.as_slice())?);
        return Ok(None);
    }
    let rest: Vec<&str> = words.collect(heap)?;
    Ok(Some(read_call(heap, word, rest.as_slice())?))
}

fn read_start<'a>(word: &'a str, rest: &[&'a str]) -> Result<Start, Fault<'a>> {
    if word != "start" {
        return Err(Fault::Found {
            expected: FIRST,
            word,
        });
    }
    let [kind, node, group] = rest else {
        return Err(Fault::Line { expected: START });
    };
    Ok(Start {
        kind: KindName::try_from(*kind)?,
        node: NodeId {
            bytes: words::array(node, NODE)?,
        },
        group: PeerGroupId {
            bytes: words::array(group, GROUP)?,
        },
    })
}

fn read_call<'a>(heap: Global, word: &'a str, rest: &[&'a str]) -> Result<Call, Fault<'a>> {
    match word {
        "up" => read_up(rest),
        "down" => read_down(rest),
        "originate" => read_originate(heap, rest),
        "second" => read_second(rest),
        _ => Err(Fault::Found {
            expected: CALL,
            word,
        }),
    }
}

fn read_up<'a>(words: &[&'a str]) -> Result<Call, Fault<'a>> {
    let [line, neighbour, ds_number] = words else {
        return Err(Fault::Line { expected: UP });
    };
    Ok(Call::Up {
        line: words::number(line, LINE)?,
        neighbour: NodeId {
            bytes: words::array(neighbour, NODE)?,
        },
        ds_number: words::number(ds_number, DS)?,
    })
}

fn read_down<'a>(words: &[&'a str]) -> Result<Call, Fault<'a>> {
    let [line] = words else {
        return Err(Fault::Line { expected: DOWN });
    };
    Ok(Call::Down {
        line: words::number(line, LINE)?,
    })
}

fn read_originate<'a>(heap: Global, words: &[&'a str]) -> Result<Call, Fault<'a>> {
    let [number, element_type, check, time, body] = words else {
        return Err(Fault::Line {
            expected: ORIGINATE,
        });
    };
    Ok(Call::Originate(OwnElement {
        number: words::number(number, NUMBER)?,
        element_type: words::number(element_type, TYPE)?,
        check: words::number(check, CHECK)?,
        time: words::number(time, TIME)?,
        body: words::bytes(heap, body, BODY)?,
    }))
}

fn read_second<'a>(words: &[&'a str]) -> Result<Call, Fault<'a>> {
    if words.is_empty() {
        Ok(Call::Second)
    } else {
        Err(Fault::Line { expected: SECOND })
    }
}
