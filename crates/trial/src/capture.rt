// What a captured packet holds.
use crate::style::Style;
use crate::words::Fault as LineFault;
use crate::{hex, text};
use calls::refusal::Refusal;
use codec::back::write_back;
use packets::bundle::{Bundle, Element};
use packets::entry::{Entries, Entry};
use packets::group::Groups;
use packets::header::HeaderFault;
use packets::layout::PacketType;
use packets::named::Named;
use packets::packet;
use packets::packet::{Content, Fault, Packet};
use packets::summary::{Described, Description, Summary};
use std::alloc::Global;
use std::io;

// A packet on each line, in hex digits, or `-` for one without bytes.
pub(crate) fn report<S: Style>(rt: &HostRuntime, text: &str) -> anyhow::Result<()> {
    let packets = text::read(rt, text, "no packets, and nothing is reported", |line| {
        captured(rt.alloc(), line)
    })?;
    for packet in &packets {
        print::<S>(rt, packet.at, packet.content.as_slice())?;
    }
    Ok(())
}

fn captured(heap: Global, line: &str) -> text::Read<Vec<u8>, LineFault<'_>> {
    let digits = match line.trim() {
        "" => return Ok(Ok(None)),
        "-" => "",
        digits => digits,
    };
    let bytes = hex::bytes(heap, digits)?;
    Ok(
        bytes.map(Some).ok_or(LineFault::Line {
            expected: "a packet, in pairs of hex digits",
        }),
    )
}

// One captured packet; `line` is where it was found.
fn print<S: Style>(rt: &HostRuntime, line: usize, bytes: &[u8]) -> io::Result<()> {
    S::found(rt, line, bytes.len())?;
    match packet::read(bytes) {
        Ok(packet) => {
            S::packet(rt, &packet)?;
            content::<S>(rt, &packet)?;
            written::<S>(rt, bytes)
        }
        Err(fault) => S::refused(rt, u8::from(refusal(fault)), fault, place(fault)),
    }
}

// What a call that is given the packet declines with.
fn refusal(fault: Fault) -> Refusal {
    match fault {
        Fault::Header(_) => Refusal::PacketHeader,
        Fault::Group { .. } => Refusal::PacketGroup,
    }
}

// The byte at which the fault is.
fn place(fault: Fault) -> usize {
    match fault {
        Fault::Header(HeaderFault::Short | HeaderFault::Long | HeaderFault::Type) => 0,
        Fault::Header(HeaderFault::Length) => 2,
        Fault::Header(HeaderFault::Version) => 4,
        Fault::Header(HeaderFault::Cut) => 8,
        Fault::Group { at, .. } => at,
    }
}

fn content<S: Style>(rt: &HostRuntime, packet: &Packet<'_>) -> io::Result<()> {
    match packet.content {
        Content::Bundle(parts) => bundle::<S>(rt, &parts),
        Content::Acknowledgement(groups) => {
            named::<S, _, _>(rt, PacketType::Acknowledgement, groups, |entry| {
                S::acknowledged(rt, &entry)
            })
        }
        Content::Summary(parts) => summary::<S>(rt, &parts),
        Content::Request(groups) => named::<S, _, _>(rt, PacketType::Request, groups, |number| {
            S::requested(rt, number)
        }),
    }
}

fn bundle<S: Style>(rt: &HostRuntime, bundle: &Bundle<'_>) -> io::Result<()> {
    S::bundle(rt, bundle)?;
    for content in Groups::new(PacketType::Bundle, bundle.groups) {
        if let Some(element) = Element::read(content) {
            S::element(rt, &element)?;
        }
    }
    Ok(())
}

fn summary<S: Style>(rt: &HostRuntime, summary: &Summary<'_>) -> io::Result<()> {
    S::summary(rt, summary.head)?;
    for content in Groups::new(PacketType::Summary, summary.groups) {
        if let Some(described) = Described::read(content) {
            S::described(rt, &described)?;
            for entry in Entries::<Description>::new(described.entries) {
                S::description(rt, &entry)?;
            }
        }
    }
    Ok(())
}

// The groups of an acknowledgement or of a request, each of one node.
// Stays: the packet's type comes beside the entry's, as an entry does not know in which packet it stands.
fn named<S: Style, E: Entry, F: Fn(E) -> io::Result<()>>(
    rt: &HostRuntime,
    of: PacketType,
    groups: &[u8],
    print: F,
) -> io::Result<()>
    requires { F.IsAlwaysCallable print }
{
    for content in Groups::new(of, groups) {
        if let Some(named) = Named::read(content) {
            S::named(rt, &named.node)?;
            for entry in Entries::<E>::new(named.entries) {
                print(entry)?;
            }
        }
    }
    Ok(())
}

// The packet as it is written back, with its reserved bytes zero.
fn written<S: Style>(rt: &HostRuntime, bytes: &[u8]) -> io::Result<()> {
    let mut buffer = [0; 2048];
    let length = write_back(bytes, &mut buffer).ok();
    match length.and_then(|length| buffer.get(..length)) {
        Some(back) => S::written(rt, bytes, back),
        None => Ok(()),
    }
}
