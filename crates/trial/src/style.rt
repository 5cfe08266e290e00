// How what a captured packet holds is printed: in words for a tester, or on one line for another program.
use crate::hex::Hex;
use crate::shown::{Flags, Shown};
use packets::acknowledgement::Acknowledged;
use packets::bundle::{Bundle, Element};
use packets::ids::NodeId;
use packets::packet::{Fault, Packet};
use packets::summary::{Described, Description, SummaryHead};
use std::{fmt, io};

pub(crate) trait Style {
    fn found(rt: &HostRuntime, line: usize, length: usize) -> io::Result<()>;

    // The number of the refusal, and the place of the fault.
    fn refused(rt: &HostRuntime, number: u8, fault: Fault, place: usize) -> io::Result<()>;

    fn packet(rt: &HostRuntime, packet: &Packet<'_>) -> io::Result<()>;

    fn bundle(rt: &HostRuntime, bundle: &Bundle<'_>) -> io::Result<()>;

    fn element(rt: &HostRuntime, element: &Element<'_>) -> io::Result<()>;

    // The node that a group of an acknowledgement or of a request names.
    fn named(rt: &HostRuntime, node: &NodeId) -> io::Result<()>;

    fn acknowledged(rt: &HostRuntime, entry: &Acknowledged) -> io::Result<()>;

    fn summary(rt: &HostRuntime, head: SummaryHead) -> io::Result<()>;

    fn described(rt: &HostRuntime, described: &Described<'_>) -> io::Result<()>;

    fn description(rt: &HostRuntime, entry: &Description) -> io::Result<()>;

    fn requested(rt: &HostRuntime, number: u32) -> io::Result<()>;

    // The packet as it was read, and as it is written back.
    fn written(rt: &HostRuntime, bytes: &[u8], back: &[u8]) -> io::Result<()>;
}

// An element's body, or what is said where it has no bytes; displayed, so that an element is one write.
#[derive(Clone, Copy)]
struct Body<'a> {
    bytes: &'a [u8],
    before: &'static str,
    none: &'static str,
}

impl fmt::Display for Body<'_> {
    fn fmt<W: fmt::Write>(&self, f: &mut fmt::Formatter<W>) -> fmt::Result {
        if self.bytes.is_empty() {
            return f.write_str(self.none);
        }
        write!(f, "{}{}", self.before, Hex(self.bytes))
    }
}

pub(crate) struct Words;

impl Style for Words {
    fn found(rt: &HostRuntime, line: usize, length: usize) -> io::Result<()> {
        println!(rt; "line {line}: {length} bytes")
    }

    fn refused(rt: &HostRuntime, number: u8, fault: Fault, place: usize) -> io::Result<()> {
        println!(rt;
            "  refused with {number}: {}, at byte {place}\n",
            Shown(fault)
        )
    }

    fn packet(rt: &HostRuntime, packet: &Packet<'_>) -> io::Result<()> {
        println!(rt;
            "  {}, newest version {}, oldest {}",
            Shown(packet.content.packet_type()),
            packet.newest,
            packet.oldest
        )
    }

    fn bundle(rt: &HostRuntime, bundle: &Bundle<'_>) -> io::Result<()> {
        println!(rt;
            "  node {}, peer group {}",
            Hex(&bundle.node.bytes),
            Hex(&bundle.group.bytes)
        )
    }

    fn element(rt: &HostRuntime, element: &Element<'_>) -> io::Result<()> {
        println!(rt;
            "    element {}, type {}, instance {}, {}",
            element.number,
            element.element_type,
            Hex(&element.instance),
            Body {
                bytes: element.body,
                before: "body ",
                none: "no body",
            }
        )
    }

    fn named(rt: &HostRuntime, node: &NodeId) -> io::Result<()> {
        println!(rt; "  of node {}", Hex(&node.bytes))
    }

    fn acknowledged(rt: &HostRuntime, entry: &Acknowledged) -> io::Result<()> {
        println!(rt;
            "    element {}, instance {}",
            entry.number,
            Hex(&entry.instance)
        )
    }

    fn summary(rt: &HostRuntime, head: SummaryHead) -> io::Result<()> {
        println!(rt; "  DS number {}, flags {}", head.ds_number, Flags(head))
    }

    fn described(rt: &HostRuntime, described: &Described<'_>) -> io::Result<()> {
        println!(rt;
            "  of node {}, peer group {}",
            Hex(&described.node.bytes),
            Hex(&described.group.bytes)
        )
    }

    fn description(rt: &HostRuntime, entry: &Description) -> io::Result<()> {
        println!(rt;
            "    element {}, type {}, instance {}",
            entry.number,
            entry.element_type,
            Hex(&entry.instance)
        )
    }

    fn requested(rt: &HostRuntime, number: u32) -> io::Result<()> {
        println!(rt; "    element {number}")
    }

    fn written(rt: &HostRuntime, bytes: &[u8], back: &[u8]) -> io::Result<()> {
        if back == bytes {
            println!(rt; "  written back as it was: {}\n", Hex(back))
        } else {
            println!(rt;
                "  written back with its reserved bytes zero: {}\n",
                Hex(back)
            )
        }
    }
}

pub(crate) struct Plain;

impl Style for Plain {
    fn found(_rt: &HostRuntime, _line: usize, _length: usize) -> io::Result<()> {
        Ok(())
    }

    fn refused(rt: &HostRuntime, number: u8, fault: Fault, place: usize) -> io::Result<()> {
        println!(rt; "{number} {} {place}", Shown(fault))
    }

    fn packet(rt: &HostRuntime, packet: &Packet<'_>) -> io::Result<()> {
        print!(rt;
            "0 {} {} {}",
            Shown(packet.content.packet_type()),
            packet.newest,
            packet.oldest
        )
    }

    fn bundle(rt: &HostRuntime, bundle: &Bundle<'_>) -> io::Result<()> {
        print!(rt; " {} {}", Hex(&bundle.node.bytes), Hex(&bundle.group.bytes))
    }

    fn element(rt: &HostRuntime, element: &Element<'_>) -> io::Result<()> {
        print!(rt;
            " element {} {} {} {}",
            element.element_type,
            element.number,
            Hex(&element.instance),
            Body {
                bytes: element.body,
                before: "",
                none: "-",
            }
        )
    }

    fn named(rt: &HostRuntime, node: &NodeId) -> io::Result<()> {
        print!(rt; " group {}", Hex(&node.bytes))
    }

    fn acknowledged(rt: &HostRuntime, entry: &Acknowledged) -> io::Result<()> {
        print!(rt; " entry {} {}", entry.number, Hex(&entry.instance))
    }

    fn summary(rt: &HostRuntime, head: SummaryHead) -> io::Result<()> {
        print!(rt; " {} {}", head.flags, head.ds_number)
    }

    fn described(rt: &HostRuntime, described: &Described<'_>) -> io::Result<()> {
        print!(rt;
            " group {} {}",
            Hex(&described.node.bytes),
            Hex(&described.group.bytes)
        )
    }

    fn description(rt: &HostRuntime, entry: &Description) -> io::Result<()> {
        print!(rt;
            " entry {} {} {}",
            entry.element_type,
            entry.number,
            Hex(&entry.instance)
        )
    }

    fn requested(rt: &HostRuntime, number: u32) -> io::Result<()> {
        print!(rt; " entry {number}")
    }

    fn written(rt: &HostRuntime, _bytes: &[u8], back: &[u8]) -> io::Result<()> {
        println!(rt; " written {}", Hex(back))
    }
}
