// A packet that is being written: open, with a group open, or finished. Each state is a few numbers that move from step
// to step, and the buffer is lent to each step. What is open is not `Drop`, so it has to be closed and finished.
ghost use Rattle.std.specs.Prelude.{◌≡◌, ◌+◌, ◌≤◌, [], ◌∷◌, ◌++◌, length};
ghost use Rattle.writer.specs.Writers.{added, added_bytes, begun, begun_bytes, closed, closed_bytes, finished, finished_bytes, fits_in, grouped, grouped_bytes, pasted, put16_at};

use packets::header::HeaderFault;
use packets::layout::PacketType;
use places::row::put;

// No packet is longer.
pub const LONGEST: usize = 2048;

pub struct Open {
    len: u16,
}

pub struct GroupOpen {
    // Where the group begins.
    start: u16,
    len: u16,
}

#[derive(Drop)]
pub struct Finished {
    pub len: u16,
}

// An addition that was declined, with the packet as it was.
pub struct Declined<S> {
    pub state: S,
    pub fault: HeaderFault,
}

impl Open {
    // The header, and the part after it, which comes in two pieces.
    pub fn begin(
        buffer: &mut [u8],
        of: PacketType,
        newest: u8,
        oldest: u8,
        first: &[u8],
        second: &[u8],
    ) -> Result<Open, HeaderFault>
        ensures state { result ≡ begun (length buffer.old) first.now second.now }
        ensures bytes { buffer.new ≡ begun_bytes buffer.old of newest oldest first.now second.now }
    {
        if !fits(0, buffer, 8, first, second, &[]) {
            return Err(HeaderFault::Long);
        }
        let [high, low] = u16::from(of).to_be_bytes();
        append(
            buffer,
            0,
            &[high, low, 0, 0, 1, newest, oldest, 0],
            first,
            second,
            &[],
        );
        Ok(Open {
            len: (8 + first.len() + second.len()) as u16,
        })
    }

    // A group's type, and what its fixed part and entries begin with, in three pieces.
    pub fn group(
        self,
        buffer: &mut [u8],
        of: PacketType,
        first: &[u8],
        second: &[u8],
        third: &[u8],
    ) -> Result<GroupOpen, Declined<Open>>
        ensures state { result ≡ grouped self (length buffer.old) first.now second.now third.now }
        ensures bytes { buffer.new ≡ grouped_bytes self buffer.old of first.now second.now third.now }
    {
        let Open { len } = self;
        if !fits(len, buffer, 4, first, second, third) {
            return Err(Declined {
                state: Open { len },
                fault: HeaderFault::Long,
            });
        }
        let [high, low] = of.group_number().to_be_bytes();
        append(
            buffer,
            usize::from(len),
            &[high, low, 0, 0],
            first,
            second,
            third,
        );
        let more = 4 + first.len() + second.len() + third.len();
        Ok(GroupOpen {
            start: len,
            len: len + more as u16,
        })
    }

    // Puts the packet's length into its header.
    pub fn finish(self, buffer: &mut [u8]) -> Finished
        ensures state { result ≡ finished self }
        ensures bytes { buffer.new ≡ finished_bytes self buffer.old }
    {
        let Open { len } = self;
        put16(buffer, 2, len);
        Finished { len }
    }
}

impl GroupOpen {
    // An entry, in two pieces.
    pub fn add(
        self,
        buffer: &mut [u8],
        first: &[u8],
        second: &[u8],
    ) -> Result<GroupOpen, Declined<GroupOpen>>
        ensures state { result ≡ added self (length buffer.old) first.now second.now }
        ensures bytes { buffer.new ≡ added_bytes self buffer.old first.now second.now }
    {
        let GroupOpen { start, len } = self;
        if !fits(len, buffer, 0, first, second, &[]) {
            return Err(Declined {
                state: GroupOpen { start, len },
                fault: HeaderFault::Long,
            });
        }
        append(buffer, usize::from(len), first, second, &[], &[]);
        let more = first.len() + second.len();
        Ok(GroupOpen {
            start,
            len: len + more as u16,
        })
    }

    // Puts the group's length behind its type.
    pub fn close(self, buffer: &mut [u8]) -> Open
        ensures state { result ≡ closed self }
        ensures bytes { buffer.new ≡ closed_bytes self buffer.old }
    {
        let GroupOpen { start, len } = self;
        put16(buffer, usize::from(start) + 2, len.saturating_sub(start));
        Open { len }
    }
}

// Whether some bytes and three pieces can be added without passing the longest packet or the buffer's end.
// Stays: the pieces come one by one; tried as an array, and in `group` the borrow checker takes none of slices of three lifetimes.
fn fits(len: u16, buffer: &[u8], more: usize, first: &[u8], second: &[u8], third: &[u8]) -> bool
    requires { more ≤ 8 }
    ensures { result ≡ fits_in len (length buffer.now) (more + (length first.now + (length second.now + length third.now))) }
{
    let each = first.len() <= LONGEST && second.len() <= LONGEST && third.len() <= LONGEST;
    each && usize::from(len) + more + first.len() + second.len() + third.len()
        <= buffer.len().min(LONGEST)
}

// Writes pieces one behind the other.
fn append(buffer: &mut [u8], at: usize, first: &[u8], second: &[u8], third: &[u8], fourth: &[u8])
    requires { at + (length first.now + (length second.now + (length third.now + length fourth.now))) ≤ length buffer.old }
    ensures { buffer.new ≡ pasted at (first.now ++ (second.now ++ (third.now ++ fourth.now))) buffer.old }
{
    let to_second = at + first.len();
    let to_third = to_second + second.len();
    let to_fourth = to_third + third.len();
    paste(buffer, at, first);
    paste(buffer, to_second, second);
    paste(buffer, to_third, third);
    paste(buffer, to_fourth, fourth);
}

fn paste(buffer: &mut [u8], at: usize, bytes: &[u8])
    requires { at + length bytes.now ≤ length buffer.old }
    ensures { buffer.new ≡ pasted at bytes.now buffer.old }
{
    buffer[at..at + bytes.len()].copy_from_slice(bytes);
}

// A number at an index, as far as the buffer reaches.
fn put16(buffer: &mut [u8], at: usize, n: u16)
    requires { at ≤ 65537 }
    ensures { buffer.new ≡ put16_at at n buffer.old }
{
    let [high, low] = n.to_be_bytes();
    put(buffer, at, high);
    put(buffer, at + 1, low);
}
