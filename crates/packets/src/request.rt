// The request: groups of one node ID each, with numbers.
ghost use Rattle.std.proofs.Common.{arith};
ghost use Rattle.packets.specs.Requests.{number_at};

use crate::entry::Entry;

impl Entry for u32 {
    ghost size = { 4 };

    ghost at = { number_at };

    ghost some = { Prim.omega arith };

    fn split(entries: &[u8]) -> Option<(u32, &[u8])> {
        let ([n0, n1, n2, n3], rest) = entries.split_first_chunk::<4>()?;
        Some((u32::from_be_bytes([*n0, *n1, *n2, *n3]), rest))
    }
}
