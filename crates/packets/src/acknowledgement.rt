// The acknowledgement: groups of one node ID each, with numbers and instances.
ghost use Rattle.std.proofs.Common.{arith};
ghost use Rattle.packets.specs.Acknowledgements.{entry_at};

use crate::entry::Entry;

#[derive(Clone, Copy)]
pub struct Acknowledged {
    pub number: u32,
    pub instance: [u8; 8],
}

impl Entry for Acknowledged {
    ghost size = { 12 };

    ghost at = { entry_at };

    ghost some = { Prim.omega arith };

    fn split(entries: &[u8]) -> Option<(Acknowledged, &[u8])> {
        let ([n0, n1, n2, n3], rest) = entries.split_first_chunk::<4>()?;
        let (instance, rest) = rest.split_first_chunk::<8>()?;
        let number = u32::from_be_bytes([*n0, *n1, *n2, *n3]);
        Some((
            Acknowledged {
                number,
                instance: *instance,
            },
            rest,
        ))
    }
}
