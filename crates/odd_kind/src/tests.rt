use crate::odd::Odd;
use kinds::ageing::after;
use kinds::cache::Cache;
use kinds::kind::Kind;
use kinds::rank::Rank;
use kinds::recency::{newest, successor};
use kinds::topology::Topology;
use std::test::Fail;

// How the first ranks against the second, both read from bytes.
fn ranked<K: Kind>(first: [u8; 8], second: [u8; 8]) -> Rank {
    K::read(first).rank(&K::read(second))
}

#[test]
fn topology_ranks(rt: HostRuntime) {
    let expired = ranked::<Topology>([0, 0, 0, 5, 0, 7, 0, 0], [0, 0, 0, 5, 0, 7, 14, 16]);
    assert!(rt; matches!(expired, Rank::Higher), "expired over unexpired");
    let unwrapped = ranked::<Topology>([255, 255, 255, 255, 0, 0, 0, 1], [0, 0, 0, 0, 0, 0, 0, 1]);
    assert!(rt;
        matches!(unwrapped, Rank::Higher),
        "the last sequence over 0"
    );
    let checked = ranked::<Topology>([0, 0, 0, 5, 0, 7, 14, 16], [0, 0, 0, 5, 0, 9, 0, 1]);
    assert!(rt; matches!(checked, Rank::Lower), "check 7 below 9");
    let both = ranked::<Topology>([0, 0, 0, 5, 0, 9, 0, 0], [0, 0, 0, 5, 0, 7, 0, 0]);
    assert!(rt;
        matches!(both, Rank::Higher),
        "the check decides between expired ones"
    );
}

#[test]
fn cache_ranks(rt: HostRuntime) {
    let signed = ranked::<Cache>([255, 255, 255, 255, 0, 0, 0, 1], [0, 0, 0, 0, 0, 0, 0, 1]);
    assert!(rt; matches!(signed, Rank::Lower), "-1 below 0");
    let flags = ranked::<Cache>([0, 0, 0, 0, 0, 3, 0, 1], [0, 0, 0, 0, 0, 0, 0, 9]);
    assert!(rt;
        matches!(flags, Rank::Same),
        "flags and hold time do not rank"
    );
    let expired = ranked::<Cache>([0, 0, 0, 0, 0, 0, 0, 0], [0, 0, 0, 0, 128, 0, 0, 9]);
    assert!(rt; matches!(expired, Rank::Same), "expired either way");
}

#[test]
fn cache_has_a_last_sequence(rt: HostRuntime) -> Result<(), Fail> {
    let near = Cache {
        sequence: i32::MAX - 1,
        flags: 0x8000,
        hold: 3,
    };
    let last = near.next(9, 60).ok_or("no next")?;
    assert_eq!(rt; last.write(), [127, 255, 255, 255, 0, 0, 0, 60]);
    assert!(rt; last.next(9, 60).is_none(), "nothing follows the last");
    assert_eq!(rt; Cache::first(9, 60).write(), [128, 0, 0, 1, 0, 0, 0, 60]);
    Ok(())
}

#[test]
fn odd_ranks_alike_what_differs(rt: HostRuntime) {
    let expired = Odd {
        time: 0,
        boot: 7,
        step: 4,
        changes: 1,
    };
    let running = Odd {
        time: 9,
        boot: 7,
        step: 5,
        changes: 0,
    };
    assert!(rt;
        matches!(expired.rank(&running), Rank::Same),
        "one is expired"
    );
    let again = expired.expired();
    assert!(rt; matches!(again.rank(&expired), Rank::Same));
    assert_eq!(rt; again.write(), [0, 0, 0, 7, 0, 4, 0, 2]);
}

#[test]
fn odd_goes_the_way_of_every_kind(rt: HostRuntime) -> Result<(), Fail> {
    let made = Odd::first(7, 2);
    assert_eq!(rt; after(&made, 1).write(), [0, 1, 0, 7, 0, 1, 0, 1]);
    let gone = after(&made, 100);
    assert_eq!(rt; gone.write(), [0, 0, 0, 7, 0, 1, 0, 2]);
    let next = successor(Some(gone), 0, 5).ok_or("no next")?;
    assert_eq!(rt; next.write(), [0, 5, 0, 7, 0, 3, 0, 0]);
    assert_eq!(rt; newest(&[made, gone, next, next]), Some(2));
    Ok(())
}
