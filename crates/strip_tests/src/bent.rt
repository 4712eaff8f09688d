// What would go wrong were a rule bent.
use crate::common::{cell, planned};
use levels::arithmetic::Ring;
use levels::binary::Binary;
use levels::clock::Clock;
use shuffle::Shuffler;
use shuffle::hash::Hash;
use shuffle::turn::Turn;
use std::collections::BTreeSet;
use std::process::Abort;
use std::test::Fail;

// The hash's last sum is exact: were it to wrap, two of the three numbers would land on 0.
#[test]
fn exact(rt: HostRuntime) {
    let [a, b, c] = [0u32, 1, 2].map(|number| Hash.out(0xffffffff, 3, number));
    assert!(rt; a != b && b != c && c != a);
}

// How many combinations of levels the factors 0 and 2 have at four levels, on labels that are not shuffled.
fn combinations<R: Ring + Copy>(rt: &(impl Abort + AllocGlobal), ring: R) -> Result<usize, Fail> {
    let strip = planned(ring, Turn, 2, 3, 0)?;
    let mut seen = BTreeSet::new(rt.alloc());
    for label in 0..strip.plan.labels {
        let a = cell(&strip, label, 0)?.level;
        let b = cell(&strip, label, 2)?.level;
        assert!(rt; a < 4 && b < 4);
        seen.insert((a, b))?;
    }
    Ok(seen.len())
}

// Clock residues for four levels miss half of them, since 2 times 2 is 0.
#[test]
fn clock(rt: HostRuntime) -> Result<(), Fail> {
    assert_eq!(rt; combinations(&rt, Clock::new(4)?)?, 8);
    assert_eq!(rt; combinations(&rt, Binary::new(4)?)?, 16);
    Ok(())
}
