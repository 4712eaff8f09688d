// Examples, the edges, and whole sizes out and back.
use crate::any::AnyShuffler;
use crate::hash::Hash;
use crate::turn::Turn;
use crate::{LARGEST, Shuffler};

const LAST: u32 = u32::MAX;

#[test]
fn examples(rt: HostRuntime) {
    for (i, far) in (0..4).zip([3, 1, 0, 2]) {
        assert_eq!(rt; Hash.out(1, 4, i), far);
        assert_eq!(rt; AnyShuffler::Hash.back(1, 4, far), i);
    }
    for i in 0..3 {
        assert_eq!(rt; AnyShuffler::Hash.out(1, 3, i), i);
    }
    assert_eq!(rt; AnyShuffler::Turn.out(LAST, 10, 3), 8);
    assert_eq!(rt; Turn.back(LAST, 10, 8), 3);
}

// The last sum is exact: were it to wrap, two of the three would land on 0.
#[test]
fn exact(rt: HostRuntime) {
    let a = Hash.out(LAST, 3, 0);
    let b = Hash.out(LAST, 3, 1);
    let c = Hash.out(LAST, 3, 2);
    assert!(rt; a != b && b != c && c != a);
}

#[test]
fn outside(rt: HostRuntime) {
    assert_eq!(rt; Hash.out(1, LARGEST + 1, 5), 5);
    assert_eq!(rt; Turn.back(1, LARGEST + 1, 5), 5);
    assert_eq!(rt; Hash.back(1, 4, 4), 4);
    assert_eq!(rt; Turn.out(1, 0, 0), 0);
}

#[test]
fn whole(rt: HostRuntime) {
    for i in 0..LARGEST {
        let far = Hash.out(0xdeadbeef, LARGEST, i);
        assert_eq!(rt; Hash.back(0xdeadbeef, LARGEST, far), i);
        let near = Hash.out(77, 40000, i);
        assert_eq!(rt; Hash.back(77, 40000, near), i);
    }
}
