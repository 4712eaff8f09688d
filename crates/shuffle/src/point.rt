// A number that is to move: one below its size, at a size up to the largest, with the key that moves it.
ghost use Rattle.std.specs.Prelude.{◌≡◌, ◌^◌, ◌<◌, ◌≤◌, ◌&&◌, false, nat_lt, nat_le, MatchOption};

use crate::LARGEST;

#[derive(Clone, Copy)]
pub(crate) struct Point {
    pub(crate) key: u32,
    pub(crate) size: u32,
    pub(crate) number: u32,
    ghost keyed: { key < 2 ^ 32 },
    ghost below: { number < size },
    ghost few: { size ≤ 65536 },
}

impl Point {
    // None where the number is its own image.
    pub(crate) fn of(key: u32, size: u32, number: u32) -> Option<Point>
        ensures { MatchOption result ((nat_lt number size && nat_le size 65536) ≡ false) (λ p. (p.key ≡ key) × (p.size ≡ size) × (p.number ≡ number)) }
    {
        if number < size && size <= LARGEST {
            Some(Point { key, size, number })
        } else {
            None
        }
    }
}
