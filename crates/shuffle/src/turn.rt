// The turn: each number goes as far round as the key says.
ghost use Rattle.std.specs.Prelude.{◌≡◌};
ghost use Rattle.shuffle.specs.Keyed.{preimage, turn, turn_ways};
ghost use Rattle.shuffle.specs.Lawful.{turn_laws};

use crate::Shuffler;
use crate::point::Point;

#[derive(Clone, Copy)]
pub struct Turn;

impl Shuffler for Turn {
    ghost ways = { λ _. turn_ways };

    ghost shuffles = { λ a. turn_laws };

    fn out(&self, key: u32, size: u32, number: u32) -> u32 {
        Point::of(key, size, number).map_or(number, Point::rotate)
    }

    fn back(&self, key: u32, size: u32, number: u32) -> u32 {
        Point::of(key, size, number).map_or(number, Point::rotate_back)
    }
}

impl Point {
    // The sum is exact: it does not wrap at 2^32.
    pub(crate) fn rotate(self) -> u32
        ensures { result ≡ turn self.key self.size self.number }
    {
        ((u64::from(self.number) + u64::from(self.key)) % u64::from(self.size)) as u32
    }

    // The number that `rotate` sends here.
    pub(crate) fn rotate_back(self) -> u32
        ensures { result ≡ preimage (turn self.key self.size) self.size self.number }
    {
        let turned = self.key % self.size;
        if self.number < turned {
            self.number + (self.size - turned)
        } else {
            self.number - turned
        }
    }
}
