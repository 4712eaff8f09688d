// A shuffler chosen while the program runs.
ghost use Rattle.shuffle.specs.Choice.{ways_of};
ghost use Rattle.shuffle.specs.Lawful.{any_laws};

use crate::Shuffler;
use crate::hash::Hash;
use crate::turn::Turn;

#[derive(Clone, Copy)]
pub enum AnyShuffler {
    Turn,
    Hash,
}

// Kept: no function may hand out a `dyn Shuffler`, and no closure is generic over shufflers, so each way names the two.
impl Shuffler for AnyShuffler {
    ghost ways = { ways_of };

    ghost shuffles = { any_laws };

    fn out(&self, key: u32, size: u32, number: u32) -> u32 {
        match self {
            AnyShuffler::Turn => Turn.out(key, size, number),
            AnyShuffler::Hash => Hash.out(key, size, number),
        }
    }

    fn back(&self, key: u32, size: u32, number: u32) -> u32 {
        match self {
            AnyShuffler::Turn => Turn.back(key, size, number),
            AnyShuffler::Hash => Hash.back(key, size, number),
        }
    }
}
