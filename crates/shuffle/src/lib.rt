// Shufflers: keyed permutations of the numbers below a size, each with its way back.
#![tactic(auto)]

ghost use Rattle.std.specs.Prelude.{◌≡◌};
ghost use Rattle.shuffle.specs.Ways.{Ways, ShuffleLaws};

pub mod any;
pub mod hash;
mod point;
mod rounds;
pub mod turn;

// The largest size at which numbers move.
pub const LARGEST: u32 = 65536;

// A way out and a way back. For one key and size each permutes the numbers below the size and undoes the other.
pub trait Shuffler {
    ghost ways: { Self → Ways };

    fn out(&self, key: u32, size: u32, number: u32) -> u32
        ensures { result ≡ (ways self.now).out key size number };

    fn back(&self, key: u32, size: u32, number: u32) -> u32
        ensures { result ≡ (ways self.now).back key size number };

    ghost shuffles: { (a : Self) → ShuffleLaws (ways a) };
}

#[cfg(test)]
mod tests;
