// The hash: rounds of products and shifts until the number is below the size, and then a turn.
// The way back does inverse rounds, as many and as plain as the rounds of the way out.
ghost use Rattle.std.specs.Prelude.{◌≡◌, ℕ, ◌+◌, ◌-◌, ◌^◌, ◌<◌, ◌≤◌};
ghost use Rattle.shuffle.specs.Keyed.{preimage};
ghost use Rattle.shuffle.specs.Round.{fold, round};
ghost use Rattle.shuffle.specs.Hash.{Hashed, mask as mask_of, hash, hash_ways};
ghost use Rattle.shuffle.specs.Lawful.{hash_laws};

use crate::Shuffler;
use crate::point::Point;
use crate::rounds::Rounds;

#[derive(Clone, Copy)]
pub struct Hash;

impl Shuffler for Hash {
    ghost ways = { λ _. hash_ways };

    ghost shuffles = { λ a. hash_laws };

    fn out(&self, key: u32, size: u32, number: u32) -> u32
        ensures value { result ≡ hash_ways.out key size number }
        ensures hashed { number < size → size ≤ 65536 → Hashed key size number result }
    {
        Point::of(key, size, number).map_or(number, Point::hashed)
    }

    fn back(&self, key: u32, size: u32, number: u32) -> u32 {
        Point::of(key, size, number).map_or(number, Point::hash_back)
    }
}

impl Point {
    // Rounds until below the size, and a turn.
    fn hashed(self) -> u32
        ensures value { result ≡ hash self.key self.size self.number }
        ensures hashed { Hashed self.key self.size self.number result }
    {
        let rounds = self.rounds();
        let mut x = rounds.round(self.number);
        while x >= self.size {
            x = rounds.round(x);
        }
        Point {
            key: self.key,
            size: self.size,
            number: x,
        }
        .rotate()
    }

    // The turn back, and inverse rounds until below the size.
    // Kept: one walk for both would take the step as a closure, whose contract is a relation: the loop then has no measure.
    fn hash_back(self) -> u32
        ensures { result ≡ preimage (hash self.key self.size) self.size self.number }
    {
        let rounds = self.rounds();
        let mut x = rounds.unround(self.rotate_back());
        while x >= self.size {
            x = rounds.unround(x);
        }
        x
    }

    // The mask has as many ones as the size less 1 has binary digits.
    fn rounds(self) -> Rounds
        ensures key { result.key ≡ self.key }
        ensures mask { result.mask ≡ mask_of self.size }
    {
        let Point { key, size, .. } = self;
        let bits = 32 - (size - 1).leading_zeros();
        Rounds {
            key,
            size,
            mask: (1 << bits) - 1,
        }
    }
}

// The inverses modulo 2^32 of the odd numbers below 32.
static INVERSES: [u32; 16] = [
    0x00000001, 0xaaaaaaab, 0xcccccccd, 0xb6db6db7, 0x38e38e39, 0xba2e8ba3, 0xc4ec4ec5, 0xeeeeeeef,
    0xf0f0f0f1, 0x286bca1b, 0x3cf3cf3d, 0xe9bd37a7, 0xc28f5c29, 0x684bda13, 0x4f72c235, 0xbdef7bdf,
];

impl Rounds {
    // An exclusive or with the masked number's high bits.
    fn fold(self, m: u32, i: u32) -> u32
        requires { m < 32 }
        ensures { result ≡ fold self.mask m i }
    {
        i ^ ((i & self.mask) >> m)
    }

    // One round.
    fn round(self, i: u32) -> u32
        ensures { result ≡ round self.mask self.key i }
    {
        let p = self.key;
        let i = self.fold(4, (i ^ p).wrapping_mul(0xe170893d) ^ (p >> 16));
        let i = self.fold(1, (i ^ (p >> 8)).wrapping_mul(0x0929eb3f) ^ (p >> 23));
        let i = i.wrapping_mul(1 | (p >> 27)).wrapping_mul(0x6935fa69);
        let i = self.fold(11, i);
        let i = self.fold(2, i.wrapping_mul(0x74dcb303));
        let i = self.fold(2, i.wrapping_mul(0x9e501cc3));
        let i = i.wrapping_mul(0xc860a3df) & self.mask;
        i ^ (i >> 5)
    }

    // The steps of a round undone, the last one first: a product by the product with the inverse,
    // and a fold by m bits by the folds by 4m, 2m and m bits, as far as 16 bits go.
    fn unround(self, i: u32) -> u32
        requires { i ≤ self.mask }
        ensures { result ≡ preimage (round self.mask self.key) (self.mask + 1) i }
    {
        let p = self.key;
        let i = self.fold(5, self.fold(10, i)).wrapping_mul(0xcef8d81f);
        let i = self
            .fold(2, self.fold(4, self.fold(8, i)))
            .wrapping_mul(0x21ae73eb);
        let i = self
            .fold(2, self.fold(4, self.fold(8, i)))
            .wrapping_mul(0xf247cfab);
        let i = self.fold(11, i).wrapping_mul(0xae4f35d9);
        let i = i.wrapping_mul(INVERSES[(p >> 28) as usize]);
        let i = self.fold(1, self.fold(2, self.fold(4, self.fold(8, i))));
        let i = (i ^ (p >> 23)).wrapping_mul(0xf95384bf) ^ (p >> 8);
        let i = (self.fold(4, self.fold(8, i)) ^ (p >> 16)).wrapping_mul(0x3e779615) ^ p;
        i & self.mask
    }
}
