// Polynomials with coefficients modulo 2, at the counts 4, 8 and 16, each of which divides.
// Bit k of a code is the coefficient of z^k.
ghost use Rattle.std.specs.Prelude.{◌≡◌, ◌%◌, ◌<◌, true};
ghost use Rattle.refusal.specs.Table.{Answers};
ghost use Rattle.levels.specs.Counts.{binary_serves, unserved};
ghost use Rattle.levels.specs.Faults.{told};
ghost use Rattle.levels.specs.Polynomials.{remainder, Remainder, modulus_of, polynomials};
ghost use Rattle.levels.specs.Rings.{inverse as inverse_in};
ghost use Rattle.levels.specs.PolynomialRing.{polynomial_laws};

use crate::arithmetic::{Dividing, Ring};
use crate::fault::ArithmeticFault;

// The inverse of each code, and 0 at 0, of each count.
const INVERSES: [u8; 28] = [
    0, 1, 3, 2, 0, 1, 5, 6, 7, 2, 3, 4, 0, 1, 9, 14, 13, 11, 7, 6, 15, 2, 12, 5, 10, 4, 3, 8,
];

#[derive(Clone, Copy)]
pub struct Binary {
    count: u32,
    ghost served: { binary_serves count ≡ true },
}

impl Binary {
    // Kept: beside those of the other two, since each has counts of its own as its invariant.
    pub fn new(count: u32) -> Result<Binary, ArithmeticFault>
        ensures answer { Answers told (unserved (binary_serves count)) (λ v. v.count ≡ count) result }
    {
        match count {
            4 | 8 | 16 => Ok(Binary { count }),
            _ => Err(ArithmeticFault::Unserved),
        }
    }

    // z² + z + 1, z³ + z + 1 or z⁴ + z + 1.
    fn modulus(&self) -> u32
        ensures { result ≡ modulus_of self.now.count }
    {
        match self.count {
            4 => 0b111,
            8 => 0b1011,
            _ => 0b10011,
        }
    }

    // The product of a code and z: of 2a and 2a less the modulus the one of smaller degree.
    fn times_z(&self, a: u32) -> u32
        requires { a < self.now.count }
        ensures value { result ≡ remainder (modulus_of self.now.count) a 2 }
        ensures below { result < self.now.count }
    {
        let twice = a * 2;
        twice.min(twice ^ self.modulus())
    }
}

impl Ring for Binary {
    ghost ring = { λ p. polynomials p.count };

    ghost laws = { λ a. polynomial_laws a.count a.served };

    fn count(&self) -> u32 {
        self.count
    }

    fn one(&self) -> u32 {
        1
    }

    fn sum(&self, a: u32, b: u32) -> u32 {
        (a % self.count) ^ (b % self.count)
    }

    fn difference(&self, a: u32, b: u32) -> u32 {
        self.sum(a, b)
    }

    // Shift-and-add over the terms of b: the term is a times z^k.
    fn product(&self, a: u32, b: u32) -> u32
        ensures value { result ≡ (polynomials self.now.count).product a b }
        ensures remainder { Remainder (modulus_of self.now.count) (a % self.now.count) (b % self.now.count) result }
    {
        let factor = b % self.count;
        let mut term = a % self.count;
        let mut sum = 0;
        // Kept: k is a bit's number, and the term goes along with the sum: a fold over pairs is no plainer.
        for k in 0..4u32 {
            if (factor >> k) % 2 == 1 {
                sum ^= term;
            }
            term = self.times_z(term);
        }
        sum
    }
}

impl Dividing for Binary {
    ghost inverse = { λ p. inverse_in (polynomials p.count) };

    fn inverse(&self, a: u32) -> u32 {
        u32::from(INVERSES[(self.count - 4 + a % self.count) as usize])
    }
}
