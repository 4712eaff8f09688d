// One arithmetic for each count from 2 to 16.
ghost use Rattle.refusal.specs.Table.{Answers};
ghost use Rattle.levels.specs.Choice.{meaning, Chosen};
ghost use Rattle.levels.specs.Counts.{clock_serves, unserved};
ghost use Rattle.levels.specs.Faults.{told};
ghost use Rattle.levels.specs.declared.choice.AnyRing.TheVariants.{Clock, Listed, Binary};
ghost use Rattle.levels.specs.Modular.{clock_laws, listed_laws};
ghost use Rattle.levels.specs.PolynomialRing.{polynomial_laws};

use crate::arithmetic::Ring;
use crate::binary::Binary;
use crate::clock::Clock;
use crate::fault::ArithmeticFault;
use crate::listed::Listed;

#[derive(Clone, Copy)]
pub enum AnyRing {
    Clock(Clock),
    Listed(Listed),
    Binary(Binary),
}

impl AnyRing {
    // Polynomials and tables at the counts that they serve, clock residues at the rest.
    pub fn of(count: u32) -> Result<AnyRing, ArithmeticFault>
        ensures answer { Answers told (unserved (clock_serves count)) (Chosen count) result }
    {
        match count {
            4 | 8 | 16 => Ok(AnyRing::Binary(Binary::new(count)?)),
            2 | 3 | 5 | 7 | 11 | 13 => Ok(AnyRing::Listed(Listed::new(count)?)),
            _ => Ok(AnyRing::Clock(Clock::new(count)?)),
        }
    }
}

// Kept: no function may hand out a `dyn Ring`, and no closure is generic over rings, so each operation names the three.
impl Ring for AnyRing {
    ghost ring = { meaning };

    ghost laws = { elim [
      | Clock c ↦ clock_laws c.count c.served
      | Listed l ↦ listed_laws l.count l.served
      | Binary p ↦ polynomial_laws p.count p.served
    ] };

    fn count(&self) -> u32 {
        match self {
            AnyRing::Clock(ring) => ring.count(),
            AnyRing::Listed(ring) => ring.count(),
            AnyRing::Binary(ring) => ring.count(),
        }
    }

    fn one(&self) -> u32 {
        match self {
            AnyRing::Clock(ring) => ring.one(),
            AnyRing::Listed(ring) => ring.one(),
            AnyRing::Binary(ring) => ring.one(),
        }
    }

    fn sum(&self, a: u32, b: u32) -> u32 {
        match self {
            AnyRing::Clock(ring) => ring.sum(a, b),
            AnyRing::Listed(ring) => ring.sum(a, b),
            AnyRing::Binary(ring) => ring.sum(a, b),
        }
    }

    fn difference(&self, a: u32, b: u32) -> u32 {
        match self {
            AnyRing::Clock(ring) => ring.difference(a, b),
            AnyRing::Listed(ring) => ring.difference(a, b),
            AnyRing::Binary(ring) => ring.difference(a, b),
        }
    }

    fn product(&self, a: u32, b: u32) -> u32 {
        match self {
            AnyRing::Clock(ring) => ring.product(a, b),
            AnyRing::Listed(ring) => ring.product(a, b),
            AnyRing::Binary(ring) => ring.product(a, b),
        }
    }
}
