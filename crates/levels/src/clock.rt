// Residues computed modulo the count, 2 to 16.
ghost use Rattle.std.specs.Prelude.{◌≡◌, true};
ghost use Rattle.refusal.specs.Table.{Answers};
ghost use Rattle.levels.specs.Counts.{clock_serves, unserved};
ghost use Rattle.levels.specs.Faults.{told};
ghost use Rattle.levels.specs.Residues.{residues};
ghost use Rattle.levels.specs.Modular.{clock_laws};

use crate::arithmetic::Ring;
use crate::fault::ArithmeticFault;

#[derive(Clone, Copy)]
pub struct Clock {
    count: u32,
    ghost served: { clock_serves count ≡ true },
}

// Kept: the three types have a `new` each, since each has counts of its own as its invariant: a common one would take the test and the type.
impl Clock {
    pub fn new(count: u32) -> Result<Clock, ArithmeticFault>
        ensures answer { Answers told (unserved (clock_serves count)) (λ v. v.count ≡ count) result }
    {
        match count {
            2..=16 => Ok(Clock { count }),
            _ => Err(ArithmeticFault::Unserved),
        }
    }
}

impl Ring for Clock {
    ghost ring = { λ c. residues c.count };

    ghost laws = { λ a. clock_laws a.count a.served };

    fn count(&self) -> u32 {
        self.count
    }

    fn one(&self) -> u32 {
        1
    }

    fn sum(&self, a: u32, b: u32) -> u32 {
        (a % self.count + b % self.count) % self.count
    }

    fn difference(&self, a: u32, b: u32) -> u32 {
        (a % self.count + (self.count - b % self.count)) % self.count
    }

    fn product(&self, a: u32, b: u32) -> u32 {
        (a % self.count) * (b % self.count) % self.count
    }
}
