// One label's level and fine setting for one factor.
ghost use Rattle.std.specs.Prelude.{◌≡◌, ℕ, ◌+◌, ◌*◌, ◌/◌, ◌^◌, ◌<◌, ◌≤◌};
ghost use Rattle.strip.specs.Labels.{point, key, value_at, level_at, sublevel_at, cell_at};

use crate::cell::Cell;
use crate::labels::Labels;
use levels::arithmetic::Ring;
use shuffle::Shuffler;

// The code at which a factor takes the value of a label's polynomial.
pub(crate) fn point(factor: u32) -> u32
    ensures { result ≡ point factor }
{
    factor
}

// What the keys are multiplied by, by which a factor's levels and its sub-levels are shuffled.
pub(crate) const LEVELS: u32 = 0x51633e2d;

pub(crate) const SUBLEVELS: u32 = 0x68bc21eb;

// A key of a factor.
pub(crate) fn key(constant: u32, seed: u32, factor: u32) -> u32
    requires { factor < 16 }
    ensures { result ≡ key constant seed factor }
{
    seed.wrapping_mul(factor + 1).wrapping_mul(constant)
}

// The value at x of the polynomial whose `terms` coefficients are the lowest digits of n.
pub(crate) fn value<R: Ring>(ring: &R, terms: u32, n: u32, x: u32) -> u32
    ensures { result ≡ value_at (R.Ring.ring ring.now) terms n x }
{
    let s = ring.count();
    let mut rest = n;
    let mut power = ring.one();
    let mut total = 0;
    for _l in 0..terms {
        total = ring.sum(total, ring.product(rest % s, power));
        power = ring.product(power, x);
        rest /= s;
    }
    total
}

// Kept: that the place and the factor are there stands in each contract, as bounds of an index do; types for them would be made anew at every cell.
impl<R: Ring, S: Shuffler> Labels<'_, R, S> {
    // The level of what stands at n before shuffling, for a factor.
    pub(crate) fn level_at(&self, n: u32, factor: u32) -> u32
        requires named { factor < self.now.plan.factors }
        ensures value { result ≡ level_at self.now.plan (R.Ring.ring self.now.ring.now) (S.Shuffler.ways self.now.shuffler.now) n factor }
        ensures below { result < self.now.plan.levels }
    {
        let plan = self.plan;
        let value = value(self.ring, plan.strength, n, point(factor));
        self.shuffler
            .out(key(LEVELS, plan.seed, factor), plan.levels, value)
    }

    // The sub-level of what stands at n before shuffling, for a factor.
    pub(crate) fn sublevel_at(&self, n: u32, factor: u32) -> u32
        requires placed { n < self.now.plan.labels }
        requires named { factor < self.now.plan.factors }
        ensures value { result ≡ sublevel_at self.now.plan (S.Shuffler.ways self.now.shuffler.now) n factor }
        ensures below { result < self.now.plan.labels / self.now.plan.levels }
    {
        let plan = self.plan;
        self.shuffler.out(
            key(SUBLEVELS, plan.seed, factor),
            plan.labels / plan.levels,
            n / plan.levels,
        )
    }

    // The cell of what stands at n before shuffling, for a factor.
    pub(crate) fn cell_at(&self, n: u32, factor: u32) -> Cell
        requires placed { n < self.now.plan.labels }
        requires named { factor < self.now.plan.factors }
        ensures { result ≡ cell_at self.now.plan (R.Ring.ring self.now.ring.now) (S.Shuffler.ways self.now.shuffler.now) n factor }
    {
        let level = self.level_at(n, factor);
        let sublevel = self.sublevel_at(n, factor);
        let fine = level * (self.plan.labels / self.plan.levels) + sublevel;
        Cell {
            level: level as u8,
            fine: fine as u16,
        }
    }
}
