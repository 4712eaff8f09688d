// Find: from t wishes back to the one label that has them all, by interpolation over any ring that divides.
ghost use Rattle.std.specs.Prelude.{◌≡◌, ◌==◌, ℕ, ◌<◌, ◌≤◌, List, ◌∷◌, length, nat_le, take};
ghost use Rattle.std.specs.List.{enumerate_from, list_any, position};
ghost use Rattle.refusal.specs.Table.{Answers, Sought};
ghost use Rattle.algebra.specs.Units.{Divides};
ghost use Rattle.algebra.specs.Interpolation.{slopes, rebuild, interp};
ghost use Rattle.algebra.specs.Digits.{number};
ghost use Rattle.strip.specs.Faults.{strip_slip};
ghost use Rattle.strip.specs.Names.{Chosen, Named};
ghost use Rattle.strip.specs.Wishes.{factor_of, level_of, repeats, points_of, values_of, find_rows};

use crate::cell::Strip;
use crate::fault::StripFault;
use crate::label::{LEVELS, key, point};
use crate::labels::Labels;
use crate::wish::Wish;
use arrayvec::ArrayVec;
use levels::arithmetic::{Dividing, Ring};
use plan::shape::Plan;
use shuffle::Shuffler;

// Kept: two searches of one line, since one for both would take what to read of a wish and be no shorter.
// The first wish that names no factor of the strip.
fn unknown_factor(wishes: &[Wish], factors: u32) -> Option<usize>
    ensures { result ≡ position (λ w. nat_le factors w.factor) wishes.now }
{
    wishes.iter().position(|wish| wish.factor >= factors)
}

// The first wish that names no level of the strip.
fn unknown_level(wishes: &[Wish], levels: u32) -> Option<usize>
    ensures { result ≡ position (λ w. nat_le levels w.level) wishes.now }
{
    wishes.iter().position(|wish| wish.level >= levels)
}

// Whether one of these wishes names the factor.
fn names(wishes: &[Wish], factor: u32) -> bool
    ensures { result ≡ list_any (λ w. w.factor == factor) wishes.now }
{
    wishes.iter().any(|wish| wish.factor == factor)
}

// The first wish that names the factor of an earlier one.
fn repeated(wishes: &[Wish]) -> Option<usize>
    ensures { result ≡ position (λ p. list_any (λ w. w.factor == p.1.factor) (take p.0 wishes.now)) (enumerate_from 0 wishes.now) }
{
    wishes
        .iter()
        .enumerate()
        .position(|(k, wish)| names(&wishes[..k], wish.factor))
}

// Asks for the inverse of every code, so that what each answer promises is known of them all.
pub(crate) fn gather_inverses<R: Dividing>(ring: &R)
    ensures { Divides (R.Ring.ring ring.now) (R.Dividing.inverse ring.now) }
{
    for a in 0..ring.count() {
        let _ = ring.inverse(a);
    }
}

// Divided differences: each value less v, by its point less x.
fn divide_differences<R: Dividing>(ring: &R, x: u32, v: u32, wishes: &[Wish], values: &mut [u32])
    requires { length wishes.now ≡ length values.old }
    ensures { values.new ≡ slopes (R.Ring.ring ring.now) (R.Dividing.inverse ring.now) x v (points_of wishes.now) values.old }
{
    // Kept: the wishes by index, since of what is written through a zip of `iter_mut` nothing is known afterwards.
    for (k, value) in values.iter_mut().enumerate() {
        let apart = ring.difference(point(wishes[k].factor), x);
        *value = ring.product(ring.difference(*value, v), ring.inverse(apart));
    }
}

// From v and the coefficients of q to those of v + (X - x) q(X), in place.
fn rebuild_coefficients<R: Ring>(ring: &R, x: u32, values: &mut [u32])
    ensures { (v : ℕ) (q : List ℕ) → values.old ≡ v ∷ q → values.new ≡ rebuild (R.Ring.ring ring.now) x v q }
{
    // Kept: a loop over places, since each turn writes one item out of the next, and no slice lends both at once.
    for k in 1..values.len() {
        values[k - 1] = ring.difference(values[k - 1], ring.product(x, values[k]));
    }
}

// From values at the points of the wished factors to the coefficients that take them, in place.
fn interpolate<R: Dividing>(ring: &R, wishes: &[Wish], values: &mut [u32])
    requires { length wishes.now ≡ length values.old }
    ensures { values.new ≡ interp (R.Ring.ring ring.now) (R.Dividing.inverse ring.now) (points_of wishes.now) values.old }
{
    let Some((wish, others)) = wishes.split_first() else {
        return;
    };
    let x = point(wish.factor);
    divide_differences(ring, x, values[0], others, &mut values[1..]);
    interpolate(ring, others, &mut values[1..]);
    rebuild_coefficients(ring, x, values);
}

// The number that has these digits in base s, lowest first.
fn number(base: u32, digits: &[u32]) -> u32
    requires { (1 ≤ base) × (number base digits.now ≤ 65536) }
    ensures { result ≡ number base digits.now }
{
    match digits.split_first() {
        None => 0,
        Some((digit, rest)) => *digit + base * number(base, rest),
    }
}

impl<R: Dividing, S: Shuffler> Strip<R, S> {
    // The one label that has every wished level.
    pub fn find(&self, wishes: &[Wish]) -> Result<u32, StripFault>
        ensures { Answers strip_slip (find_rows self.now.plan (R.Ring.ring self.now.ring) wishes.now) (Named self.now.plan (R.Ring.ring self.now.ring) (S.Shuffler.ways self.now.shuffler) wishes.now) result }
    {
        let labels = self.labels()?;
        if let Some(k) = unknown_factor(wishes, self.plan.factors) {
            return Err(StripFault::Factor(k));
        }
        if let Some(k) = unknown_level(wishes, self.plan.levels) {
            return Err(StripFault::Setting(k));
        }
        if wishes.len() != self.plan.strength as usize {
            return Err(StripFault::Wishes);
        }
        if let Some(k) = repeated(wishes) {
            return Err(StripFault::Repeated(k));
        }
        Ok(labels.label_meeting(wishes))
    }
}

impl<R: Dividing, S: Shuffler> Labels<'_, R, S> {
    // The one label that meets t wishes on different factors.
    fn label_meeting(&self, wishes: &[Wish]) -> u32
        requires chosen { Chosen self.now.plan wishes.now }
        ensures { Named self.now.plan (R.Ring.ring self.now.ring.now) (S.Shuffler.ways self.now.shuffler.now) wishes.now result }
    {
        let mut coefficients = self.wished_values(wishes);
        gather_inverses(self.ring);
        interpolate(self.ring, wishes, coefficients.as_mut_slice());
        let place = number(self.plan.levels, coefficients.as_slice());
        self.shuffler.back(self.plan.seed, self.plan.labels, place)
    }

    // The values at the points of the wished factors that give the wished levels.
    fn wished_values(&self, wishes: &[Wish]) -> ArrayVec<u32, 16>
        requires few { length wishes.now ≤ 16 }
        requires named { (k : ℕ) → k < length wishes.now → factor_of wishes.now k < 16 }
        ensures { result.items ≡ values_of self.now.plan (S.Shuffler.ways self.now.shuffler.now) wishes.now }
    {
        let Plan { levels, seed, .. } = self.plan;
        let mut values = ArrayVec::new();
        for wish in wishes {
            let value = self
                .shuffler
                .back(key(LEVELS, seed, wish.factor), levels, wish.level);
            values.push(value);
        }
        values
    }
}
