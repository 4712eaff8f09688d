// Locate: from a factor and a fine setting back to the label, over any ring.
ghost use Rattle.std.specs.Prelude.{◌<◌};
ghost use Rattle.refusal.specs.Table.{Answers};
ghost use Rattle.strip.specs.Faults.{strip_slip};
ghost use Rattle.strip.specs.Names.{Located};
ghost use Rattle.strip.specs.Wishes.{locate_rows};

use crate::cell::Strip;
use crate::fault::StripFault;
use crate::label::{LEVELS, SUBLEVELS, key, point, value};
use crate::labels::Labels;
use levels::arithmetic::Ring;
use plan::shape::Plan;
use shuffle::Shuffler;

impl<R: Ring, S: Shuffler> Strip<R, S> {
    // The one label that has this fine setting for this factor.
    pub fn locate(&self, factor: u32, fine: u32) -> Result<u32, StripFault>
        ensures { Answers strip_slip (locate_rows self.now.plan (R.Ring.ring self.now.ring) factor fine) (Located self.now.plan (R.Ring.ring self.now.ring) (S.Shuffler.ways self.now.shuffler) factor fine) result }
    {
        let labels = self.labels()?;
        if factor >= self.plan.factors {
            return Err(StripFault::Factor(0));
        }
        if fine >= self.plan.labels {
            return Err(StripFault::Setting(0));
        }
        Ok(labels.label_at(factor, fine))
    }
}

impl<R: Ring, S: Shuffler> Labels<'_, R, S> {
    // The same of a factor and a fine setting that there are.
    fn label_at(&self, factor: u32, fine: u32) -> u32
        requires named { factor < self.now.plan.factors }
        requires placed { fine < self.now.plan.labels }
        ensures { Located self.now.plan (R.Ring.ring self.now.ring.now) (S.Shuffler.ways self.now.shuffler.now) factor fine result }
    {
        let Plan {
            levels,
            strength,
            seed,
            labels,
            ..
        } = self.plan;
        let size = labels / levels;
        let whole = self
            .shuffler
            .back(key(LEVELS, seed, factor), levels, fine / size);
        let high = self
            .shuffler
            .back(key(SUBLEVELS, seed, factor), size, fine % size);
        let x = point(factor);
        let rest = self
            .ring
            .product(x, value(self.ring, strength - 1, high, x));
        let low = self.ring.difference(whole, rest);
        self.shuffler.back(seed, labels, high * levels + low)
    }
}
