// The labels of a plan by an arithmetic of its count and a shuffler: what every call on a strip asks for first.
ghost use Rattle.std.specs.Prelude.{[], ◌∷◌, ◌≡◌};
ghost use Rattle.refusal.specs.Table.{Answers};
ghost use Rattle.strip.specs.Faults.{strip_slip};
ghost use Rattle.strip.specs.Rows.{count_row};

use crate::cell::Strip;
use crate::fault::StripFault;
use levels::arithmetic::Ring;
use plan::shape::Plan;
use shuffle::Shuffler;

// A plan, an arithmetic of its count, and a shuffler.
#[derive(Drop)]
pub struct Labels<'a, R: Ring, S: Shuffler> {
    pub(crate) plan: Plan,
    pub(crate) ring: &'a R,
    pub(crate) shuffler: &'a S,
    ghost counts: { (R.Ring.ring ring.now).count ≡ plan.levels },
}

impl<'a, R: Ring, S: Shuffler> Labels<'a, R, S> {
    // The labels of these three, if the arithmetic has the plan's count.
    pub fn of(plan: Plan, ring: &'a R, shuffler: &'a S) -> Result<Labels<'a, R, S>, StripFault>
        ensures { Answers strip_slip (count_row plan (R.Ring.ring ring.now) ∷ []) (λ l. (l.plan ≡ plan) × (l.ring.now ≡ ring.now) × (l.shuffler.now ≡ shuffler.now)) result }
    {
        if ring.count() != plan.levels {
            return Err(StripFault::Count);
        }
        Ok(Labels {
            plan,
            ring,
            shuffler,
        })
    }
}

impl<R: Ring, S: Shuffler> Strip<R, S> {
    // The labels of the strip.
    pub(crate) fn labels(&self) -> Result<Labels<'_, R, S>, StripFault>
        ensures { Answers strip_slip (count_row self.now.plan (R.Ring.ring self.now.ring) ∷ []) (λ l. (l.plan ≡ self.now.plan) × (l.ring.now ≡ self.now.ring) × (l.shuffler.now ≡ self.now.shuffler)) result }
    {
        Labels::of(self.plan, &self.ring, &self.shuffler)
    }
}
