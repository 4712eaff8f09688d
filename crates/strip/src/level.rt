// The level of one label for one factor.
ghost use Rattle.std.specs.Prelude.{◌≡◌};
ghost use Rattle.refusal.specs.Table.{Answers};
ghost use Rattle.strip.specs.Faults.{strip_slip};
ghost use Rattle.strip.specs.Labels.{level};
ghost use Rattle.strip.specs.Rows.{level_rows};

use crate::fault::StripFault;
use crate::labels::Labels;
use levels::arithmetic::Ring;
use plan::shape::Plan;
use shuffle::Shuffler;

impl<R: Ring, S: Shuffler> Labels<'_, R, S> {
    // The level that a label has for a factor.
    pub fn level(&self, label: u32, factor: u32) -> Result<u32, StripFault>
        ensures { Answers strip_slip (level_rows self.now.plan (R.Ring.ring self.now.ring.now) label factor) (λ a. a ≡ level self.now.plan (R.Ring.ring self.now.ring.now) (S.Shuffler.ways self.now.shuffler.now) label factor) result }
    {
        if label >= self.plan.labels {
            return Err(StripFault::Label(label));
        }
        if factor >= self.plan.factors {
            return Err(StripFault::Factor(0));
        }
        let n = self.shuffler.out(self.plan.seed, self.plan.labels, label);
        Ok(self.level_at(n, factor))
    }
}

// The level that a label of the plan has for a factor, by this arithmetic and this shuffler.
pub fn level_of<R: Ring, S: Shuffler>(
    plan: Plan,
    ring: &R,
    shuffler: &S,
    label: u32,
    factor: u32,
) -> Result<u32, StripFault>
    ensures { Answers strip_slip (level_rows plan (R.Ring.ring ring.now) label factor) (λ a. a ≡ level plan (R.Ring.ring ring.now) (S.Shuffler.ways shuffler.now) label factor) result }
{
    Labels::of(plan, ring, shuffler)?.level(label, factor)
}
