// A strip whose arithmetic divides is an orthogonal array of strength t.
ghost use Rattle.std.specs.Prelude.{[], ◌∷◌};
ghost use Rattle.refusal.specs.Table.{Answers};
ghost use Rattle.strip.specs.Faults.{strip_slip};
ghost use Rattle.strip.specs.Names.{Exact};
ghost use Rattle.strip.specs.Rows.{count_row};

use crate::cell::Strip;
use crate::fault::StripFault;
use crate::find::gather_inverses;
use crate::labels::Labels;
use levels::arithmetic::Dividing;
use plan::shape::Plan;
use shuffle::Shuffler;

impl<R: Dividing, S: Shuffler> Labels<'_, R, S> {
    // Any t different factors with a level each name exactly one label, and so does a factor with a fine setting.
    // It asks the arithmetic for every inverse, and nothing else.
    pub fn orthogonal(&self)
        ensures { Exact self.now.plan (R.Ring.ring self.now.ring.now) (S.Shuffler.ways self.now.shuffler.now) }
    {
        gather_inverses(self.ring);
    }
}

// The same of a plan, an arithmetic and a shuffler, where the arithmetic has the plan's count.
pub fn orthogonal<R: Dividing, S: Shuffler>(
    plan: Plan,
    ring: &R,
    shuffler: &S,
) -> Result<(), StripFault>
    ensures { Answers strip_slip (count_row plan (R.Ring.ring ring.now) ∷ []) (λ _. Exact plan (R.Ring.ring ring.now) (S.Shuffler.ways shuffler.now)) result }
{
    Labels::of(plan, ring, shuffler)?.orthogonal();
    Ok(())
}

impl<R: Dividing, S: Shuffler> Strip<R, S> {
    // The same of a strip.
    pub fn orthogonal(&self) -> Result<(), StripFault>
        ensures { Answers strip_slip (count_row self.now.plan (R.Ring.ring self.now.ring) ∷ []) (λ _. Exact self.now.plan (R.Ring.ring self.now.ring) (S.Shuffler.ways self.now.shuffler)) result }
    {
        orthogonal(self.plan, &self.ring, &self.shuffler)
    }
}
