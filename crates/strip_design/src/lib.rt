// The labels of a strip are a design, so that what holds of every design holds of every strip.
#![tactic(auto)]

ghost use Rattle.std.specs.Prelude.{[], ◌∷◌};
ghost use Rattle.refusal.specs.Table.{Answers};
ghost use Rattle.strip.specs.Faults.{strip_slip};
ghost use Rattle.strip.specs.Rows.{count_row};
ghost use Rattle.strip_design.specs.Strips.{StripDesign};

use levels::arithmetic::Dividing;
use shuffle::Shuffler;
use strip::cell::Strip;
use strip::fault::StripFault;

// Where the arithmetic has the plan's count, the levels of the strip's labels are an orthogonal array of index 1.
pub fn design_stands<R: Dividing, S: Shuffler>(strip: &Strip<R, S>) -> Result<(), StripFault>
    ensures { Answers strip_slip (count_row strip.now.plan (R.Ring.ring strip.now.ring) ∷ []) (λ _. StripDesign strip.now.plan (R.Ring.ring strip.now.ring) (S.Shuffler.ways strip.now.shuffler)) result }
{
    strip.orthogonal()
}
