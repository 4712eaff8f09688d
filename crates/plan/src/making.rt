// How a plan is made from any four numbers, or refused.
ghost use Rattle.std.specs.Prelude.{◌≡◌};
ghost use Rattle.refusal.specs.Table.{Answers};
ghost use Rattle.plan.specs.Faults.{plan_slip};
ghost use Rattle.plan.specs.Plans.{undivided, plan_rows, Planned};

use crate::fault::PlanFault;
use crate::shape::Plan;
use numbers::power;

impl Plan {
    pub fn new(levels: u32, strength: u32, factors: u32, seed: u32) -> Result<Plan, PlanFault>
        ensures { Answers plan_slip (plan_rows levels strength factors) (Planned levels strength factors seed) result }
    {
        if !(2..=16).contains(&levels) {
            return Err(PlanFault::Levels);
        }
        if factors == 0 || factors > levels {
            return Err(PlanFault::Factors);
        }
        if strength == 0 || strength > factors {
            return Err(PlanFault::Strength);
        }
        if strength >= 2 && is_undivided(levels) {
            return Err(PlanFault::Undivided);
        }
        let labels = power(levels, strength).ok_or(PlanFault::Labels)?;
        Ok(Plan {
            levels,
            strength,
            factors,
            seed,
            labels,
        })
    }
}

// Whether no arithmetic of so many levels divides.
fn is_undivided(levels: u32) -> bool
    ensures { result ≡ undivided levels }
{
    matches!(levels, 6 | 9 | 10 | 12 | 14 | 15)
}
