// The check itself.
ghost use Rattle.std.specs.Prelude.{◌≡◌, map, length, replicate, MatchResult};
ghost use Rattle.refusal.specs.Table.{Answers};
ghost use Rattle.strength.specs.Faults.{checker_slip};
ghost use Rattle.strength.specs.Refusals.{check_rows};
ghost use Rattle.strength.specs.Verdicts.{Right};

use crate::cell::Levelled;
use crate::claim::{Claim, Verdict};
use crate::fault::CheckerFault;
use crate::refuse::accept;
use arrayvec::ArrayVec;

// Whether the table is the orthogonal array that is claimed, with one counter for each combination of levels.
pub fn check<C: Levelled>(
    claim: Claim,
    table: &[C],
    counters: &mut [u32],
) -> Result<Verdict, CheckerFault>
    ensures answer { Answers checker_slip (check_rows claim (map C.Levelled.level table.now) (length counters.old)) (Right claim (map C.Levelled.level table.now)) result }
    ensures counters { MatchResult result (λ _. counters.new ≡ replicate (length counters.old) 0) (λ _. counters.new ≡ counters.old) }
{
    let checked = accept(claim, table, counters.len())?;
    let failure = checked.first_failure(&mut ArrayVec::new(), 0, counters);
    counters.fill(0);
    Ok(match failure {
        Some(failure) => Verdict::No(failure),
        None => Verdict::Yes {
            index: claim.runs / counters.len() as u32,
        },
    })
}
