// Which tables are not checked.
ghost use Rattle.std.specs.Prelude.{◌≡◌, ◌^◌, map, position, nat_le};
ghost use Rattle.refusal.specs.Table.{Answers};
ghost use Rattle.strength.specs.Faults.{checker_slip};
ghost use Rattle.strength.specs.Refusals.{check_rows};

use crate::cell::Levelled;
use crate::checked::Checked;
use crate::claim::Claim;
use crate::fault::CheckerFault;
use numbers::power;

// The first cell that has no level of the array.
fn unknown_level<C: Levelled>(table: &[C], levels: u32) -> Option<usize>
    ensures { result ≡ position (λ level. nat_le levels level) (map C.Levelled.level table.now) }
{
    table
        .iter()
        .map(|cell| cell.level())
        .position(|level| level >= levels)
}

// Refuses what the refusal table says, with so many counters.
pub(crate) fn accept<C: Levelled>(
    claim: Claim,
    table: &[C],
    counters: usize,
) -> Result<Checked<'_, C>, CheckerFault>
    ensures { Answers checker_slip (check_rows claim (map C.Levelled.level table.now) counters) (λ checked. (checked.claim ≡ claim) × (checked.table.now ≡ table.now) × (counters ≡ claim.levels ^ claim.strength)) result }
{
    if claim.levels < 2 || claim.levels > 16 {
        return Err(CheckerFault::Levels);
    }
    if claim.factors == 0 || claim.factors > 17 {
        return Err(CheckerFault::Factors);
    }
    if claim.strength == 0 || claim.strength > claim.factors {
        return Err(CheckerFault::Strength);
    }
    let combinations = power(claim.levels, claim.strength).ok_or(CheckerFault::Size)?;
    if claim.runs == 0 || claim.runs > 65536 {
        return Err(CheckerFault::Size);
    }
    let cells = claim.runs as usize * claim.factors as usize;
    if table.len() != cells || counters != combinations as usize {
        return Err(CheckerFault::Memory);
    }
    match unknown_level(table, claim.levels) {
        Some(k) => Err(CheckerFault::Cell(k)),
        None => Ok(Checked { claim, table }),
    }
}
