// A table that is checked: one that no row of the refusal table turns away. Rests on what is claimed of it.
ghost use Rattle.std.specs.Prelude.{map};
ghost use Rattle.std.proofs.Props.{props};
ghost use Rattle.strength.specs.Refusals.{Accepted};

use crate::cell::Levelled;
use crate::claim::Claim;

// A table that no row of the refusal table turns away, with what is claimed of it.
#[derive(Drop)]
pub(crate) struct Checked<'a, C: Levelled> {
    pub(crate) claim: Claim,
    pub(crate) table: &'a [C],
    ghost accepted: { Accepted claim (map C.Levelled.level table.now) } by { Prim.hlevel props },
}
