// A choice of columns: as many as the strength, each further on than the one before. Rests on a checked table.
ghost use Rattle.std.proofs.Props.{props};
ghost use Rattle.strength.specs.Verdicts.{Choice};
ghost use Rattle.strength.specs.Steps.{Rising-prop};

use crate::cell::Levelled;
use crate::checked::Checked;

// A checked table with a choice of its columns.
#[derive(Drop)]
pub(crate) struct Chosen<'a, C: Levelled> {
    pub(crate) checked: &'a Checked<'a, C>,
    pub(crate) columns: &'a [usize],
    ghost choice: { Choice checked.now.claim columns.now } by { Prim.hlevel (props, Rising-prop) },
}
