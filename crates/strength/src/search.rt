// The choices of columns in dictionary order, up to the first that fails.
ghost use Rattle.std.specs.Prelude.{◌≡◌, ◌^◌, map, length};
ghost use Rattle.strength.specs.Steps.{Begun, Search};

use crate::cell::Levelled;
use crate::checked::Checked;
use crate::chosen::Chosen;
use crate::claim::Failure;
use arrayvec::ArrayVec;

impl<C: Levelled> Checked<'_, C> {
    // The first failure among the choices that begin with the columns chosen, and whose others are `low` or more.
    pub(crate) fn first_failure(
        &self,
        chosen: &mut ArrayVec<usize, 17>,
        low: usize,
        counters: &mut [u32],
    ) -> Option<Failure>
        requires begun { Begun self.now.claim chosen.old.items low }
        requires sized { length counters.old ≡ self.now.claim.levels ^ self.now.claim.strength }
        ensures answer { Search self.now.claim (map C.Levelled.level self.now.table.now) chosen.old.items low result }
        ensures chosen { chosen.new.items ≡ chosen.old.items }
    {
        let missing = self.claim.strength as usize - chosen.len();
        if missing == 0 {
            let whole = Chosen {
                checked: &*self,
                columns: chosen.as_slice(),
            };
            return whole.failure_at(counters);
        }
        if self.claim.factors as usize - low < missing {
            return None;
        }
        chosen.push(low);
        let failure = self.first_failure(chosen, low + 1, counters);
        chosen.pop();
        if failure.is_some() {
            return failure;
        }
        self.first_failure(chosen, low + 1, counters)
    }
}
