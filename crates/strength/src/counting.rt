// How often each combination of levels occurs at a choice of columns, and how the choice fails.
ghost use Rattle.std.specs.Prelude.{◌≡◌, ℕ, ◌*◌, ◌^◌, ◌<◌, ◌≤◌, not, ◌==◌, map, length, position, sum_by, slice_index, MatchOption};
ghost use Rattle.std.specs.List.{All, AllByRecursion};
ghost use Rattle.strength.specs.Verdicts.{Even, Fails};
ghost use Rattle.strength.specs.Steps.{read, counted};

use crate::cell::Levelled;
use crate::checked::Checked;
use crate::chosen::Chosen;
use crate::claim::Failure;

// Kept: the counters stand beside a choice, since a struct that held them too would have to say in each contract that claim and table stay.
impl<C: Levelled> Chosen<'_, C> {
    // The combination that a run has at the columns, the first column highest.
    fn combination_of(&self, run: &[C]) -> usize
        requires sized { length run.now ≡ self.now.checked.now.claim.factors }
        requires levels { AllByRecursion (λ l. l < self.now.checked.now.claim.levels) (map C.Levelled.level run.now) }
        ensures value { result ≡ read self.now.checked.now.claim (map C.Levelled.level run.now) self.now.columns.now }
        ensures below { let Q = self.now.checked.now.claim in result < Q.levels ^ Q.strength }
    {
        let mut n = 0;
        for column in self.columns {
            n = n * self.checked.claim.levels + run[*column].level();
        }
        n as usize
    }

    // Counts the runs by their combination at the columns.
    fn count_runs(&self, counters: &mut [u32])
        requires { let Q = self.now.checked.now.claim in length counters.old ≡ Q.levels ^ Q.strength }
        ensures { let Q = self.now.checked.now.claim in (m : ℕ) → m < Q.levels ^ Q.strength → slice_index counters.new m ≡ counted Q (map C.Levelled.level self.now.checked.now.table.now) self.now.columns.now m Q.runs }
    {
        let Checked { claim, table } = self.checked;
        counters.fill(0);
        for run in table.chunks_exact(claim.factors as usize) {
            counters[self.combination_of(run)] += 1;
        }
    }

    // How these columns fail, if they do.
    pub(crate) fn failure_at(&self, counters: &mut [u32]) -> Option<Failure>
        requires { let Q = self.now.checked.now.claim in length counters.old ≡ Q.levels ^ Q.strength }
        ensures { let cells = map C.Levelled.level self.now.checked.now.table.now in MatchOption result (Even self.now.checked.now.claim cells self.now.columns.now) (λ f. Fails self.now.checked.now.claim cells self.now.columns.now f) }
    {
        self.count_runs(counters);
        let m = uneven(counters, self.checked.claim.runs)?;
        Some(Failure {
            columns: bits_of(self.columns),
            combination: m as u32,
            count: counters[m],
        })
    }
}

// The first combination whose count, times the number of combinations, is not the number of runs.
fn uneven(counters: &[u32], runs: u32) -> Option<usize>
    requires { length counters.now ≤ 65536 }
    ensures { result ≡ position (λ count. not (count * length counters.now == runs)) counters.now }
{
    let combinations = counters.len() as u64;
    counters.iter().position(|count| u64::from(*count) * combinations != u64::from(runs))
}

// The columns as one number, with bit k set for column k.
fn bits_of(columns: &[usize]) -> u32
    requires low { All (λ c. c < 17) columns.now }
    requires fits { sum_by (λ c. 2 ^ c) columns.now < 2 ^ 32 }
    ensures { result ≡ sum_by (λ c. 2 ^ c) columns.now }
{
    columns.iter().map(|column| bit(*column)).sum()
}

// The number with that bit alone.
fn bit(k: usize) -> u32
    requires { k < 17 }
    ensures { result ≡ 2 ^ k }
{
    1 << k
}
