// The effect of a factor off a finished book: the sum of the grades at one level less that at another.
ghost use Rattle.std.specs.Prelude.{◌≡◌, ◌*◌, ◌<◌, ◌≤◌, length, pos, ◌-ℤ◌};
ghost use Rattle.strip.specs.Labels.{level};
ghost use Rattle.refusal.specs.Table.{Answers};
ghost use Rattle.book.specs.Standings.{standings};
ghost use Rattle.trial.specs.Faults.{effect_slip};
ghost use Rattle.trial.specs.Finished.{grade_of, grades_over, finished_rows, EffectOver};

use crate::fault::EffectFault;
use book::ledger::{fits, graded};
use book::shape::Finished;
use levels::arithmetic::{Dividing, Ring};
use plan::shape::Plan;
use shuffle::Shuffler;
use strip::labels::Labels;

// The level of a label that there is, for a factor that there is.
fn known_level<R: Ring, S: Shuffler>(labels: &Labels<'_, R, S>, label: u32, factor: u32) -> u32
    requires placed { label < labels.now.plan.labels }
    requires named { factor < labels.now.plan.factors }
    ensures { result ≡ level labels.now.plan (R.Ring.ring labels.now.ring.now) (S.Shuffler.ways labels.now.shuffler.now) label factor }
{
    labels.level(label, factor).unwrap()
}

// The sum of the grades of the labels that have this level for this factor.
fn grades_over<R: Ring, S: Shuffler>(
    labels: &Labels<'_, R, S>,
    words: &[u16],
    factor: u32,
    wanted: u32,
) -> u64
    requires sized { length words.now ≡ labels.now.plan.labels }
    requires named { factor < labels.now.plan.factors }
    ensures value { pos result ≡ grades_over labels.now.plan (R.Ring.ring labels.now.ring.now) (S.Shuffler.ways labels.now.shuffler.now) (grade_of words.now) factor wanted }
    ensures below { result ≤ 65536 * 65536 }
{
    let mut sum = 0u64;
    for (label, word) in words.iter().enumerate() {
        if known_level(labels, label as u32, factor) == wanted {
            sum += u64::from(word.saturating_sub(2));
        }
    }
    sum
}

// x less y, with its sign.
fn signed_difference(x: u64, y: u64) -> i64
    requires { (x ≤ 65536 * 65536) × (y ≤ 65536 * 65536) }
    ensures { result ≡ pos x -ℤ pos y }
{
    x as i64 - y as i64
}

// Kept: factor, a and b one by one, as public callers hand them.
// The effect of a factor from level b to level a, read off the words of a finished book.
pub fn effect<R: Dividing, S: Shuffler>(
    book: &Finished,
    ring: &R,
    shuffler: &S,
    words: &[u16],
    factor: u32,
    a: u32,
    b: u32,
) -> Result<i64, EffectFault>
    ensures { Answers effect_slip (finished_rows book.now.plan (R.Ring.ring ring.now) (length words.now) (standings words.now) factor a b) (EffectOver book.now.plan (R.Ring.ring ring.now) (S.Shuffler.ways shuffler.now) (grade_of words.now) factor a b) result }
{
    effect_on(book.plan(), ring, shuffler, words, factor, a, b)
}

// Kept: plan, ring and shuffler one by one, since what reads the plan here would need it beside `Labels`, whose fields are the strip's own.
// The same off any words, of which all have to be graded.
fn effect_on<R: Dividing, S: Shuffler>(
    plan: Plan,
    ring: &R,
    shuffler: &S,
    words: &[u16],
    factor: u32,
    a: u32,
    b: u32,
) -> Result<i64, EffectFault>
    ensures { Answers effect_slip (finished_rows plan (R.Ring.ring ring.now) (length words.now) (standings words.now) factor a b) (EffectOver plan (R.Ring.ring ring.now) (S.Shuffler.ways shuffler.now) (grade_of words.now) factor a b) result }
{
    let labels = Labels::of(plan, ring, shuffler)?;
    labels.orthogonal();
    fits(plan, words)?;
    if factor >= plan.factors {
        return Err(EffectFault::Factor);
    }
    if a >= plan.levels {
        return Err(EffectFault::Level(0));
    }
    if b >= plan.levels {
        return Err(EffectFault::Level(1));
    }
    graded(plan, words)?;
    let high = grades_over(&labels, words, factor, a);
    let low = grades_over(&labels, words, factor, b);
    Ok(signed_difference(high, low))
}
