// Find and locate against the rows, for every choice of wishes and every fine setting of some strips.
use crate::common::{SHUFFLERS, cell, planned, slip, told};
use levels::arithmetic::{Dividing, Ring};
use levels::binary::Binary;
use levels::listed::Listed;
use plan::shape::Plan;
use refusal::Layer;
use shuffle::Shuffler;
use std::alloc::Global;
use std::process::Abort;
use std::test::Fail;
use strip::cell::Strip;
use strip::wish::Wish;

const SEEDS: [u32; 2] = [1, 0xdeadbeef];

// The first wish that names the factor of an earlier one.
fn repeated(wishes: &[Wish]) -> Option<usize> {
    wishes.iter().enumerate().position(|(k, wish)| {
        wishes
            .iter()
            .take(k)
            .any(|earlier| earlier.factor == wish.factor)
    })
}

// The label that is found has every wished level; where a factor comes twice there is none.
fn finds<R: Dividing, S: Shuffler>(
    rt: &impl Abort,
    strip: &Strip<R, S>,
    wishes: &[Wish],
) -> Result<(), Fail> {
    if let Some(k) = repeated(wishes) {
        assert_eq!(rt; told(strip.find(wishes)), Err(slip(Layer::Strip, 12, k)));
        return Ok(());
    }
    let label = strip.find(wishes)?;
    for wish in wishes {
        let level = cell(strip, label, wish.factor)?.level;
        assert_eq!(rt; u32::from(level), wish.level);
    }
    Ok(())
}

// The choice of wishes of number n: each is the next digit of n to base d, a factor, and the next to base s, a level.
fn choice(heap: Global, plan: &Plan, n: u32) -> Result<Vec<Wish>, Fail> {
    let mut wishes = Vec::new(heap);
    let mut rest = n;
    for _ in 0..plan.strength {
        let factor = rest % plan.factors;
        rest /= plan.factors;
        let level = rest % plan.levels;
        rest /= plan.levels;
        wishes.push(Wish { factor, level })?;
    }
    Ok(wishes)
}

// How many choices of t wishes there are, in any order and with repeated factors.
fn choices(plan: &Plan) -> u32 {
    let wishes = plan.factors.wrapping_mul(plan.levels);
    wishes.wrapping_pow(plan.strength)
}

// Locate answers a label whose row has the fine setting, and no other label than that.
fn locates<R: Ring, S: Shuffler>(
    rt: &impl Abort,
    strip: &Strip<R, S>,
    factor: u32,
) -> Result<(), Fail> {
    for k in 0..strip.plan.labels {
        let label = strip.locate(factor, k)?;
        assert_eq!(rt; u32::from(cell(strip, label, factor)?.fine), k);
        let fine = cell(strip, k, factor)?.fine;
        assert_eq!(rt; strip.locate(factor, u32::from(fine))?, k);
    }
    Ok(())
}

// Every choice of wishes, and every fine setting of every factor, by every shuffler.
fn whole<R: Dividing + Copy>(
    rt: &(impl Abort + AllocGlobal),
    ring: R,
    strength: u32,
    factors: u32,
) -> Result<(), Fail> {
    for shuffler in SHUFFLERS {
        for seed in SEEDS {
            let strip = planned(ring, shuffler, strength, factors, seed)?;
            strip.orthogonal()?;
            for n in 0..choices(&strip.plan) {
                finds(rt, &strip, &choice(rt.alloc(), &strip.plan, n)?)?;
            }
            for factor in 0..factors {
                locates(rt, &strip, factor)?;
            }
        }
    }
    Ok(())
}

#[test]
fn residues(rt: HostRuntime) -> Result<(), Fail> {
    whole(&rt, Listed::new(2)?, 1, 2)?;
    whole(&rt, Listed::new(2)?, 2, 2)?;
    whole(&rt, Listed::new(3)?, 2, 3)?;
    whole(&rt, Listed::new(5)?, 2, 4)
}

#[test]
fn polynomials(rt: HostRuntime) -> Result<(), Fail> {
    whole(&rt, Binary::new(4)?, 2, 4)?;
    whole(&rt, Binary::new(4)?, 3, 4)
}
