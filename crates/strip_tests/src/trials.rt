// Whole trials: grades that are a base plus shares, some of them negative, show the shares in the effects.
use crate::common::{SHUFFLERS, cell, planned};
use book::calls::Call;
use levels::arithmetic::Dividing;
use levels::binary::Binary;
use levels::listed::Listed;
use plan::shape::Plan;
use shuffle::Shuffler;
use shuffle::turn::Turn;
use std::alloc::Global;
use std::process::Abort;
use std::test::Fail;
use strip::cell::Strip;
use trial::conduct::{Outcome, conduct};
use trial::question::{Question, Reply};

const BASE: i64 = 500;

// A share for a factor's level, from -20 to 20.
fn share(factor: u32, level: u32) -> i64 {
    i64::from((factor % 16 * 7 + level % 16 * 11) % 41) - 20
}

// The grade of a label: the base plus the share of each factor's level.
fn grade<R: Dividing, S: Shuffler>(strip: &Strip<R, S>, label: u32) -> Result<u32, Fail> {
    let mut sum = BASE;
    for factor in 0..strip.plan.factors {
        let level = cell(strip, label, factor)?.level;
        sum = sum.saturating_add(share(factor, u32::from(level)));
    }
    Ok(u32::try_from(sum)?)
}

// Takes and marks every label, and finishes.
fn graded_row<R: Dividing, S: Shuffler>(
    heap: Global,
    strip: &Strip<R, S>,
) -> Result<Vec<Call>, Fail> {
    let len = strip.plan.labels as usize;
    let mut calls = Vec::new(heap);
    for label in 0..strip.plan.labels {
        let grade = grade(strip, label)?;
        calls.push(Call::Take { len })?;
        calls.push(Call::Mark { len, label, grade })?;
    }
    calls.push(Call::Finish { len })?;
    Ok(calls)
}

// The effect of every factor from each level to each.
fn every_effect(heap: Global, plan: Plan) -> Result<Vec<Question>, Fail> {
    let len = plan.labels as usize;
    let mut questions = Vec::new(heap);
    for factor in 0..plan.factors {
        for a in 0..plan.levels {
            for b in 0..plan.levels {
                questions.push(Question::Effect { len, factor, a, b })?;
            }
        }
    }
    Ok(questions)
}

// Conducts a trial on new words.
fn tried<R: Dividing, S: Shuffler>(
    heap: Global,
    strip: &Strip<R, S>,
    calls: &[Call],
    questions: &[Question],
) -> Result<Outcome, Fail> {
    let mut words = vec![in heap; 0u16; strip.plan.labels as usize]?;
    conduct(heap, strip, &mut words, calls, questions).map_err(|_| Fail::new("no trial"))
}

// That each effect is N/s times the difference of the two shares.
fn shows_shares<R: Dividing, S: Shuffler>(
    rt: &impl Abort,
    heap: Global,
    strip: &Strip<R, S>,
) -> Result<(), Fail> {
    let plan = strip.plan;
    let calls = graded_row(heap, strip)?;
    let questions = every_effect(heap, plan)?;
    let outcome = tried(heap, strip, &calls, &questions)?;
    assert_eq!(rt; outcome.replies.len(), questions.len());
    let each = i64::from(plan.labels / plan.levels);
    for (question, reply) in questions.iter().zip(outcome.replies.iter()) {
        let Question::Effect { factor, a, b, .. } = question else {
            return Err(Fail::new("no effect"));
        };
        let apart = share(*factor, *a).saturating_sub(share(*factor, *b));
        assert_eq!(rt; *reply, Reply::Effect(Ok(each.saturating_mul(apart))));
    }
    Ok(())
}

// The same of a strip by every shuffler.
fn whole<R: Dividing + Copy>(
    rt: &(impl Abort + AllocGlobal),
    ring: R,
    strength: u32,
    factors: u32,
    seed: u32,
) -> Result<(), Fail> {
    for shuffler in SHUFFLERS {
        let strip = planned(ring, shuffler, strength, factors, seed)?;
        shows_shares(rt, rt.alloc(), &strip)?;
    }
    Ok(())
}

#[test]
fn additive_grades(rt: HostRuntime) -> Result<(), Fail> {
    whole(&rt, Listed::new(2)?, 2, 2, 0)?;
    whole(&rt, Listed::new(3)?, 2, 3, 1)?;
    whole(&rt, Listed::new(7)?, 3, 7, 0xdeadbeef)?;
    whole(&rt, Binary::new(4)?, 2, 4, 0xffffffff)?;
    whole(&rt, Binary::new(8)?, 2, 5, 2026)
}

// Without an accepted finish there is no effect to read, and the labels are found all the same.
#[test]
fn unfinished(rt: HostRuntime) -> Result<(), Fail> {
    let heap = rt.alloc();
    let strip = planned(Listed::new(3)?, Turn, 2, 3, 1)?;
    let calls = [Call::Take { len: 9 }, Call::Finish { len: 9 }];
    let mut questions = every_effect(heap, strip.plan)?;
    questions.push(Question::Locate { factor: 1, fine: 5 })?;
    let outcome = tried(heap, &strip, &calls, &questions)?;
    let [effects @ .., located] = outcome.replies.as_slice() else {
        return Err(Fail::new("no reply"));
    };
    assert_eq!(rt; effects.len(), 27);
    assert!(rt; effects.iter().all(|reply| *reply == Reply::Unfinished));
    assert_eq!(rt; *located, Reply::Label(Ok(4)));
    Ok(())
}
