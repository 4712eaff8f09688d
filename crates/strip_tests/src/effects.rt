// Each refusal of an effect, also where several conditions hold at once.
use crate::common::{slip, told};
use book::shape::{Book, Finished};
use levels::listed::Listed;
use plan::shape::Plan;
use refusal::{Layer, Slip};
use shuffle::hash::Hash;
use std::test::Fail;
use trial::finished::effect;

// A finished book of two labels that are graded 10 and 30.
fn graded_pair(words: &mut [u16]) -> Result<Finished, Fail> {
    let mut book = Book::open(Plan::new(2, 1, 2, 5)?, words)?;
    for grade in [10u32, 30] {
        let label = book.take(words)?;
        book.mark(words, label, grade)?;
    }
    book.finish(words).map_err(|_| Fail::new("not finished"))
}

// An effect that is asked for by an arithmetic of so many levels, off these words.
#[derive(Clone, Copy)]
struct Asked<'a> {
    count: u32,
    words: &'a [u16],
    factor: u32,
    a: u32,
    b: u32,
}

impl Asked<'_> {
    fn answer(&self, book: &Finished) -> Result<Result<i64, Slip>, Fail> {
        let ring = Listed::new(self.count)?;
        Ok(told(effect(book, &ring, &Hash, self.words, self.factor, self.a, self.b)))
    }
}

// Off labels of which the first is torn and the second out, where all that is wrong from some row of the table on holds.
#[test]
fn effect_refusals(rt: HostRuntime) -> Result<(), Fail> {
    let mut words = [0u16; 2];
    let book = graded_pair(&mut words)?;
    let torn = [2000u16, 1];
    let short = [2000u16];
    for (count, factor, a, b, slip) in [
        (3, 9, 9, 9, slip(Layer::Strip, 1, 0)),
        (2, 2, 9, 9, slip(Layer::Book, 8, 0)),
        (2, 1, 2, 9, slip(Layer::Book, 9, 0)),
        (2, 1, 1, 2, slip(Layer::Book, 9, 1)),
        (2, 1, 1, 0, slip(Layer::Book, 16, 0)),
    ] {
        let asked = Asked {
            count,
            words: &torn,
            factor,
            a,
            b,
        };
        assert_eq!(rt; asked.answer(&book)?, Err(slip));
    }
    let unfit = Asked {
        count: 2,
        words: &short,
        factor: 2,
        a: 9,
        b: 9,
    };
    assert_eq!(rt; unfit.answer(&book)?, Err(slip(Layer::Book, 6, 0)));
    Ok(())
}

// Off labels of which the second is torn, and off the graded ones.
#[test]
fn effect_answers(rt: HostRuntime) -> Result<(), Fail> {
    let mut words = [0u16; 2];
    let book = graded_pair(&mut words)?;
    let torn = [12u16, 1003];
    let asked = Asked {
        count: 2,
        words: &torn,
        factor: 1,
        a: 1,
        b: 0,
    };
    assert_eq!(rt; asked.answer(&book)?, Err(slip(Layer::Book, 17, 1)));
    let asked = Asked {
        words: &words,
        ..asked
    };
    let up = asked.answer(&book)??;
    let down = Asked {
        a: 0,
        b: 1,
        ..asked
    }
    .answer(&book)??;
    assert!(rt; up == 20 || up == -20);
    assert!(rt; down == -20 || down == 20);
    assert_ne!(rt; up, down);
    Ok(())
}
