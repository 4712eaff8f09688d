// What is asked of a trial once its row of calls is over, and what is replied.
use crate::fault::EffectFault;
use strip::fault::StripFault;
use strip::wish::Wish;

#[derive(Drop)]
pub enum Question {
    // the label that has these levels
    Find(Vec<Wish>),
    // the label that has this fine setting for this factor
    Locate {
        factor: u32,
        fine: u32,
    },
    // the effect of a factor from level b to level a; `len` is the length of the memory handed in
    Effect {
        len: usize,
        factor: u32,
        a: u32,
        b: u32,
    },
}

// Kept: Unfinished stands beside Effect, as an Option about its Result would not say what is wanting.
#[derive(Clone, Copy, Debug, PartialEq, Eq)]
pub enum Reply {
    // to find and locate
    Label(Result<u32, StripFault>),
    // to effect, off the finished book
    Effect(Result<i64, EffectFault>),
    // to effect where no finish was accepted, so that there is no book to read it off
    Unfinished,
}
