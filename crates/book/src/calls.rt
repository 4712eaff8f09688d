// The grading calls of a row, and what each answers where it is accepted.
ghost use Rattle.std.specs.Prelude.{◌≡◌};
ghost use Rattle.book.specs.Calls.{len_of};

// A call with its arguments; `len` is the length of the memory handed in.
#[derive(Clone, Copy, Debug, PartialEq, Eq)]
pub enum Call {
    Take { len: usize },
    Mark { len: usize, label: u32, grade: u32 },
    Spoil { len: usize, label: u32 },
    Strike { len: usize, label: u32 },
    Finish { len: usize },
}

impl Call {
    // The length of the memory handed in.
    pub(crate) fn handed(self) -> usize
        ensures { result ≡ len_of self }
    {
        match self {
            Call::Take { len }
            | Call::Mark { len, .. }
            | Call::Spoil { len, .. }
            | Call::Strike { len, .. }
            | Call::Finish { len } => len,
        }
    }
}

// What an accepted call answers.
#[derive(Clone, Copy, Debug, PartialEq, Eq)]
pub enum Answer {
    // take: the label
    Took(u32),
    // mark, spoil or strike
    Done,
    // finish: no call follows
    Finished,
}
