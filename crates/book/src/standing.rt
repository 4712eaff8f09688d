// How a word is read.
ghost use Rattle.std.specs.Prelude.{◌≡◌};
ghost use Rattle.book.specs.Standings.{standing, stops, unready, is_out, is_torn};

// What a word of 16 bits says of its label.
#[derive(Clone, Copy, Debug, PartialEq, Eq)]
pub enum Standing {
    Waiting,
    Out,
    Graded(u16),
    Torn,
}

impl Standing {
    pub fn read(word: u16) -> Standing
        ensures { result ≡ standing word }
    {
        match word {
            0 => Standing::Waiting,
            1 => Standing::Out,
            w if w > 1002 => Standing::Torn,
            2.. => Standing::Graded(word - 2),
        }
    }

    // Whether a take stops here.
    pub(crate) fn stops(self) -> bool
        ensures { result ≡ stops self }
    {
        matches!(self, Standing::Waiting | Standing::Torn)
    }

    // Whether the label has yet to be graded.
    pub(crate) fn unready(self) -> bool
        ensures { result ≡ unready self }
    {
        matches!(self, Standing::Waiting | Standing::Out)
    }

    // Whether a take handed it out.
    pub(crate) fn is_out(self) -> bool
        ensures { result ≡ is_out self }
    {
        matches!(self, Standing::Out)
    }

    // Whether no call writes such a word.
    pub(crate) fn is_torn(self) -> bool
        ensures { result ≡ is_torn self }
    {
        matches!(self, Standing::Torn)
    }
}
