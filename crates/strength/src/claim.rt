// What is claimed of a table, and what the checker answers.

// An orthogonal array of so many runs and factors, in levels 0 to `levels` - 1, of this strength.
#[derive(Clone, Copy, Debug, PartialEq, Eq)]
pub struct Claim {
    pub levels: u32,
    pub strength: u32,
    pub factors: u32,
    pub runs: u32,
}

// Where a table first fails.
#[derive(Clone, Copy, Debug, PartialEq, Eq)]
pub struct Failure {
    // bit k is set for column k
    pub columns: u32,
    // the levels at those columns, read in base `levels` with the first column highest
    pub combination: u32,
    // how many runs have them
    pub count: u32,
}

// Kept: both verdicts answer the question, so a no is no failure of the check.
#[derive(Clone, Copy, Debug, PartialEq, Eq)]
pub enum Verdict {
    // an orthogonal array: any combination of levels at `strength` columns comes `index` times
    Yes { index: u32 },
    // not one
    No(Failure),
}
