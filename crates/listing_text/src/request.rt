// The request of a listing: five numbers, read from the first line of the input.
ghost use Rattle.std.specs.Prelude.{◌≡◌, take, drop, MatchOption};
ghost use Rattle.listing_text.specs.Grammar.{Reads};
ghost use Rattle.listing_text.specs.Texts.{header_text};
ghost use Rattle.listing_text.specs.declared.request.Request.{Request};

use super::cursor::Cursor;

// What strip to list, and by which shuffler: 0 the turn, 1 the hash.
#[derive(Clone, Copy)]
pub struct Request {
    pub levels: u32,
    pub strength: u32,
    pub factors: u32,
    pub seed: u32,
    // Kept: a number and no kind, since the header writes any number that stands here.
    pub shuffler: u32,
}

// How many shufflers there are.
const SHUFFLERS: u32 = 2;

impl Request {
    // No byte past these counts: five numerals of ten digits, each with the byte that ends it.
    pub const LONGEST: usize = 55;

    // The request that the first line of `input` writes, if it writes one. It writes at most one, which its first 55
    // bytes decide, and the header of that one, after its first word, writes it again.
    pub fn read(input: &[u8]) -> Option<Request>
        ensures value { MatchOption result ((q : Request) → Reads input.now q → ⊥) (λ q. Reads input.now q) }
        ensures unique { (p q : Request) → Reads input.now p → Reads input.now q → p ≡ q }
        ensures front { (q : Request) → (Reads input.now q → Reads (take 55 input.now) q) × (Reads (take 55 input.now) q → Reads input.now q) }
        ensures back { (q : Request) → Reads input.now q → Reads (drop 6 (header_text q)) q }
    {
        let mut line = Cursor { rest: input };
        let levels = line.numeral(b' ')?;
        let strength = line.numeral(b' ')?;
        let factors = line.numeral(b' ')?;
        let seed = line.numeral(b' ')?;
        let shuffler = line.numeral(b'\n')?;
        if shuffler >= SHUFFLERS {
            return None;
        }
        Some(Request {
            levels,
            strength,
            factors,
            seed,
            shuffler,
        })
    }
}
