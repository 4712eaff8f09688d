// The search upward through the words.
ghost use Rattle.std.specs.Prelude.{◌≡◌, ◌<◌, ◌≤◌, length, IfSome, position};
ghost use Rattle.book.specs.Standings.{standing, standings, stops};
ghost use Rattle.book.specs.Search.{stop};

use crate::standing::Standing;

// Where a take stops that starts at the cursor.
pub(crate) fn seek(words: &[u16], cursor: usize) -> Option<usize>
    requires { cursor ≤ length words.now }
    ensures answer { result ≡ stop cursor (standings words.now) }
    ensures within { IfSome result (λ k. k < length words.now) }
{
    let (below, above) = words.split_at(cursor);
    first_stop(above)
        .map(|up| cursor + up)
        .or_else(|| first_stop(below))
}

// The first word at which a take stops.
fn first_stop(words: &[u16]) -> Option<usize>
    ensures answer { result ≡ position (λ w. stops (standing w)) words.now }
    ensures within { IfSome result (λ k. k < length words.now) }
{
    words.iter().position(|word| Standing::read(*word).stops())
}
