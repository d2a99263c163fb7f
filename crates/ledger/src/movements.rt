ghost use Rattle.std.specs.Prelude.{ℕ, ◌≤◌, length};
ghost use Rattle.places.specs.Held.{items};
ghost use Rattle.ledger.specs.Rules.{limit, most_posts};
ghost use Rattle.ledger.specs.Holdings.{moved, Sound};

use crate::Movement;
use places::Places;

mod posts;

// A ledger that keeps its accepted posts, in places that the host lends.
#[derive(Drop)]
pub struct Movements<'a> {
    posts: Places<'a, Movement>,
    // At most 65,535 of the lent places are used.
    ghost fits: { length (items posts) ≤ most_posts },
    // No account holds more than the limit.
    ghost capped: { (k : ℕ) → moved (items posts) k ≤ limit },
    // A pass over the movements stays between nothing and the limit.
    ghost sound: { Sound (items posts) },
}
