// A list in memory that its owner lends: it allocates nothing, and grows as far as the memory goes.

#![tactic(auto)]

ghost use Rattle.std.specs.Prelude.{◌≤◌, length};

mod methods;

// The items stand in the first `used` of the lent places. The places are the host's, so the count stands beside them.
#[derive(Drop)]
pub struct Places<'a, T> {
    lent: &'a mut [T],
    used: usize,
    ghost fits: { used ≤ length lent.now },
}
