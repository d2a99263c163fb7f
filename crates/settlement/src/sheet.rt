// The settlement sheet in its two stages: gaps are entered into the first, and paid from the second.
ghost use Rattle.std.specs.Prelude.{◌*◌, ◌≤◌};
ghost use Rattle.settlement.specs.Rules.{widest_surplus, most_gaps};
ghost use Rattle.settlement.specs.Tallies.{Ended};

use crate::totals::Totals;

mod entering;
mod paying;
mod prices;

pub use prices::{HIGHEST_PRICE, Prices};

// A sheet that takes gaps. Contracts speak of every list that it may hold: the list as ghost data was
// tried, and wants proofs by hand of each function that changes it.
#[derive(Drop)]
pub struct Sheet {
    prices: Prices,
    totals: Totals,
}

// An ended sheet, which pays. Surpluses are in guarantees, money in cents. Its list of gaps is no ghost
// data, as with `Sheet`.
#[derive(Drop)]
pub struct PayingSheet {
    // for surpluses the paid price, not the quoted one
    settled_at: Prices,
    total_surplus: u64,
    collected: u64,
    unpaid: u64,
    // some list of gaps stands behind the figures
    ghost stands: { Ended settled_at.shortage settled_at.surplus total_surplus collected },
    // so that no product overflows, and no payment passes what is collected
    ghost bound: { (total_surplus ≤ widest_surplus * most_gaps)
        × (total_surplus * settled_at.surplus ≤ collected)
        × (unpaid ≤ total_surplus) },
}
