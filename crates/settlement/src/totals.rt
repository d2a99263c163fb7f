// The totals of the gaps entered into a sheet, in guarantees, and their count: no buffer stands beside it.
ghost use Rattle.std.specs.Prelude.{◌≡◌, ◌+◌, ◌*◌, ◌<◌, ◌≤◌, List, [], ◌∷◌, ◌++◌, ℤ};
ghost use Rattle.settlement.specs.Rules.{widest_shortage, widest_surplus, most_gaps};
ghost use Rattle.settlement.specs.Tallies.{Tally, Tallied};

use crate::gaps::Gap;

#[derive(Drop)]
pub struct Totals {
    pub shortage: u64,
    pub surplus: u64,
    pub count: u8,
    // some list of gaps stands behind them
    ghost stands: { Tallied shortage surplus count },
    // so that no sum overflows
    ghost bound: { (shortage ≤ widest_shortage * count) × (surplus ≤ widest_surplus * count) × (count ≤ most_gaps) },
}

impl Totals {
    // The totals of no gaps.
    pub fn none() -> Totals
        ensures { Tally result.shortage result.surplus result.count [] }
    {
        Totals {
            shortage: 0,
            surplus: 0,
            count: 0,
        }
    }

    // Adds one more gap.
    pub fn add(&mut self, gap: Gap)
        requires { self.old.count < most_gaps }
        ensures answer { self.new.count ≡ self.old.count + 1 }
        ensures holds { (gaps : List ℤ) → Tally self.old.shortage self.old.surplus self.old.count gaps → Tally self.new.shortage self.new.surplus self.new.count (gaps ++ gap.guarantees ∷ []) }
    {
        self.shortage += gap.shortage();
        self.surplus += gap.surplus();
        self.count += 1;
    }
}
