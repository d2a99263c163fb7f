// A gap, holding less obligation, in guarantees (5.6.1.1).
ghost use Rattle.std.specs.Prelude.{◌≡◌, true, cond, IfOk};
ghost use Rattle.std.specs.Result.{result_err};
ghost use Rattle.settlement.specs.Rules.{gap_fine, shortage, surplus};

use crate::fault::SheetFault;

// The widest obligation with nothing held, and the largest holding with nothing owed.
const LOWEST_GAP: i64 = -999_999_999;

const HIGHEST_GAP: i64 = 99_999_999;

// A gap no wider than the widest.
#[derive(Clone, Copy, PartialEq, Eq, Debug)]
pub struct Gap {
    pub guarantees: i64,
    pub ghost fine: { gap_fine guarantees ≡ true },
}

impl Gap {
    pub fn new(guarantees: i64) -> Result<Gap, SheetFault>
        ensures answer { result_err result ≡ cond (gap_fine guarantees) None (Some SheetFault.GapOutOfRange) }
        ensures after { IfOk result (λ gap. gap.guarantees ≡ guarantees) }
    {
        if !(LOWEST_GAP..=HIGHEST_GAP).contains(&guarantees) {
            return Err(SheetFault::GapOutOfRange);
        }
        Ok(Gap { guarantees })
    }

    // What the gap falls short of 0.
    pub fn shortage(self) -> u64
        ensures { result ≡ shortage self.guarantees }
    {
        self.guarantees.min(0).unsigned_abs()
    }

    // What the gap has above 0.
    pub fn surplus(self) -> u64
        ensures { result ≡ surplus self.guarantees }
    {
        self.guarantees.max(0).unsigned_abs()
    }
}
