// Entering gaps into a sheet.
ghost use Rattle.std.specs.Prelude.{◌≡◌, ℕ, List, [], ℤ, IfOk};
ghost use Rattle.std.specs.Result.{result_err};
ghost use Rattle.settlement.specs.Rules.{total_surplus_of, paid_price_of};
ghost use Rattle.settlement.specs.Sheets.{Holds, Pays, price_fault, entering, entered};

use super::{PayingSheet, Prices, Sheet};
use crate::fault::SheetFault;
use crate::gaps::Gap;
use crate::totals::Totals;

// A gap for each account.
const MOST_GAPS: u8 = 64;

impl Sheet {
    // A sheet at two prices as they are quoted (5.6.1.2), without gaps.
    pub fn start(shortage_price: u32, surplus_price: u32) -> Result<Sheet, SheetFault>
        ensures answer { result_err result ≡ price_fault shortage_price surplus_price }
        ensures after { IfOk result (λ sheet. Holds sheet shortage_price surplus_price []) }
    {
        Ok(Sheet::at(Prices::new(shortage_price, surplus_price)?))
    }

    // The same at prices that are judged.
    pub fn at(prices: Prices) -> Sheet
        ensures { Holds result prices.shortage prices.surplus [] }
    {
        Sheet {
            prices,
            totals: Totals::none(),
        }
    }

    // Enters a gap, and answers the count of gaps so far.
    pub fn enter(&mut self, gap: i64) -> Result<u8, SheetFault>
        ensures answer { (p q : ℕ) (gaps : List ℤ) → Holds self.old p q gaps → result ≡ entering gaps gap }
        ensures after { (p q : ℕ) (gaps : List ℤ) → Holds self.old p q gaps → Holds self.new p q (entered gaps gap) }
    {
        let gap = Gap::new(gap)?;
        if self.totals.count >= MOST_GAPS {
            return Err(SheetFault::Full);
        }
        self.totals.add(gap);
        Ok(self.totals.count)
    }

    // Ends the entering: a paying sheet, and the paid price.
    pub fn end(self) -> (PayingSheet, u32)
        ensures answer { (p q : ℕ) (gaps : List ℤ) → Holds self p q gaps → result.1 ≡ paid_price_of p q gaps }
        ensures after { (p q : ℕ) (gaps : List ℤ) → Holds self p q gaps → Pays result.0 p q gaps (total_surplus_of gaps) }
    {
        let paying = PayingSheet::of(self.prices, &self.totals);
        let paid_price = paying.settled_at.surplus;
        (paying, paid_price)
    }
}
