// Paying from an ended sheet.
ghost use Rattle.std.specs.Prelude.{◌≡◌, ℕ, List, ℤ};
ghost use Rattle.settlement.specs.Rules.{total_surplus_of, collected, price_within, paid, balance};
ghost use Rattle.settlement.specs.Tallies.{Tally};
ghost use Rattle.settlement.specs.Sheets.{Settles, Pays, paying, left_after};
ghost use Rattle.settlement.specs.Whole.{figures};

use super::{PayingSheet, Prices};
use crate::Settlement;
use crate::fault::SheetFault;
use crate::gaps::Gap;
use crate::totals::Totals;

impl PayingSheet {
    // Pays a gap: what it receives in cents, below 0 what it owes.
    pub fn pay(&mut self, gap: i64) -> Result<i64, SheetFault>
        ensures answer { (p q : ℕ) (gaps : List ℤ) (left : ℕ) → Pays self.old p q gaps left → result ≡ paying p q gaps left gap }
        ensures after { (p q : ℕ) (gaps : List ℤ) (left : ℕ) → Pays self.old p q gaps left → Pays self.new p q gaps (left_after left gap) }
    {
        let gap = Gap::new(gap)?;
        let left = self.unpaid.checked_sub(gap.surplus());
        self.unpaid = left.ok_or(SheetFault::NotLeft)?;
        Ok(self.settled_at.amount(gap))
    }

    // The figures of the settlement.
    pub fn figures(&self) -> Settlement
        ensures { (p q : ℕ) (gaps : List ℤ) → Settles self.now p q gaps → result ≡ figures p q gaps }
    {
        let paid_price = self.settled_at.surplus;
        let paid = self.total_surplus * u64::from(paid_price);
        Settlement {
            paid_price,
            collected: self.collected,
            paid,
            balance: self.collected - paid,
        }
    }

    // What the shortages owe.
    pub fn collected(&self) -> u64
        ensures { (p q : ℕ) (gaps : List ℤ) → Settles self.now p q gaps → result ≡ collected p gaps }
    {
        self.figures().collected
    }

    // What the surpluses receive in all.
    pub fn paid(&self) -> u64
        ensures { (p q : ℕ) (gaps : List ℤ) → Settles self.now p q gaps → result ≡ paid p q gaps }
    {
        self.figures().paid
    }

    // What is collected and not paid.
    pub fn balance(&self) -> u64
        ensures { (p q : ℕ) (gaps : List ℤ) → Settles self.now p q gaps → result ≡ balance p q gaps }
    {
        self.figures().balance
    }

    // The paying sheet of gaps at two prices, with nothing paid.
    pub(super) fn of(prices: Prices, totals: &Totals) -> PayingSheet
        ensures { (gaps : List ℤ) → Tally totals.now.shortage totals.now.surplus totals.now.count gaps → Pays result prices.shortage prices.surplus gaps (total_surplus_of gaps) }
    {
        let total_surplus = totals.surplus;
        let collected = totals.shortage * u64::from(prices.shortage);
        let paid_price = price_within(collected, total_surplus, prices.surplus);
        PayingSheet {
            settled_at: Prices {
                shortage: prices.shortage,
                surplus: paid_price,
            },
            total_surplus,
            collected,
            unpaid: total_surplus,
        }
    }
}

// The quoted price, or what the money covers for each guarantee where that is less (5.6.2.2).
fn price_within(money: u64, guarantees: u64, quoted: u32) -> u32
    ensures { result ≡ price_within money guarantees quoted }
{
    if guarantees == 0 {
        return quoted;
    }
    u64::from(quoted).min(money / guarantees) as u32
}
