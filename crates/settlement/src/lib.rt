// The settlement of gaps between holdings and obligations: gaps are entered into a sheet, and paid from it
// once it is ended (5.6).

#![tactic(auto)]

ghost use Rattle.std.specs.Prelude.{◌≡◌, ℕ, IfOk};
ghost use Rattle.std.specs.Result.{result_err};
ghost use Rattle.settlement.specs.Rules.{total_surplus_of, amounts};
ghost use Rattle.settlement.specs.Sheets.{Pays};
ghost use Rattle.settlement.specs.Laws.{SettlementIsFair};
ghost use Rattle.settlement.specs.Marked.{MarkedSettlement};
ghost use Rattle.settlement.specs.Whole.{gaps_fault, settling, settled};

pub mod fault;
mod gaps;
pub mod sheet;
mod totals;

use fault::SheetFault;
use sheet::{PayingSheet, Prices, Sheet};

// The figures of a settlement: cents for each guarantee, then cents.
#[derive(Clone, Copy, PartialEq, Eq, Debug)]
pub struct Settlement {
    pub paid_price: u32,
    pub collected: u64,
    pub paid: u64,
    pub balance: u64,
}

// Settles gaps at two prices: each gap becomes its amount in cents, below 0 where it owes.
pub fn settle(
    shortage_price: u32,
    surplus_price: u32,
    gaps: &mut [i64],
) -> Result<Settlement, SheetFault>
    ensures answer { result ≡ settling shortage_price surplus_price gaps.old }
    ensures after { gaps.new ≡ settled shortage_price surplus_price gaps.old }
{
    let prices = Prices::new(shortage_price, surplus_price)?;
    let paying = enter_all(prices, gaps)?;
    let figures = paying.figures();
    pay_all(paying, gaps)?;
    Ok(figures)
}

// Every settlement is fair: nothing is paid that was not collected, and no more could be paid (5.6.2.2).
pub fn settlement_is_fair()
    ensures { SettlementIsFair }
{}

// A settlement worked out by hand agrees with the rules.
pub fn marked_settlement()
    ensures { MarkedSettlement }
{}

// An ended sheet of all the gaps.
fn enter_all(prices: Prices, gaps: &[i64]) -> Result<PayingSheet, SheetFault>
    ensures answer { result_err result ≡ gaps_fault 0 gaps.now }
    ensures after { IfOk result (λ sheet. Pays sheet prices.shortage prices.surplus gaps.now (total_surplus_of gaps.now)) }
{
    let mut sheet = Sheet::at(prices);
    for gap in gaps {
        sheet.enter(*gap)?;
    }
    let (paying, _) = sheet.end();
    Ok(paying)
}

// Pays each gap that was entered, and puts its amount in its place.
fn pay_all(mut paying: PayingSheet, gaps: &mut [i64]) -> Result<(), SheetFault>
    ensures answer { (p q : ℕ) → Pays paying p q gaps.old (total_surplus_of gaps.old) → result ≡ Ok tt }
    ensures after { (p q : ℕ) → Pays paying p q gaps.old (total_surplus_of gaps.old) → gaps.new ≡ amounts p q gaps.old }
{
    for gap in gaps.iter_mut() {
        *gap = paying.pay(*gap)?;
    }
    Ok(())
}
