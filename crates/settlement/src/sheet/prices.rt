// The two prices of a settlement.
ghost use Rattle.std.specs.Prelude.{◌≡◌, ◌*◌, ◌≤◌, pos, unsigned_abs, IfOk};
ghost use Rattle.std.specs.Result.{result_err};
ghost use Rattle.settlement.specs.Rules.{highest_price, widest_shortage, amount};

use crate::fault::SheetFault;
use crate::gaps::Gap;

// Cents for each guarantee (the book's own limit).
pub const HIGHEST_PRICE: u32 = 9_999_999;

// What a guarantee of shortage owes and one of surplus may receive, in cents.
#[derive(Clone, Copy, PartialEq, Eq, Debug)]
pub struct Prices {
    pub shortage: u32,
    pub surplus: u32,
    pub ghost shortage_bound: { shortage ≤ highest_price },
    pub ghost surplus_bound: { surplus ≤ highest_price },
}

impl Prices {
    ghost use Rattle.settlement.specs.Sheets.{price_fault};

    // Two prices (5.6.1.2), neither above the highest. The registry judges the same before, for a refusal of
    // its own.
    pub fn new(shortage: u32, surplus: u32) -> Result<Prices, SheetFault>
        ensures answer { result_err result ≡ price_fault shortage surplus }
        ensures shortage { IfOk result (λ prices. prices.shortage ≡ shortage) }
        ensures surplus { IfOk result (λ prices. prices.surplus ≡ surplus) }
    {
        if shortage > HIGHEST_PRICE {
            return Err(SheetFault::PriceOutOfRange(1));
        }
        if surplus > HIGHEST_PRICE {
            return Err(SheetFault::PriceOutOfRange(2));
        }
        Ok(Prices { shortage, surplus })
    }

    // What a gap receives, below 0 what it owes.
    pub(crate) fn amount(self, gap: Gap) -> i64
        ensures { result ≡ amount self.shortage self.surplus gap.guarantees }
    {
        money(gap.surplus(), self.surplus) - money(gap.shortage(), self.shortage)
    }
}

// Guarantees at a price.
fn money(guarantees: u64, price: u32) -> i64
    requires guarantees { guarantees ≤ widest_shortage }
    requires price { price ≤ highest_price }
    ensures answer { result ≡ pos (guarantees * price) }
    ensures bound { unsigned_abs result ≤ widest_shortage * highest_price }
{
    (guarantees * u64::from(price)) as i64
}
