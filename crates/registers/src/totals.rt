// Totals of records with an amount.
ghost use Rattle.std.specs.Prelude.{◌≡◌, sum_by};

use crate::Amount;

// The sum of the amounts. 128 bits hold 2^64 amounts of 32 bits.
pub fn total<R: Amount>(records: &[R]) -> u128
    ensures { result ≡ sum_by R.worth records.now }
{
    records.iter().map(|r| u128::from(r.amount())).sum()
}
