// The open accounts of a year.
ghost use Rattle.accounts.specs.Bounds.{Kept};

use curves::YearTerms;
use rules::Account;

// The records of the open accounts, in a year of these terms: none has more steps than the year has half-hours.
#[derive(Clone, Copy, PartialEq, Eq, Debug)]
pub struct OpenAccounts<'a> {
    pub accounts: &'a [Account],
    pub terms: YearTerms,
    pub ghost kept: { ∥ Kept terms.n accounts.now ∥₁ },
}
