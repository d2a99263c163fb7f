// Checking series, and the settlement of the gaps of the open accounts.
ghost use Rattle.std.specs.Prelude.{◌≡◌, ◌*◌, ◌≤◌, true, pos, ◌+ℤ◌, ◌-ℤ◌, Some, unsigned_abs};
ghost use Rattle.ledger.specs.Rules.{limit};
ghost use Rattle.registers.specs.Rows.{lookup};
ghost use Rattle.curves.specs.Obligations.{most_added};
ghost use Rattle.settlement.specs.Rules.{widest_shortage, gap_fine, total_surplus_of};
ghost use Rattle.settlement.specs.Sheets.{Pays};
ghost use Rattle.rules.specs.Records.{account_number};
ghost use Rattle.rules.specs.Settling.{begun_not_complete, is_incomplete, first_incomplete, obligation_of, gap_of, gaps_of, settlement_of, statement_of};
ghost use Rattle.accounts.specs.Bounds.{Bounded, Sound};

use crate::open::OpenAccounts;
use curves::YearTerms;
use ledger::Ledger;
use rules::{Account, Series, Settlement, Statement};
use settlement::sheet::{PayingSheet, Prices, Sheet};

// The first account with a series begun and not complete.
pub fn first_incomplete(accounts: &[Account], n: u16) -> Option<u8>
    ensures { result ≡ first_incomplete n accounts.now }
{
    for account in accounts {
        if is_incomplete(*account, n) {
            return Some(account.number);
        }
    }
    None
}

impl OpenAccounts<'_> {
    // The figures of the year (5.6).
    pub fn settlement<L: Ledger>(&self, ledger: &L, prices: Prices) -> Settlement
        ensures { result ≡ settlement_of prices.shortage prices.surplus (gaps_of self.now.terms.n self.now.terms.security (L.Ledger.holding ledger.now) self.now.accounts.now) }
    {
        self.paying_sheet(ledger, prices).figures()
    }

    // What an account is told of the settlement: the sheet is made again, so that nothing is used up.
    pub fn statement<L: Ledger>(&self, ledger: &L, account: Account, prices: Prices) -> Statement
        requires { lookup account_number account.number self.now.accounts.now ≡ Some account }
        ensures { result ≡ statement_of self.now.terms.n self.now.terms.security prices.shortage prices.surplus (L.Ledger.holding ledger.now) self.now.accounts.now account }
    {
        let mut paying = self.paying_sheet(ledger, prices);
        let holding = holding_of(ledger, account.number);
        let obligation = obligation_of(account, self.terms);
        let gap = gap(holding, obligation);
        let amount = paying.pay(gap).unwrap();
        Statement {
            holding,
            obligation,
            gap: gap as i32,
            amount,
        }
    }

    // The ended sheet of the gaps of all accounts, with nothing paid.
    fn paying_sheet<L: Ledger>(&self, ledger: &L, prices: Prices) -> PayingSheet
        ensures { Pays result prices.shortage prices.surplus (gaps_of self.now.terms.n self.now.terms.security (L.Ledger.holding ledger.now) self.now.accounts.now) (total_surplus_of (gaps_of self.now.terms.n self.now.terms.security (L.Ledger.holding ledger.now) self.now.accounts.now)) }
    {
        let mut sheet = Sheet::at(prices);
        for account in self.accounts {
            sheet.enter(gap_of(ledger, *account, self.terms)).unwrap();
        }
        let (paying, _) = sheet.end();
        paying
    }
}

// Holding less obligation (5.6.1.1).
fn gap_of<L: Ledger>(ledger: &L, account: Account, terms: YearTerms) -> i64
    requires { Sound terms.n account }
    ensures answer { result ≡ gap_of terms.n terms.security (L.Ledger.holding ledger.now) account }
    ensures bound { gap_fine result ≡ true }
{
    gap(
        holding_of(ledger, account.number),
        obligation_of(account, terms),
    )
}

// What an account holds.
fn holding_of<L: Ledger>(ledger: &L, account: u8) -> u32
    requires first { 1 ≤ account }
    requires last { account ≤ 64 }
    ensures answer { result ≡ L.Ledger.holding ledger.now account }
    ensures bound { result ≤ limit }
{
    ledger.ask(account).unwrap()
}

// The obligation of an account, from both its series (5.2.1.2).
fn obligation_of(account: Account, terms: YearTerms) -> u32
    requires { Sound terms.n account }
    ensures answer { result ≡ obligation_of terms.n terms.security account }
    ensures bound { result ≤ widest_shortage }
{
    terms.obligation(both(account.profiled, account.losses, terms.n)) as u32
}

// The sum of both series.
fn both(profiled: Series, losses: Series, n: u16) -> i64
    requires profiled { Bounded n profiled }
    requires losses { Bounded n losses }
    requires short { n ≤ 400 }
    ensures answer { result ≡ profiled.sum +ℤ losses.sum }
    ensures bound { unsigned_abs result ≤ n * (2 * most_added) }
{
    profiled.sum + losses.sum
}

// Holding less obligation, in guarantees.
fn gap(holding: u32, obligation: u32) -> i64
    requires held { holding ≤ limit }
    requires owed { obligation ≤ widest_shortage }
    ensures answer { result ≡ pos holding -ℤ pos obligation }
    ensures bound { gap_fine result ≡ true }
{
    i64::from(holding) - i64::from(obligation)
}

// Whether either series of an account is begun and not complete.
fn is_incomplete(account: Account, n: u16) -> bool
    ensures { result ≡ is_incomplete n account }
{
    begun_not_complete(account.profiled, n) || begun_not_complete(account.losses, n)
}

fn begun_not_complete(series: Series, n: u16) -> bool
    ensures { result ≡ begun_not_complete n series }
{
    0 < series.loaded && series.loaded < n
}
