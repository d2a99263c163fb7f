ghost use Rattle.std.specs.Prelude.{◌≡◌};
ghost use Rattle.ledger.specs.Faults.{refusal};

use refusals::Refusal;

// Why a ledger refused (refusals 4.1 to 4.5, the book's own), with the account
// that it was about.
#[derive(Clone, Copy, PartialEq, Eq, Debug)]
pub enum LedgerFault {
    // 4.1: not an account from 1 to 64.
    NoSuchAccount(u8),
    // 4.2: a post of nothing.
    NoAmount(u8),
    // 4.3: the ledger takes no more posts.
    NoPostsLeft(u8),
    // 4.4: a debit above the holding.
    BeyondHolding(u8),
    // 4.5: a credit past the most that an account may hold.
    PastLimit(u8),
}

impl From<LedgerFault> for Refusal {
    ghost from_gives = { λ e r. r ≡ refusal e };

    fn from(fault: LedgerFault) -> Refusal {
        let (number, account) = match fault {
            LedgerFault::NoSuchAccount(account) => (1, account),
            LedgerFault::NoAmount(account) => (2, account),
            LedgerFault::NoPostsLeft(account) => (3, account),
            LedgerFault::BeyondHolding(account) => (4, account),
            LedgerFault::PastLimit(account) => (5, account),
        };
        Refusal {
            layer: 4,
            number,
            place: u16::from(account),
        }
    }
}
