ghost use Rattle.std.specs.Prelude.{◌≡◌, ℕ, ◌≤◌};
ghost use Rattle.std.proofs.Common.{lit≤};
ghost use Rattle.ledger.specs.Rules.{limit, most_posts, posting, held_after};
ghost use Rattle.ledger.specs.Holdings.{balances_holding, balances_left, answered};

use crate::checks::{ACCOUNTS, MOST_POSTS, known_account};
use crate::{Ledger, LedgerFault, Movement, Side};

// A ledger that keeps the balance of each account, and never runs out of
// posts.
#[derive(Drop)]
pub struct Balances {
    balances: [u32; ACCOUNTS as usize],
    // No account holds more than the limit.
    ghost capped: { (k : ℕ) → balances_holding balances k ≤ limit },
}

impl Balances {
    // Every account holds nothing, and all posts are left.
    pub fn new() -> Balances
        ensures holds { (k : ℕ) → balances_holding result.balances k ≡ 0 }
        ensures posts { balances_left result.balances ≡ most_posts }
    {
        Balances {
            balances: [0; ACCOUNTS as usize],
        }
    }

    // Writes what the movement's account holds after it, and answers it.
    fn post(&mut self, movement: Movement) -> Result<u32, LedgerFault>
        ensures answer { result ≡ posting (balances_left self.old.balances) movement.account movement.amount (answered movement (balances_holding self.old.balances movement.account)) }
        ensures holds { (k : ℕ) → balances_holding self.new.balances k ≡ held_after result movement.account (balances_holding self.old.balances) k }
    {
        movement.postable(self.left())?;
        let at = usize::from(movement.account) - 1;
        let new = movement.posted(self.balances[at])?;
        self.balances[at] = new;
        Ok(new)
    }
}

// A ledger has two calls for the two sides.
impl Ledger for Balances {
    ghost holding = { λ s. balances_holding s.balances };

    ghost posts = { λ s. balances_left s.balances };

    ghost capped = { λ s k. s.capped k };

    ghost few = { λ s. lit≤ tt };

    fn ask(&self, account: u8) -> Result<u32, LedgerFault> {
        known_account(account)?;
        Ok(self.balances[usize::from(account) - 1])
    }

    fn left(&self) -> u16 {
        MOST_POSTS
    }

    fn credit(&mut self, account: u8, amount: u32) -> Result<u32, LedgerFault> {
        self.post(Movement {
            account,
            amount,
            side: Side::Credit,
        })
    }

    fn debit(&mut self, account: u8, amount: u32) -> Result<u32, LedgerFault> {
        self.post(Movement {
            account,
            amount,
            side: Side::Debit,
        })
    }
}
