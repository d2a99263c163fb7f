ghost use Rattle.std.specs.Prelude.{◌≡◌, true, Ok};
ghost use Rattle.ledger.specs.Rules.{posting};
ghost use Rattle.ledger.specs.Holdings.{moving, covers, answered};

use crate::LedgerFault;
use crate::checks::{LIMIT, known_account};

// Whether a movement adds to a holding or takes off it.
#[derive(Clone, Copy, PartialEq, Eq, Debug)]
pub enum Side {
    Credit,
    Debit,
}

// One accepted post, in guarantees.
#[derive(Clone, Copy, PartialEq, Eq, Debug)]
pub struct Movement {
    pub account: u8,
    pub amount: u32,
    pub side: Side,
}

impl Movement {
    // What a host fills its places with. No place is read before a movement
    // is written to it.
    pub const EMPTY: Movement = Movement {
        account: 0,
        amount: 0,
        side: Side::Credit,
    };

    // What every post checks first, where the ledger has `left` posts left
    // (refusals 4.1, 4.2, 4.3).
    pub(crate) fn postable(&self, left: u16) -> Result<(), LedgerFault>
        ensures { result ≡ posting left self.now.account self.now.amount (Ok tt) }
    {
        known_account(self.account)?;
        if self.amount == 0 {
            return Err(LedgerFault::NoAmount(self.account));
        }
        if left == 0 {
            return Err(LedgerFault::NoPostsLeft(self.account));
        }
        Ok(())
    }

    // What the movement's account holds after it, where it held `held`
    // (refusals 4.4, 4.5).
    pub(crate) fn posted(&self, held: u32) -> Result<u32, LedgerFault>
        ensures { result ≡ answered self.now held }
    {
        match self.side {
            Side::Credit => held
                .checked_add(self.amount)
                .filter(|raised| *raised <= LIMIT)
                .ok_or(LedgerFault::PastLimit(self.account)),
            Side::Debit => held
                .checked_sub(self.amount)
                .ok_or(LedgerFault::BeyondHolding(self.account)),
        }
    }

    // What `account` holds after this movement, where it held `held`. Not by
    // `posted`, whose tests slow a pass over the movements by half.
    pub(crate) fn applied(&self, account: u8, held: u32) -> u32
        requires { account ≡ self.now.account → covers self.now.side held self.now.amount ≡ true }
        ensures { result ≡ moving account held self.now }
    {
        if self.account != account {
            return held;
        }
        match self.side {
            Side::Credit => held + self.amount,
            Side::Debit => held - self.amount,
        }
    }
}
