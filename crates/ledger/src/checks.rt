ghost use Rattle.std.specs.Prelude.{◌≡◌, if◌then◌else◌, Ok, Err};
ghost use Rattle.ledger.specs.declared.fault.LedgerFault.TheVariants.{NoSuchAccount};
ghost use Rattle.ledger.specs.Rules.{known};

use crate::LedgerFault;

// The accounts are numbered from 1 to 64 (the book's own).
pub const ACCOUNTS: u8 = 64;

// The most that an account may hold, in guarantees: eight digits (the book's
// own).
pub const LIMIT: u32 = 99_999_999;

// The most posts that a ledger has left: what a `u16` can tell.
pub(crate) const MOST_POSTS: u16 = u16::MAX;

// Whether the number is an account's.
pub fn is_account(account: u8) -> bool
    ensures { result ≡ known account }
{
    (1..=ACCOUNTS).contains(&account)
}

// What every call checks first (refusal 4.1).
pub(crate) fn known_account(account: u8) -> Result<(), LedgerFault>
    ensures { result ≡ (if known account then Ok tt else Err (NoSuchAccount account)) }
{
    if !is_account(account) {
        return Err(LedgerFault::NoSuchAccount(account));
    }
    Ok(())
}
