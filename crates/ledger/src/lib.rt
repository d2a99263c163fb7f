#![tactic(auto)]

ghost use Rattle.std.specs.Prelude.{◌≡◌, ℕ, ◌≤◌};
ghost use Rattle.ledger.specs.Rules.{limit, most_posts, asking, crediting, debiting, held_after, PostsFall};

mod balances;
mod checks;
mod fault;
mod movement;
mod movements;

pub use balances::Balances;
pub use checks::{ACCOUNTS, LIMIT, is_account};
pub use fault::LedgerFault;
pub use movement::{Movement, Side};
pub use movements::Movements;

// What each account from 1 to 64 holds, in guarantees, and how many posts are
// left: that is all that a ledger means, and nothing else tells one ledger
// from another. An accepted post changes the holding of its own account alone,
// and may use up a post. A refused one changes nothing.
//
// The refusals are the book's own, each with its account, checked in this
// order: 4.1 no account from 1 to 64; 4.2 an amount of 0; 4.3 no posts left;
// 4.4 a debit above the holding; 4.5 a credit past 99,999,999.
pub trait Ledger {
    // What each account holds.
    ghost holding: { Self → ℕ → ℕ };

    // The posts left.
    ghost posts: { Self → ℕ };

    // No account holds more than 99,999,999.
    ghost capped: { (s : Self) (k : ℕ) → holding s k ≤ limit };

    // At most 65,535 posts are left.
    ghost few: { (s : Self) → posts s ≤ most_posts };

    // What `account` holds (refusal 4.1).
    fn ask(&self, account: u8) -> Result<u32, LedgerFault>
        ensures { result ≡ asking (holding self.now) account };

    // The posts left.
    fn left(&self) -> u16
        ensures { result ≡ posts self.now };

    // Adds `amount` to what `account` holds, and answers the new holding
    // (refusals 4.1, 4.2, 4.3, 4.5).
    fn credit(&mut self, account: u8, amount: u32) -> Result<u32, LedgerFault>
        ensures answer { result ≡ crediting (holding self.old) (posts self.old) account amount }
        ensures holds { (k : ℕ) → holding self.new k ≡ held_after result account (holding self.old) k }
        ensures posts { PostsFall result (posts self.old) (posts self.new) };

    // Takes `amount` off what `account` holds, and answers the new holding
    // (refusals 4.1, 4.2, 4.3, 4.4).
    fn debit(&mut self, account: u8, amount: u32) -> Result<u32, LedgerFault>
        ensures answer { result ≡ debiting (holding self.old) (posts self.old) account amount }
        ensures holds { (k : ℕ) → holding self.new k ≡ held_after result account (holding self.old) k }
        ensures posts { PostsFall result (posts self.old) (posts self.new) };
}
