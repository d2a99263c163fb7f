ghost use Rattle.std.specs.Prelude.{◌≡◌, ℕ, ◌+◌, min, length};
ghost use Rattle.std.proofs.Common.{arith};
ghost use Rattle.ledger.specs.Rules.{most_posts, posting, crediting, debiting, held_after, PostsFall};
ghost use Rattle.ledger.specs.Holdings.{answered};
ghost use Rattle.ledger.specs.Meaning.{movements_holding, movements_left, places_used};

use super::Movements;
use crate::checks::{MOST_POSTS, known_account};
use crate::{Ledger, LedgerFault, Movement, Side};
use places::Places;

impl<'a> Movements<'a> {
    // No movement yet, and a post for each place.
    pub fn new(places: &'a mut [Movement]) -> Movements<'a>
        ensures holds { (k : ℕ) → movements_holding result k ≡ 0 }
        ensures posts { movements_left result ≡ min (length places.old) most_posts }
        ensures unchanged { result.posts.lent.now ≡ places.old }
        ensures lent { result.posts.lent.ghost_name ≡ places.entry.ghost_name }
    {
        Movements {
            posts: Places::new(places),
        }
    }

    // Keeps the movement, and answers what its account holds then.
    fn post(&mut self, movement: Movement) -> Result<u32, LedgerFault>
        ensures answer { result ≡ posting (movements_left self.old) movement.account movement.amount (answered movement (movements_holding self.old movement.account)) }
        ensures holds { (k : ℕ) → movements_holding self.new k ≡ held_after result movement.account (movements_holding self.old) k }
        ensures after { movements_left self.new + places_used result ≡ movements_left self.old }
    {
        movement.postable(self.left())?;
        let new = movement.posted(self.held(movement.account))?;
        self.posts.push(movement);
        Ok(new)
    }

    // What `account` holds, by one pass over the movements.
    fn held(&self, account: u8) -> u32
        ensures { result ≡ movements_holding self.now account }
    {
        self.posts
            .as_slice()
            .iter()
            .fold(0, |held, movement| movement.applied(account, held))
    }
}

// The trait's clauses stand here again, since an impl's own take the place of
// them all. A ledger has two calls for the two sides.
impl Ledger for Movements<'_> {
    ghost holding = { movements_holding };

    ghost posts = { movements_left };

    ghost capped = { λ s k. s.capped k };

    ghost few = { λ s. omega arith };

    fn ask(&self, account: u8) -> Result<u32, LedgerFault> {
        known_account(account)?;
        Ok(self.held(account))
    }

    fn left(&self) -> u16 {
        (self.posts.capacity().min(usize::from(MOST_POSTS)) - self.posts.len()) as u16
    }

    fn credit(&mut self, account: u8, amount: u32) -> Result<u32, LedgerFault>
        ensures answer { result ≡ crediting (movements_holding self.old) (movements_left self.old) account amount }
        ensures holds { (k : ℕ) → movements_holding self.new k ≡ held_after result account (movements_holding self.old) k }
        ensures posts { PostsFall result (movements_left self.old) (movements_left self.new) }
        ensures after { movements_left self.new + places_used result ≡ movements_left self.old }
    {
        self.post(Movement {
            account,
            amount,
            side: Side::Credit,
        })
    }

    fn debit(&mut self, account: u8, amount: u32) -> Result<u32, LedgerFault>
        ensures answer { result ≡ debiting (movements_holding self.old) (movements_left self.old) account amount }
        ensures holds { (k : ℕ) → movements_holding self.new k ≡ held_after result account (movements_holding self.old) k }
        ensures posts { PostsFall result (movements_left self.old) (movements_left self.new) }
        ensures after { movements_left self.new + places_used result ≡ movements_left self.old }
    {
        self.post(Movement {
            account,
            amount,
            side: Side::Debit,
        })
    }
}
