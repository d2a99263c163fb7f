// What the book asks of its ledger and posts to it. Written once, over any ledger.

#![tactic(auto)]

ghost use Rattle.std.specs.Prelude.{◌≡◌, ℕ, ◌+◌, ◌-◌, ◌≤◌, true, not, length, is_ok, if◌then◌else◌, None, sum_by, ◌==◌, nat_le};
ghost use Rattle.ledger.specs.Rules.{known, limit};
ghost use Rattle.rules.specs.Records.{offered_amount};
ghost use Rattle.rules.specs.Facts.{to, returned_to};
ghost use Rattle.rules.specs.Judgement.{lowest_holder, levelling, first_without_room};
ghost use Rattle.postings.specs.Offers.{Real};

use ledger::{ACCOUNTS, LIMIT, Ledger};
use registers::total;
use rules::{Offer, RegistryFault, Reply};

// The lowest account that holds something.
pub fn lowest_holder<L: Ledger>(ledger: &L) -> Option<u8>
    ensures { result ≡ lowest_holder (L.Ledger.holding ledger.now) 64 1 }
{
    for account in 1..=ACCOUNTS {
        if holds_some(ledger, account) {
            return Some(account);
        }
    }
    None
}

// Posts the difference between an old level and a new one: a raise is credited, a cut debited, no
// difference posts nothing.
pub fn change_level<L: Ledger>(
    ledger: &mut L,
    account: u8,
    old: u32,
    new: u32,
) -> Result<Reply, RegistryFault>
    ensures answer { result ≡ levelling (L.Ledger.holding ledger.old) (L.Ledger.posts ledger.old) account old new }
    ensures holds { (k : ℕ) → L.Ledger.holding ledger.new k ≡ (if is_ok result then (L.Ledger.holding ledger.old k + to account (new - old) k) - to account (old - new) k else L.Ledger.holding ledger.old k) }
    ensures posts { (L.Ledger.posts ledger.new ≤ L.Ledger.posts ledger.old) × (L.Ledger.posts ledger.old ≤ L.Ledger.posts ledger.new + (if is_ok result then (if new == old then 0 else 1) else 0)) }
{
    if new > old {
        ledger.credit(account, new - old)?;
    } else if new < old {
        ledger.debit(account, old - new)?;
    }
    Ok(Reply::Level(new))
}

// The seller of the first offer for which the ledger might have no room, were every offer to return to that seller.
pub fn first_without_room<L: Ledger>(ledger: &L, offers: &[Offer]) -> Option<u8>
    requires { ∥ Real offers.now ∥₁ }
    ensures { result ≡ first_without_room (L.Ledger.holding ledger.now) (sum_by offered_amount offers.now) offers.now }
{
    let all = total(offers);
    for offer in offers {
        if !has_room(ledger, offer.seller, all) {
            return Some(offer.seller);
        }
    }
    None
}

// Credits each offer to its seller, in their order.
pub fn give_back<L: Ledger>(ledger: &mut L, offers: &[Offer])
    requires real { ∥ Real offers.now ∥₁ }
    requires posts { length offers.now ≤ L.Ledger.posts ledger.old }
    requires room { first_without_room (L.Ledger.holding ledger.old) (sum_by offered_amount offers.now) offers.now ≡ None }
    ensures holds { (k : ℕ) → L.Ledger.holding ledger.new k ≡ L.Ledger.holding ledger.old k + returned_to k offers.now }
    ensures posts { (L.Ledger.posts ledger.new ≤ L.Ledger.posts ledger.old) × (L.Ledger.posts ledger.old ≤ L.Ledger.posts ledger.new + length offers.now) }
{
    for offer in offers {
        let _ = ledger.credit(offer.seller, offer.amount);
    }
}

// Whether an account holds something.
fn holds_some<L: Ledger>(ledger: &L, account: u8) -> bool
    requires { known account ≡ true }
    ensures { result ≡ not (L.Ledger.holding ledger.now account == 0) }
{
    ledger.ask(account).is_ok_and(|held| held != 0)
}

// Whether an account has room for so many guarantees more.
fn has_room<L: Ledger>(ledger: &L, account: u8, more: u128) -> bool
    requires { known account ≡ true }
    ensures { result ≡ nat_le (L.Ledger.holding ledger.now account + more) limit }
{
    ledger
        .ask(account)
        .is_ok_and(|held| more <= u128::from(LIMIT - held))
}
