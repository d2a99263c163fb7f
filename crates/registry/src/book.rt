// A new book, and the calls by their names. What a call promises, it promises in the stage that it needs.
// What a phase holds is handed over by `in_stage`, which has matched it.
ghost use Rattle.std.specs.Prelude.{◌≡◌, ℕ, sum_by};
ghost use Rattle.rules.specs.Records.{certified_level, offered_amount};
ghost use Rattle.std.specs.Option.{ok_or};
ghost use Rattle.rules.specs.Year.{blank_year, account_in, is_open};
ghost use Rattle.rules.specs.Facts.{new_account};
ghost use Rattle.rules.specs.Calls.{Called};
ghost use Rattle.registry.specs.Phases.{half_hours_of, ending_call};
ghost use Rattle.registry.specs.Model.{year_in, CalledInStage};

use crate::phase::{Party, Phase};
use crate::ranges::{
    account_in_range, certify_in_range, ending_in_range, offer_in_range, prices_in_range,
    rebalance_in_range,
};
use crate::state::Book;
use accounts::{OpenAccounts, first_incomplete, load_in_range, with_step};
use curves::{Step, Supply, YearTerms};
use ledger::{ACCOUNTS, Ledger, LedgerFault};
use postings::{change_level, first_without_room, give_back, lowest_holder};
use registers::{Register, total};
use rules::{Account, Call, Entity, Offer, RegistryFault, Reply, Stage};
use settlement::sheet::Prices;

// The places of the register of entities.
pub const ENTITIES: usize = 64;
// The places of the register of offers.
pub const OFFERS: usize = 32;

impl<'a> Book<'a> {
    // A blank book, without records, in the places that are lent to it.
    pub fn new(
        accounts: &'a mut [Account; ACCOUNTS as usize],
        entities: &'a mut [Entity; ENTITIES],
        offers: &'a mut [Offer; OFFERS],
    ) -> Book<'a>
        ensures { year_in result ≡ blank_year }
    {
        let accounts = Register::new(accounts);
        let entities = Register::new(entities);
        let offers = Register::new(offers);
        Book {
            phase: Phase::Blank,
            accounts,
            entities,
            offers,
        }
    }

    pub fn stage(&self) -> Stage
        ensures { result ≡ (year_in self.now).stage }
    {
        self.phase.stage()
    }

    // The levels of all entities together: by the law, the guarantees on all accounts and under all offers.
    pub fn certified(&self) -> u128
        ensures { result ≡ sum_by certified_level (year_in self.now).entities }
    {
        total(self.entities.records())
    }

    // The guarantees under standing offers.
    pub fn offered(&self) -> u128
        ensures { result ≡ sum_by offered_amount (year_in self.now).offers }
    {
        total(self.offers.records())
    }

    // Starts trading, over a ledger that holds nothing.
    pub(crate) fn begin<L: Ledger>(
        &mut self,
        ledger: &L,
        n: u16,
        security: u16,
    ) -> Result<Reply, RegistryFault>
        requires { self.old.phase ≡ Phase.Blank }
        ensures { Called (Call.Begin n security) result (year_in self.old) (year_in self.new) (L.Ledger.holding ledger.now) (L.Ledger.holding ledger.now) (L.Ledger.posts ledger.now) (L.Ledger.posts ledger.now) }
    {
        let terms = YearTerms::new(n, security)?;
        if let Some(account) = lowest_holder(ledger) {
            return Err(RegistryFault::NotEmpty { account });
        }
        self.phase = Phase::Trading(terms);
        Ok(Reply::Done)
    }

    pub(crate) fn open(&mut self, account: u8) -> Result<Reply, RegistryFault>
        ensures { (f : ℕ → ℕ) (m : ℕ) → CalledInStage (Call.Open account) result (year_in self.old) (year_in self.new) f f m m }
    {
        account_in_range(account, 1)?;
        self.accounts.insert(new_account(account))?;
        Ok(Reply::Done)
    }

    // The fields are as the call has them: the method is a number, since it is judged third.
    pub(crate) fn certify<L: Ledger>(
        &mut self,
        ledger: &mut L,
        entity: u16,
        account: u8,
        method: u8,
        supply: Supply,
    ) -> Result<Reply, RegistryFault>
        ensures { CalledInStage (Call.Certify entity account method supply) result (year_in self.old) (year_in self.new) (L.Ledger.holding ledger.old) (L.Ledger.holding ledger.new) (L.Ledger.posts ledger.old) (L.Ledger.posts ledger.new) }
    {
        let method = certify_in_range(entity, account, method, supply)?;
        let level = method.level(supply);
        if !self.is_open(account) {
            return Err(RegistryFault::NotOpen { field: 2 });
        }
        if self.entities.contains(entity) {
            return Err(RegistryFault::InUse { field: 1 });
        }
        if self.entities.len() >= ENTITIES {
            return Err(RegistryFault::RegisterFull);
        }
        let reply = change_level(ledger, account, 0, level)?;
        let _ = self.entities.insert(Entity {
            number: entity,
            account,
            method,
            level,
        });
        Ok(reply)
    }

    // Works the level out again by the entity's own method.
    pub(crate) fn rebalance<L: Ledger>(
        &mut self,
        ledger: &mut L,
        entity: u16,
        supply: Supply,
    ) -> Result<Reply, RegistryFault>
        ensures { CalledInStage (Call.Rebalance entity supply) result (year_in self.old) (year_in self.new) (L.Ledger.holding ledger.old) (L.Ledger.holding ledger.new) (L.Ledger.posts ledger.old) (L.Ledger.posts ledger.new) }
    {
        rebalance_in_range(entity, supply)?;
        let found = self
            .entities
            .find(entity)
            .ok_or(RegistryFault::Unknown { field: 1 })?;
        let level = found.method.level(supply);
        let reply = change_level(ledger, found.account, found.level, level)?;
        let _ = self.entities.replace(Entity { level, ..found });
        Ok(reply)
    }

    pub(crate) fn offer<L: Ledger>(
        &mut self,
        ledger: &mut L,
        offer: u16,
        seller: u8,
        buyer: u8,
        amount: u32,
    ) -> Result<Reply, RegistryFault>
        ensures { CalledInStage (Call.Offer offer seller buyer amount) result (year_in self.old) (year_in self.new) (L.Ledger.holding ledger.old) (L.Ledger.holding ledger.new) (L.Ledger.posts ledger.old) (L.Ledger.posts ledger.new) }
    {
        offer_in_range(offer, seller, buyer, amount)?;
        if !self.is_open(seller) {
            return Err(RegistryFault::NotOpen { field: 2 });
        }
        if !self.is_open(buyer) {
            return Err(RegistryFault::NotOpen { field: 3 });
        }
        if seller == buyer {
            return Err(RegistryFault::WrongParty { field: 3 });
        }
        if self.offers.contains(offer) {
            return Err(RegistryFault::InUse { field: 1 });
        }
        if self.offers.len() >= OFFERS {
            return Err(RegistryFault::RegisterFull);
        }
        let holding = ledger.debit(seller, amount)?;
        let _ = self.offers.insert(Offer {
            number: offer,
            seller,
            buyer,
            amount,
        });
        Ok(Reply::Holding(holding))
    }

    // Ends an offer for one of its parties, if that is the account that asks: the buyer accepts, the seller recalls.
    pub(crate) fn end<L: Ledger>(
        &mut self,
        ledger: &mut L,
        party: Party,
        offer: u16,
        account: u8,
    ) -> Result<Reply, RegistryFault>
        ensures { CalledInStage (ending_call party offer account) result (year_in self.old) (year_in self.new) (L.Ledger.holding ledger.old) (L.Ledger.holding ledger.new) (L.Ledger.posts ledger.old) (L.Ledger.posts ledger.new) }
    {
        ending_in_range(offer, account)?;
        let found = self
            .offers
            .find(offer)
            .ok_or(RegistryFault::Unknown { field: 1 })?;
        if account != party.of(found) {
            return Err(RegistryFault::WrongParty { field: 2 });
        }
        let holding = ledger.credit(account, found.amount)?;
        let _ = self.offers.remove(found.number);
        Ok(Reply::Holding(holding))
    }

    // Adds a step to one of the account's two series.
    pub(crate) fn load(
        &mut self,
        terms: YearTerms,
        account: u8,
        number: u16,
        step: Step,
    ) -> Result<Reply, RegistryFault>
        requires { half_hours_of self.old.phase ≡ terms.n }
        ensures { (f : ℕ → ℕ) (m : ℕ) → CalledInStage (Call.Load account number step) result (year_in self.old) (year_in self.new) f f m m }
    {
        let addition = load_in_range(terms.n, account, number, step)?;
        let found = self.account(account)?;
        let grown = with_step(found, number, addition)?;
        let _ = self.accounts.replace(grown);
        Ok(Reply::Done)
    }

    // Returns every offer to its seller, the lowest number first.
    pub(crate) fn close<L: Ledger>(
        &mut self,
        ledger: &mut L,
        terms: YearTerms,
    ) -> Result<Reply, RegistryFault>
        requires { self.old.phase ≡ Phase.Trading terms }
        ensures { Called (Call.Close) result (year_in self.old) (year_in self.new) (L.Ledger.holding ledger.old) (L.Ledger.holding ledger.new) (L.Ledger.posts ledger.old) (L.Ledger.posts ledger.new) }
    {
        let count = self.offers.len();
        if usize::from(ledger.left()) < count {
            return Err(RegistryFault::PostsShort);
        }
        if let Some(account) = first_without_room(ledger, self.offers.records()) {
            return Err(RegistryFault::Ledger(LedgerFault::PastLimit(account)));
        }
        give_back(ledger, self.offers.records());
        self.offers.clear();
        self.phase = Phase::Closed(terms);
        Ok(Reply::Returned(count as u16))
    }

    // Works out the settlement at two prices, and keeps the prices.
    pub(crate) fn settle<L: Ledger>(
        &mut self,
        ledger: &L,
        terms: YearTerms,
        shortage: u32,
        surplus: u32,
    ) -> Result<Reply, RegistryFault>
        requires { self.old.phase ≡ Phase.Closed terms }
        ensures { Called (Call.Settle shortage surplus) result (year_in self.old) (year_in self.new) (L.Ledger.holding ledger.now) (L.Ledger.holding ledger.now) (L.Ledger.posts ledger.now) (L.Ledger.posts ledger.now) }
    {
        let prices = prices_in_range(shortage, surplus)?;
        let accounts = self.accounts.records();
        if let Some(account) = first_incomplete(accounts, terms.n) {
            return Err(RegistryFault::Incomplete { account });
        }
        let figures = OpenAccounts { accounts, terms }.settlement(ledger, prices);
        self.phase = Phase::Settled(terms, prices);
        Ok(Reply::Figures(figures))
    }

    pub(crate) fn report<L: Ledger>(
        &self,
        ledger: &L,
        terms: YearTerms,
        prices: Prices,
        account: u8,
    ) -> Result<Reply, RegistryFault>
        requires { self.now.phase ≡ Phase.Settled terms prices }
        ensures { Called (Call.Report account) result (year_in self.now) (year_in self.now) (L.Ledger.holding ledger.now) (L.Ledger.holding ledger.now) (L.Ledger.posts ledger.now) (L.Ledger.posts ledger.now) }
    {
        account_in_range(account, 1)?;
        let found = self.account(account)?;
        let accounts = OpenAccounts {
            accounts: self.accounts.records(),
            terms,
        };
        Ok(Reply::Stated(accounts.statement(ledger, found, prices)))
    }

    // The record of an open account, which stands first in the calls that ask for it.
    fn account(&self, account: u8) -> Result<Account, RegistryFault>
        ensures { result ≡ ok_or (account_in (year_in self.now) account) (RegistryFault.NotOpen 1) }
    {
        self.accounts
            .find(u16::from(account))
            .ok_or(RegistryFault::NotOpen { field: 1 })
    }

    // Whether an account is open.
    fn is_open(&self, account: u8) -> bool
        ensures { result ≡ is_open (year_in self.now) account }
    {
        self.accounts.contains(u16::from(account))
    }
}

// An account without steps.
fn new_account(number: u8) -> Account
    ensures { result ≡ new_account number }
{
    Account {
        number,
        ..Account::EMPTY
    }
}
