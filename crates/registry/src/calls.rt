// The one way in: every call of the book.
ghost use Rattle.std.specs.Prelude.{ℕ};
ghost use Rattle.rules.specs.Calls.{Called};
ghost use Rattle.law.specs.Law.{Past};
ghost use Rattle.law.specs.Told.{Told, LawfulNext, event};
ghost use Rattle.registry.specs.Model.{year_in};

use crate::phase::{Party, Phase};
use crate::state::Book;
use ledger::Ledger;
use rules::{Call, RegistryFault, Reply};

impl<'a> Book<'a> {
    // Makes a call on the book and its ledger. Whatever history they stand beside, it goes on with this
    // call, and the law holds.
    pub fn call<L: Ledger>(&mut self, ledger: &mut L, call: Call) -> Result<Reply, RegistryFault>
        ensures called { Called call result (year_in self.old) (year_in self.new) (L.Ledger.holding ledger.old) (L.Ledger.holding ledger.new) (L.Ledger.posts ledger.old) (L.Ledger.posts ledger.new) }
        ensures law { (start : ℕ → ℕ) (p : Past) → Told start p (year_in self.old) (L.Ledger.holding ledger.old) (L.Ledger.posts ledger.old) → LawfulNext start (event (L.Ledger.posts ledger.old) call result) p (year_in self.new) (L.Ledger.holding ledger.new) (L.Ledger.posts ledger.new) }
    {
        self.in_stage(ledger, call)
    }

    // Judges the stage first, in one match on stage and call, the form that the project asks for: the call
    // that the stage allows changes the state in place, any other is refused.
    fn in_stage<L: Ledger>(&mut self, ledger: &mut L, call: Call) -> Result<Reply, RegistryFault>
        ensures { Called call result (year_in self.old) (year_in self.new) (L.Ledger.holding ledger.old) (L.Ledger.holding ledger.new) (L.Ledger.posts ledger.old) (L.Ledger.posts ledger.new) }
    {
        match (self.phase, call) {
            (Phase::Blank, Call::Begin { n, security }) => self.begin(ledger, n, security),
            (Phase::Trading(_), Call::Open { account }) => self.open(account),
            (
                Phase::Trading(_),
                Call::Certify {
                    entity,
                    account,
                    method,
                    supply,
                },
            ) => self.certify(ledger, entity, account, method, supply),
            (Phase::Trading(_), Call::Rebalance { entity, supply }) => {
                self.rebalance(ledger, entity, supply)
            }
            (
                Phase::Trading(_),
                Call::Offer {
                    offer,
                    seller,
                    buyer,
                    amount,
                },
            ) => self.offer(ledger, offer, seller, buyer, amount),
            (Phase::Trading(_), Call::Accept { offer, account }) => {
                self.end(ledger, Party::Buyer, offer, account)
            }
            (Phase::Trading(_), Call::Recall { offer, account }) => {
                self.end(ledger, Party::Seller, offer, account)
            }
            // Two arms: one over both stages was tried, and the borrow check has no rule for it.
            (
                Phase::Trading(terms),
                Call::Load {
                    account,
                    number,
                    step,
                },
            ) => self.load(terms, account, number, step),
            (
                Phase::Closed(terms),
                Call::Load {
                    account,
                    number,
                    step,
                },
            ) => self.load(terms, account, number, step),
            (Phase::Trading(terms), Call::Close) => self.close(ledger, terms),
            (Phase::Closed(terms), Call::Settle { shortage, surplus }) => {
                self.settle(ledger, terms, shortage, surplus)
            }
            (Phase::Settled(terms, prices), Call::Report { account }) => {
                self.report(ledger, terms, prices, account)
            }
            _ => Err(RegistryFault::WrongStage),
        }
    }
}
