// The stage of a book, with what the accepted calls have set by then.
ghost use Rattle.std.specs.Prelude.{◌≡◌};
ghost use Rattle.registry.specs.Phases.{stage_of, party_of};

use curves::YearTerms;
use rules::{Offer, Stage};
use settlement::sheet::Prices;

// Begin sets the terms, and settle the prices.
#[derive(Clone, Copy, PartialEq, Eq, Debug)]
pub enum Phase {
    Blank,
    Trading(YearTerms),
    Closed(YearTerms),
    Settled(YearTerms, Prices),
}

impl Phase {
    pub fn stage(self) -> Stage
        ensures { result ≡ stage_of self }
    {
        match self {
            Phase::Blank => Stage::Blank,
            Phase::Trading(_) => Stage::Trading,
            Phase::Closed(_) => Stage::Closed,
            Phase::Settled(_, _) => Stage::Settled,
        }
    }
}

// Who ends an offer: its buyer accepts it, its seller recalls it.
#[derive(Clone, Copy, PartialEq, Eq, Debug)]
pub enum Party {
    Buyer,
    Seller,
}

impl Party {
    pub fn of(self, offer: Offer) -> u8
        ensures { result ≡ party_of self offer }
    {
        match self {
            Party::Buyer => offer.buyer,
            Party::Seller => offer.seller,
        }
    }
}
