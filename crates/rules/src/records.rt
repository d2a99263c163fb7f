// The records that the registers keep.
ghost use Rattle.rules.specs.Records.{account_number, entity_number, offer_number, certified_level, offered_amount};

use curves::Method;
use registers::{Amount, Keyed};

// The steps loaded so far, and the sum of what they add.
#[derive(Clone, Copy, PartialEq, Eq, Debug)]
pub struct Series {
    pub loaded: u16,
    pub sum: i64,
}

impl Series {
    // No step yet.
    pub const EMPTY: Series = Series { loaded: 0, sum: 0 };
}

// An open account with its two series.
#[derive(Clone, Copy, PartialEq, Eq, Debug)]
pub struct Account {
    pub number: u8,
    pub profiled: Series,
    pub losses: Series,
}

// A certified entity at its last level, in guarantees.
#[derive(Clone, Copy, PartialEq, Eq, Debug)]
pub struct Entity {
    pub number: u16,
    pub account: u8,
    pub method: Method,
    pub level: u32,
}

// A standing offer, in guarantees.
#[derive(Clone, Copy, PartialEq, Eq, Debug)]
pub struct Offer {
    pub number: u16,
    pub seller: u8,
    pub buyer: u8,
    pub amount: u32,
}

// What a host fills its places with. No place is read before a record is written to it.
impl Account {
    pub const EMPTY: Account = Account {
        number: 0,
        profiled: Series::EMPTY,
        losses: Series::EMPTY,
    };
}

impl Entity {
    pub const EMPTY: Entity = Entity {
        number: 0,
        account: 0,
        method: Method::Dispatchable,
        level: 0,
    };
}

impl Offer {
    pub const EMPTY: Offer = Offer {
        number: 0,
        seller: 0,
        buyer: 0,
        amount: 0,
    };
}

impl Keyed for Account {
    ghost key = { account_number };

    fn number(&self) -> u16 {
        u16::from(self.number)
    }
}

impl Keyed for Entity {
    ghost key = { entity_number };

    fn number(&self) -> u16 {
        self.number
    }
}

impl Amount for Entity {
    ghost worth = { certified_level };

    fn amount(&self) -> u32 {
        self.level
    }
}

impl Keyed for Offer {
    ghost key = { offer_number };

    fn number(&self) -> u16 {
        self.number
    }
}

impl Amount for Offer {
    ghost worth = { offered_amount };

    fn amount(&self) -> u32 {
        self.amount
    }
}
