// The stages of a delivery year, the eleven calls, and what an accepted call answers.
use curves::{Step, Supply};
use settlement::Settlement;

#[derive(Clone, Copy, PartialEq, Eq, Debug)]
pub enum Stage {
    Blank,
    Trading,
    Closed,
    Settled,
}

// A call with its fields as given, not yet judged: the stage is judged before them, so a method is still a
// number here.
// Prices are in cents, amounts in guarantees.
#[derive(Clone, Copy, PartialEq, Eq, Debug)]
pub enum Call {
    Begin {
        n: u16,
        security: u16,
    },
    Open {
        account: u8,
    },
    Certify {
        entity: u16,
        account: u8,
        method: u8,
        supply: Supply,
    },
    Rebalance {
        entity: u16,
        supply: Supply,
    },
    Offer {
        offer: u16,
        seller: u8,
        buyer: u8,
        amount: u32,
    },
    Accept {
        offer: u16,
        account: u8,
    },
    Recall {
        offer: u16,
        account: u8,
    },
    Load {
        account: u8,
        number: u16,
        step: Step,
    },
    Close,
    Settle {
        shortage: u32,
        surplus: u32,
    },
    Report {
        account: u8,
    },
}

// What an accepted call answers.
#[derive(Clone, Copy, PartialEq, Eq, Debug)]
pub enum Reply {
    Done,
    Level(u32),
    Holding(u32),
    Returned(u16),
    Figures(Settlement),
    Stated(Statement),
}

// An account after settling: guarantees, and the signed amount in cents, negative when owed.
#[derive(Clone, Copy, PartialEq, Eq, Debug)]
pub struct Statement {
    pub holding: u32,
    pub obligation: u32,
    pub gap: i32,
    pub amount: i64,
}
