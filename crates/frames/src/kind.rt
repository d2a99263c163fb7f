// The kinds of calls, by the byte that begins a frame.
ghost use Rattle.std.specs.Prelude.{◌≡◌, ◌≤◌};
ghost use Rattle.frames.specs.Kinds.{kind_read, kind_of};
ghost use Rattle.frames.specs.Frames.{frame_length, supply_written, step_written, call_written};

use crate::fault::LineFault;
use curves::{Step, Supply};
use digits::numbers::field_at;
use rules::Call;

// In the order of their bytes, which begin at 0.
#[derive(Clone, Copy, PartialEq, Eq, Debug)]
pub enum Kind {
    Begin,
    Open,
    Certify,
    Rebalance,
    Offer,
    Accept,
    Recall,
    Load,
    Close,
    Settle,
    Report,
}

impl TryFrom<u8> for Kind {
    type Error = LineFault;

    ghost try_from_gives = { λ byte r. r ≡ kind_read byte };

    fn try_from(byte: u8) -> Result<Kind, LineFault> {
        match byte {
            0 => Ok(Kind::Begin),
            1 => Ok(Kind::Open),
            2 => Ok(Kind::Certify),
            3 => Ok(Kind::Rebalance),
            4 => Ok(Kind::Offer),
            5 => Ok(Kind::Accept),
            6 => Ok(Kind::Recall),
            7 => Ok(Kind::Load),
            8 => Ok(Kind::Close),
            9 => Ok(Kind::Settle),
            10 => Ok(Kind::Report),
            _ => Err(LineFault::UnknownKind(byte)),
        }
    }
}

impl From<Call> for Kind {
    ghost from_gives = { λ call kind. kind ≡ kind_of call };

    fn from(call: Call) -> Kind {
        match call {
            Call::Begin { .. } => Kind::Begin,
            Call::Open { .. } => Kind::Open,
            Call::Certify { .. } => Kind::Certify,
            Call::Rebalance { .. } => Kind::Rebalance,
            Call::Offer { .. } => Kind::Offer,
            Call::Accept { .. } => Kind::Accept,
            Call::Recall { .. } => Kind::Recall,
            Call::Load { .. } => Kind::Load,
            Call::Close => Kind::Close,
            Call::Settle { .. } => Kind::Settle,
            Call::Report { .. } => Kind::Report,
        }
    }
}

impl Kind {
    // How many bytes a frame of the kind has, the kind byte counted.
    pub fn frame_length(self) -> usize
        ensures { result ≡ frame_length self }
    {
        match self {
            Kind::Begin => 5,
            Kind::Open => 2,
            Kind::Certify => 12,
            Kind::Rebalance => 10,
            Kind::Offer => 9,
            Kind::Accept | Kind::Recall => 4,
            Kind::Load => 23,
            Kind::Close => 1,
            Kind::Settle => 9,
            Kind::Report => 2,
        }
    }

    // The call of the kind, each field at its place.
    pub fn call(self, frame: &[u8]) -> Call
        ensures { result ≡ call_written self frame.now }
    {
        match self {
            Kind::Begin => Call::Begin {
                n: field_at(frame, 1),
                security: field_at(frame, 3),
            },
            Kind::Open => Call::Open {
                account: field_at(frame, 1),
            },
            Kind::Certify => Call::Certify {
                entity: field_at(frame, 1),
                account: field_at(frame, 3),
                method: field_at(frame, 4),
                supply: supply_at(frame, 5),
            },
            Kind::Rebalance => Call::Rebalance {
                entity: field_at(frame, 1),
                supply: supply_at(frame, 3),
            },
            Kind::Offer => Call::Offer {
                offer: field_at(frame, 1),
                seller: field_at(frame, 3),
                buyer: field_at(frame, 4),
                amount: field_at(frame, 5),
            },
            Kind::Accept => Call::Accept {
                offer: field_at(frame, 1),
                account: field_at(frame, 3),
            },
            Kind::Recall => Call::Recall {
                offer: field_at(frame, 1),
                account: field_at(frame, 3),
            },
            Kind::Load => Call::Load {
                account: field_at(frame, 1),
                number: field_at(frame, 3),
                step: step_of_load(frame),
            },
            Kind::Close => Call::Close,
            Kind::Settle => Call::Settle {
                shortage: field_at(frame, 1),
                surplus: field_at(frame, 5),
            },
            Kind::Report => Call::Report {
                account: field_at(frame, 1),
            },
        }
    }
}

// The fields of a supply, one after another.
fn supply_at(frame: &[u8], at: usize) -> Supply
    requires { at ≤ 5 }
    ensures { result ≡ supply_written at frame.now }
{
    Supply {
        power: field_at(frame, at),
        hours: field_at(frame, at + 4),
        days: field_at(frame, at + 5),
    }
}

// The sort of a step stands before the step's number, and its readings behind it.
fn step_of_load(frame: &[u8]) -> Step
    ensures { result ≡ step_written frame.now }
{
    Step {
        sort: field_at(frame, 2),
        metered: field_at(frame, 5),
        shed: field_at(frame, 9),
        gradient: field_at(frame, 13),
        coefficient: field_at(frame, 17),
        real: field_at(frame, 19),
        extreme: field_at(frame, 21),
    }
}
