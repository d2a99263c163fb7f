// Why a call of a sheet is refused.
ghost use Rattle.std.specs.Prelude.{◌≡◌};
ghost use Rattle.settlement.specs.Faults.{sheet_refusal};

use refusals::Refusal;

#[derive(Clone, Copy, PartialEq, Eq, Debug)]
pub enum SheetFault {
    // The field of the price, 1 for shortages or 2 for surpluses: a number, as an answer line has it.
    PriceOutOfRange(u8),
    GapOutOfRange,
    Full,
    NotLeft,
}

impl From<SheetFault> for Refusal {
    ghost from_gives = { λ fault refusal. refusal ≡ sheet_refusal fault };

    fn from(fault: SheetFault) -> Refusal {
        let (number, place) = match fault {
            SheetFault::PriceOutOfRange(field) => (1, u16::from(field)),
            SheetFault::GapOutOfRange => (2, 0),
            SheetFault::Full => (3, 0),
            SheetFault::NotLeft => (4, 0),
        };
        Refusal {
            layer: 5,
            number,
            place,
        }
    }
}
