// Why a call is refused, and what the answer line says of it.
ghost use Rattle.std.specs.Prelude.{◌≡◌};
ghost use Rattle.rules.specs.declared.faults.RegistryFault.TheVariants.{OutOfRange as FieldOutOfRange, Ledger as OfLedger};
ghost use Rattle.rules.specs.Refusals.{refusal_of, of_the_book, of_the_register};

use curves::OutOfRange;
use ledger::LedgerFault;
use refusals::Refusal;
use registers::RegisterFault;

// The refusals of the book's own layer, and the ledger's inside.
// A `field` is the place of the field to blame, counted from 1.
#[derive(Clone, Copy, PartialEq, Eq, Debug)]
pub enum RegistryFault {
    WrongStage,
    OutOfRange { field: u8 },
    NotOpen { field: u8 },
    InUse { field: u8 },
    Unknown { field: u8 },
    RegisterFull,
    WrongParty { field: u8 },
    OutOfTurn { field: u8 },
    Incomplete { account: u8 },
    PostsShort,
    NotEmpty { account: u8 },
    Ledger(LedgerFault),
}

impl From<RegistryFault> for Refusal {
    ghost from_gives = { λ e r. r ≡ refusal_of e };

    fn from(fault: RegistryFault) -> Refusal {
        match fault {
            RegistryFault::WrongStage => of_the_book(1, 0),
            RegistryFault::OutOfRange { field } => of_the_book(2, field),
            RegistryFault::NotOpen { field } => of_the_book(3, field),
            RegistryFault::InUse { field } => of_the_book(4, field),
            RegistryFault::Unknown { field } => of_the_book(5, field),
            RegistryFault::RegisterFull => of_the_book(6, 0),
            RegistryFault::WrongParty { field } => of_the_book(7, field),
            RegistryFault::OutOfTurn { field } => of_the_book(8, field),
            RegistryFault::Incomplete { account } => of_the_book(9, account),
            RegistryFault::PostsShort => of_the_book(10, 0),
            RegistryFault::NotEmpty { account } => of_the_book(11, account),
            RegistryFault::Ledger(inner) => Refusal::from(inner),
        }
    }
}

// A refusal of the book's own layer.
fn of_the_book(number: u8, place: u8) -> Refusal
    ensures { result ≡ of_the_book number place }
{
    Refusal {
        layer: 3,
        number,
        place: u16::from(place),
    }
}

impl From<OutOfRange> for RegistryFault {
    ghost from_gives = { λ e r. r ≡ FieldOutOfRange e.field };

    fn from(fault: OutOfRange) -> RegistryFault {
        RegistryFault::OutOfRange { field: fault.field }
    }
}

impl From<LedgerFault> for RegistryFault {
    ghost from_gives = { λ e r. r ≡ OfLedger e };

    fn from(fault: LedgerFault) -> RegistryFault {
        RegistryFault::Ledger(fault)
    }
}

impl From<RegisterFault> for RegistryFault {
    ghost from_gives = { λ e r. r ≡ of_the_register e };

    // The number of a record stands first in each call that enters one.
    fn from(fault: RegisterFault) -> RegistryFault {
        match fault {
            RegisterFault::InUse => RegistryFault::InUse { field: 1 },
            RegisterFault::Full => RegistryFault::RegisterFull,
        }
    }
}
