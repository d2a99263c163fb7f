// Why a line is refused, and what its answer line says of it.
ghost use Rattle.std.specs.Prelude.{◌≡◌};
ghost use Rattle.frames.specs.declared.fault.LineFault.TheVariants.{Registry as OfRegistry};
ghost use Rattle.frames.specs.Faults.{line_refusal};

use rules::{Refusal, RegistryFault};

// The refusals of lines (layer 1) and of frames (layer 2), and the registry's inside.
#[derive(Clone, Copy, PartialEq, Eq, Debug)]
pub enum LineFault {
    // Over 64 characters.
    TooLong,
    // The index of the first character that is no digit.
    WrongCharacter(u8),
    // The count of characters.
    OddCount(u8),
    NoBytes,
    // The kind byte.
    UnknownKind(u8),
    // The count of bytes found.
    WrongLength(u8),
    // The working space or the answer space is too small.
    NoSpace,
    Registry(RegistryFault),
}

impl From<LineFault> for Refusal {
    ghost from_gives = { λ e r. r ≡ line_refusal e };

    fn from(fault: LineFault) -> Refusal {
        let (layer, number, place) = match fault {
            LineFault::TooLong => (1, 1, 64),
            LineFault::WrongCharacter(index) => (1, 2, u16::from(index)),
            LineFault::OddCount(count) => (1, 3, u16::from(count)),
            LineFault::NoBytes => (2, 1, 0),
            LineFault::UnknownKind(kind) => (2, 2, u16::from(kind)),
            LineFault::WrongLength(found) => (2, 3, u16::from(found)),
            LineFault::NoSpace => (2, 4, 0),
            LineFault::Registry(inner) => return Refusal::from(inner),
        };
        Refusal {
            layer,
            number,
            place,
        }
    }
}

impl From<RegistryFault> for LineFault {
    ghost from_gives = { λ e r. r ≡ OfRegistry e };

    fn from(fault: RegistryFault) -> LineFault {
        LineFault::Registry(fault)
    }
}
