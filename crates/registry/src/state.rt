// The state of a book: its phase, and three registers in places that are lent to it.
ghost use Rattle.std.specs.Prelude.{◌≡◌};
ghost use Rattle.registers.specs.Held.{rows, room};
ghost use Rattle.postings.specs.Offers.{Real};
ghost use Rattle.accounts.specs.Bounds.{Kept};
ghost use Rattle.registry.specs.Phases.{half_hours_of};

use crate::phase::Phase;
use registers::Register;
use rules::{Account, Entity, Offer};

#[derive(Drop)]
pub struct Book<'a> {
    pub(crate) phase: Phase,
    pub(crate) accounts: Register<'a, Account>,
    pub(crate) entities: Register<'a, Entity>,
    pub(crate) offers: Register<'a, Offer>,
    ghost account_places: { room accounts ≡ 64 },
    ghost entity_places: { room entities ≡ 64 },
    ghost offer_places: { room offers ≡ 32 },
    ghost kept: { ∥ Kept (half_hours_of phase) (rows accounts) ∥₁ },
    ghost real: { ∥ Real (rows offers) ∥₁ },
}
