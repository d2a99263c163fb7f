// Registers of numbered records: accounts, entities, offers, or any other kind.

#![tactic(auto)]

ghost use Rattle.std.specs.Prelude.{◌≡◌, ℕ};
ghost use Rattle.places.specs.Held.{items};
ghost use Rattle.registers.specs.Rows.{Rising};

use places::Places;

mod laws;
mod methods;
mod totals;

pub use laws::{
    adds_up_after_each_change, changes_one_number_only, exchanges_exactly_the_replaced_record,
    finds_exactly_its_records, gains_exactly_the_new_record, has_a_place_for_each_number,
    has_one_order_only, loses_exactly_the_removed_record, uses_a_freed_place_again,
};
pub use totals::total;

// A record with a number of its own.
pub trait Keyed: Copy {
    ghost key: { Self → ℕ };

    fn number(&self) -> u16
        ensures { result ≡ key self.now };
}

// A numbered record with an amount: only such records have a total.
pub trait Amount: Keyed {
    ghost worth: { Self → ℕ };

    fn amount(&self) -> u32
        ensures { result ≡ worth self.now };
}

// Why a record is not taken in.
#[derive(Clone, Copy, PartialEq, Eq, Debug)]
pub enum RegisterFault {
    InUse,
    Full,
}

// The records stand in lent places.
#[derive(Drop)]
pub struct Register<'a, R: Keyed> {
    places: Places<'a, R>,
    // Their numbers rise strictly.
    ghost rising: { ∥ Rising R.key (items places) ∥₁ },
}
