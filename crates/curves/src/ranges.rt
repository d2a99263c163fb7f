// Refusals of fields that are out of range.
ghost use Rattle.std.specs.Prelude.{◌≡◌, ◌+◌, ◌<◌, [], ◌∷◌};
ghost use Rattle.curves.specs.Ranges.{judged};

// The highest power, in kW (the book's own).
pub(crate) const MOST_POWER: u32 = 99_999_999;

// The place, counted from 1 in the fields given, of the first that is out of range.
#[derive(Clone, Copy, PartialEq, Eq, Debug)]
pub struct OutOfRange {
    // A number and no enum of fields: each call has others, and one walk judges them all by their place.
    pub field: u8,
}

impl OutOfRange {
    // The same fault in a call where these fields stand so many places later.
    pub fn later(self, places: u8) -> OutOfRange
        requires { self.field + places < 256 }
        ensures { result.field ≡ self.field + places }
    {
        OutOfRange {
            field: self.field + places,
        }
    }
}

// Refuses a field by its place unless it is fine.
pub fn judge(field: u8, fine: bool) -> Result<(), OutOfRange>
    ensures { result ≡ judged field (fine ∷ []) tt }
{
    if fine {
        Ok(())
    } else {
        Err(OutOfRange { field })
    }
}
