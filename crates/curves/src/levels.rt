// Certified levels, in guarantees.
ghost use Rattle.std.specs.Prelude.{◌≡◌, ◌≤◌};
ghost use Rattle.curves.specs.Levels.{guarantees, level_of, method_numbered, shares, supply_judged};

use crate::coefficients::{kh, kj};
use crate::ranges::{MOST_POWER, OutOfRange, judge};
use crate::rounding::rounded;

// A guarantee is 0.1 MW, to which levels are rounded (6.3.1.2, 6.3.2.3.1, 6.3.2.3.2).
pub(crate) const KW_PER_GUARANTEE: u64 = 100;

// What run-of-river, wind and solar power count, in percent (6.1.5.2).
const HYDRAULIC_PERCENT: u64 = 85;

const WIND_PERCENT: u64 = 70;

const SOLAR_PERCENT: u64 = 25;

// All of it, in percent.
const WHOLE: u64 = 100;

// A level counts kW by percents of percents.
const SHARES_PER_GUARANTEE: u64 = KW_PER_GUARANTEE * WHOLE * WHOLE;

// The hours of a day, in tenths (the book's own).
const MOST_HOURS: u8 = 240;

// The days of a week, in hundredths (the book's own).
const MOST_DAYS: u16 = 700;

// How a level follows from a power.
#[derive(Clone, Copy, PartialEq, Eq, Debug)]
pub enum Method {
    // By hours and days (6.3.1.2).
    Dispatchable,
    // Run-of-river (6.3.2.3.1).
    Hydraulic,
    // (6.3.2.3.2)
    Wind,
    // (6.3.2.4)
    Solar,
}

// What a level follows from beside the method, with its fields as given and not yet judged.
#[derive(Clone, Copy, PartialEq, Eq, Debug)]
pub struct Supply {
    // In kW.
    pub power: u32,
    // In tenths.
    pub hours: u8,
    // In hundredths.
    pub days: u16,
}

impl TryFrom<u8> for Method {
    type Error = OutOfRange;

    ghost try_from_gives = { λ number r. r ≡ method_numbered number };

    // Methods have the numbers 1 to 4 (the book's own).
    fn try_from(number: u8) -> Result<Method, OutOfRange> {
        match number {
            1 => Ok(Method::Dispatchable),
            2 => Ok(Method::Hydraulic),
            3 => Ok(Method::Wind),
            4 => Ok(Method::Solar),
            _ => Err(OutOfRange { field: 1 }),
        }
    }
}

impl Method {
    // The level of a supply; its hours and days count for dispatchable power alone.
    #[tactic(auto, unfolding(crate::specs::Levels::guarantees))]
    pub fn level(self, supply: Supply) -> u32
        ensures { result ≡ guarantees self supply }
    {
        rounded(
            u64::from(supply.power) * self.share(supply),
            SHARES_PER_GUARANTEE,
        ) as u32
    }

    // What the method counts of a power, in hundredths of a percent.
    fn share(self, supply: Supply) -> u64
        ensures answer { result ≡ shares self supply }
        ensures bound { result ≤ 10000 }
    {
        match self {
            Method::Dispatchable => u64::from(kj(supply.hours)) * u64::from(kh(supply.days)),
            Method::Hydraulic => HYDRAULIC_PERCENT * WHOLE,
            Method::Wind => WIND_PERCENT * WHOLE,
            Method::Solar => SOLAR_PERCENT * WHOLE,
        }
    }
}

impl Supply {
    // Judges power, hours and days, for every method, as the fields 2, 3 and 4.
    pub fn in_range(self) -> Result<(), OutOfRange>
        ensures { result ≡ supply_judged self }
    {
        judge(2, self.power <= MOST_POWER)?;
        judge(3, self.hours <= MOST_HOURS)?;
        judge(4, self.days <= MOST_DAYS)
    }
}

// The level alone, of a method's number, as a table has it, and a supply. For a `Method` there is
// `Method::level`.
pub fn level(method: u8, supply: Supply) -> Result<u32, OutOfRange>
    ensures { result ≡ level_of method supply }
{
    let method = Method::try_from(method)?;
    supply.in_range()?;
    Ok(method.level(supply))
}
