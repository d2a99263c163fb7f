// What the steps of a series add, and the obligation that follows from their sum.
ghost use Rattle.std.specs.Prelude.{◌≡◌, ◌*◌, ◌^◌, ◌<◌, ◌≤◌, pos, ◌+ℤ◌, ◌-ℤ◌, ◌*ℤ◌, IfOk, unsigned_abs};
ghost use Rattle.curves.specs.Obligations.{added_by, losses, most_added, obligation_of, profiled, readings_judged, sort_numbered};

use crate::ranges::{MOST_POWER, OutOfRange, judge};
use crate::terms::{PARTS_PER_KW, YearTerms};

// The steepest gradient either way, in kW per degree (the book's own).
const MOST_GRADIENT: u32 = 9_999_999;

// The highest coefficient of profiled sites, in thousandths (the book's own).
const MOST_COEFFICIENT: u16 = 9_999;

// Losses have no coefficient: theirs is 1.000 (5.2.1.5.1).
const WHOLE_COEFFICIENT: u16 = 1_000;

// The temperature furthest from zero, in hundredths of a degree (the book's own).
const MOST_TEMPERATURE: u16 = 5_000;

// The sum furthest from zero, beyond what two series of 400 steps reach (the book's own).
const MOST_SUM: u64 = 1_000_000_000_000_000_000;

// Which of an account's two series a step belongs to.
#[derive(Clone, Copy, PartialEq, Eq, Debug)]
pub enum Sort {
    // Profiled sites (5.2.1.4.1).
    Profiled,
    // Losses (5.2.1.5.1).
    Losses,
}

impl TryFrom<u8> for Sort {
    type Error = OutOfRange;

    ghost try_from_gives = { λ number r. r ≡ sort_numbered number };

    // Sorts have the numbers 1 and 2 (the book's own).
    fn try_from(number: u8) -> Result<Sort, OutOfRange> {
        match number {
            1 => Ok(Sort::Profiled),
            2 => Ok(Sort::Losses),
            _ => Err(OutOfRange { field: 1 }),
        }
    }
}

// A half-hour of a series, with its fields as given and not yet judged.
#[derive(Clone, Copy, PartialEq, Eq, Debug)]
pub struct Step {
    // A number and no `Sort`: one that names none is refused in its turn, as any field.
    pub sort: u8,
    // In kW.
    pub metered: u32,
    pub shed: u32,
    // In kW per degree, of profiled sites per degree colder.
    pub gradient: i32,
    // In thousandths (5.2.1.4.4.1).
    pub coefficient: u16,
    // In hundredths of a degree (5.1.2.1).
    pub real: i16,
    pub extreme: i16,
}

// What a step adds to the sum of its account.
pub fn added(step: Step) -> Result<i64, OutOfRange>
    ensures answer { result ≡ added_by step }
    ensures bound { IfOk result (λ x. unsigned_abs x ≤ most_added) }
{
    let sort = Sort::try_from(step.sort)?;
    step.in_range(sort)?;
    match sort {
        Sort::Profiled => Ok(step.profiled()),
        Sort::Losses => Ok(step.losses()),
    }
}

// The obligation in guarantees, of n half-hours, a security coefficient in thousandths and the sum over both series.
pub fn obligation(n: u16, security: u16, sum: i64) -> Result<u64, OutOfRange>
    ensures { result ≡ obligation_of n security sum }
{
    let terms = YearTerms::new(n, security)?;
    judge(3, sum.unsigned_abs() <= MOST_SUM)?;
    Ok(terms.obligation(sum))
}

impl Step {
    // Judges the fields after the sort, for that sort; losses shed nothing.
    fn in_range(self, sort: Sort) -> Result<(), OutOfRange>
        ensures { result ≡ readings_judged sort self }
    {
        let (shed_fine, coefficient_fine) = match sort {
            Sort::Profiled => (
                self.shed <= MOST_POWER,
                self.coefficient <= MOST_COEFFICIENT,
            ),
            Sort::Losses => (self.shed == 0, self.coefficient == WHOLE_COEFFICIENT),
        };
        judge(2, self.metered <= MOST_POWER)?;
        judge(3, shed_fine)?;
        judge(4, self.gradient.unsigned_abs() <= MOST_GRADIENT)?;
        judge(5, coefficient_fine)?;
        judge(6, self.real.unsigned_abs() <= MOST_TEMPERATURE)?;
        judge(7, self.extreme.unsigned_abs() <= MOST_TEMPERATURE)
    }

    // The gradient is per degree colder, so it counts the degrees from the extreme up to the real (5.2.1.4.1).
    fn profiled(self) -> i64
        requires { readings_judged Sort.Profiled self ≡ Ok tt }
        ensures answer { result ≡ profiled self }
        ensures bound { unsigned_abs result ≤ most_added }
    {
        let warmth = Warmth {
            gradient: self.gradient,
            coefficient: self.coefficient,
            from: self.extreme,
            to: self.real,
        };
        warmth.added_to(self.metered + self.shed)
    }

    // The gradient is per degree warmer, so it counts the degrees from the real up to the extreme (5.2.1.5.1).
    fn losses(self) -> i64
        requires { readings_judged Sort.Losses self ≡ Ok tt }
        ensures answer { result ≡ losses self }
        ensures bound { unsigned_abs result ≤ most_added }
    {
        let warmth = Warmth {
            gradient: self.gradient,
            coefficient: WHOLE_COEFFICIENT,
            from: self.real,
            to: self.extreme,
        };
        warmth.added_to(self.metered)
    }
}

// What a gradient counts over the degrees from one temperature up to another, all in range.
#[derive(Clone, Copy, PartialEq, Eq, Debug)]
struct Warmth {
    gradient: i32,
    coefficient: u16,
    from: i16,
    to: i16,
    ghost gradient_most: { unsigned_abs gradient ≤ 9999999 },
    ghost coefficient_most: { coefficient ≤ 9999 },
    ghost from_most: { unsigned_abs from ≤ 5000 },
    ghost to_most: { unsigned_abs to ≤ 5000 },
}

impl Warmth {
    // A power in kW with what the degrees add to it.
    fn added_to(self, power: u32) -> i64
        requires { power ≤ 2 * 99999999 }
        ensures answer { result ≡ pos (100000 * power) +ℤ self.gradient *ℤ pos self.coefficient *ℤ (self.to -ℤ self.from) }
        ensures bound { unsigned_abs result ≤ most_added }
    {
        i64::from(PARTS_PER_KW) * i64::from(power) + self.adds()
    }

    fn adds(self) -> i64
        ensures answer { result ≡ self.gradient *ℤ pos self.coefficient *ℤ (self.to -ℤ self.from) }
        ensures bound { unsigned_abs result ≤ 10 ^ 15 }
    {
        times(self.per_degree(), self.degrees())
    }

    fn per_degree(self) -> i64
        ensures answer { result ≡ self.gradient *ℤ pos self.coefficient }
        ensures bound { unsigned_abs result ≤ 10 ^ 11 }
    {
        times(i64::from(self.gradient), i64::from(self.coefficient))
    }

    fn degrees(self) -> i64
        ensures answer { result ≡ self.to -ℤ self.from }
        ensures bound { unsigned_abs result ≤ 10 ^ 4 }
    {
        i64::from(self.to) - i64::from(self.from)
    }
}

// A product that is small enough to fit.
fn times(a: i64, b: i64) -> i64
    requires { unsigned_abs a * unsigned_abs b < 2 ^ 63 }
    ensures answer { result ≡ a *ℤ b }
    ensures bound { unsigned_abs result ≡ unsigned_abs a * unsigned_abs b }
{
    a * b
}
