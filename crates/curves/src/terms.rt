// The terms of a year, and the obligation that follows from them.
ghost use Rattle.std.specs.Prelude.{◌≡◌, ◌≤◌};
ghost use Rattle.std.specs.Result.{result_map_both};
ghost use Rattle.curves.specs.Obligations.{obligation_in_guarantees, reference_power, terms_judged};

use crate::levels::KW_PER_GUARANTEE;
use crate::ranges::{OutOfRange, judge};
use crate::rounding::rounded;

// The most half-hours of a year (the book's own); the rules have 200 to 300 (5.1.1.2).
const MOST_STEPS: u16 = 400;

// The highest security coefficient, in thousandths (the book's own); the rules have 930 (5.1.4.3).
const MOST_SECURITY: u16 = 2_000;

// A sum counts kW by thousandths of a coefficient and hundredths of a degree.
pub(crate) const PARTS_PER_KW: u32 = 1_000 * 100;

// An obligation counts kW by thousandths of the security coefficient.
const PARTS_PER_GUARANTEE: u64 = KW_PER_GUARANTEE * 1_000;

// The half-hours of a year, and its security coefficient in thousandths.
#[derive(Clone, Copy, PartialEq, Eq, Debug)]
pub struct YearTerms {
    pub n: u16,
    pub security: u16,
    pub ghost n_least: { 1 ≤ n },
    pub ghost n_most: { n ≤ 400 },
    pub ghost security_most: { security ≤ 2000 },
}

impl YearTerms {
    // Judges both as the fields 1 and 2.
    pub fn new(n: u16, security: u16) -> Result<YearTerms, OutOfRange>
        ensures { result_map_both (λ terms. (terms.n, terms.security)) (λ fault. fault) result ≡ terms_judged n security }
    {
        judge(1, (1..=MOST_STEPS).contains(&n))?;
        judge(2, security <= MOST_SECURITY)?;
        Ok(YearTerms { n, security })
    }

    // The obligation in guarantees of a sum: the security coefficient's part of the reference power
    // (5.2.1.2), rounded by digit (the book's own).
    #[tactic(auto, unfolding(crate::specs::Obligations::obligation_in_guarantees))]
    pub fn obligation(self, sum: i64) -> u64
        ensures { result ≡ obligation_in_guarantees self.n self.security sum }
    {
        rounded(
            self.reference_power(sum) * u64::from(self.security),
            PARTS_PER_GUARANTEE,
        )
    }

    // The mean power over the year's half-hours, in kW, rounded down; a negative sum counts as zero (5.2.4).
    fn reference_power(self, sum: i64) -> u64
        ensures { result ≡ reference_power self.n sum }
    {
        sum.max(0).unsigned_abs() / (u64::from(PARTS_PER_KW) * u64::from(self.n))
    }
}
