// The coefficients Kj and Kh of a supply limited in its hours and days, in percent.
ghost use Rattle.std.specs.Prelude.{◌≡◌, ◌+◌, ◌*◌, ◌<◌, ◌≤◌, slice_index};
ghost use Rattle.curves.specs.Coefficients.{kh_after, kh_of, kj_of, kj_table};

use crate::rounding::rounded;

// Kj for 0 to 20 half-hours (6.1.2.2).
const KJ_TABLE: [u8; 21] = [
    0, 13, 25, 35, 46, 53, 59, 65, 70, 74, 78, 82, 85, 88, 91, 93, 95, 96, 98, 99, 100,
];

// Kh for 0 to 5 whole days (6.1.3.2).
const KH_TABLE: [u8; 6] = [0, 45, 73, 88, 94, 100];

// Hours come in tenths, and Kj goes by half-hours (6.1.2.2).
const TENTHS_PER_HALF_HOUR: u64 = 5;

// More than 10 hours a day count as 10 (6.3.1.2.2.1.2).
const MOST_HALF_HOURS: u64 = 20;

// Days come in hundredths, and Kh goes by tenths (6.1.3.2).
const HUNDREDTHS_PER_TENTH: u64 = 10;

const TENTHS_PER_DAY: u64 = 10;

// More than 5.0 days a week count as 5.0 (6.3.1.2.2.2).
const MOST_TENTHS_OF_DAYS: u64 = 50;

// Kj of hours in tenths (6.1.2.2).
pub fn kj(hours: u8) -> u8
    ensures { result ≡ kj_of hours }
{
    kj_at(rounded(u64::from(hours), TENTHS_PER_HALF_HOUR).min(MOST_HALF_HOURS))
}

// Kh of days in hundredths (6.1.3.2).
pub fn kh(days: u16) -> u8
    ensures { result ≡ kh_of days }
{
    let tenths = rounded(u64::from(days), HUNDREDTHS_PER_TENTH).min(MOST_TENTHS_OF_DAYS);
    kh_after((tenths / TENTHS_PER_DAY) as usize, tenths % TENTHS_PER_DAY)
}

fn kj_at(half_hours: u64) -> u8
    requires { half_hours ≤ 20 }
    ensures { result ≡ slice_index kj_table half_hours }
{
    KJ_TABLE[half_hours as usize]
}

// Kh some tenths after a whole day, on the straight line to the next day (6.1.3.2).
fn kh_after(day: usize, tenths: u64) -> u8
    requires tenths { tenths < 10 }
    requires days { 10 * day + tenths ≤ 50 }
    ensures { result ≡ kh_after day tenths }
{
    if tenths == 0 {
        return KH_TABLE[day];
    }
    let line = u64::from(KH_TABLE[day]) * (TENTHS_PER_DAY - tenths)
        + u64::from(KH_TABLE[day + 1]) * tenths;
    rounded(line, TENTHS_PER_DAY) as u8
}
