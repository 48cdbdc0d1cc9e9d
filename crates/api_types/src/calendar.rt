//! Dates at UTC, counted from 1970 on.
ghost use Rattle.std.specs.Prelude.{◌≡◌, ◌<◌, ◌≤◌, ◌+◌, ◌*◌, IsAscii, MatchOption, codes, ◌++◌, [], length};
ghost use Rattle.std.specs.List.{list_all};
ghost use Rattle.std.specs.Prelude.{nat_le, take, true, ◌-◌, ◌/◌, ◌%◌};
ghost use Rattle.fh_model.specs.Stamps.{four, is_leap, month_lengths, month_text, two, year_length};
ghost use Rattle.api_types.specs.Calendar.{IsDate, IsMonth, IsYear, date_of, days_in, days_through};

/// The bytes of a date's text.
pub(crate) const DATE_BYTES: usize = 10;

/// The days from the first of year 1 to the first of 1970.
const DAYS_BEFORE_1970: u64 = 719_162;

fn is_leap(year: u64) -> bool
    ensures { result ≡ is_leap year }
{
    year % 4 == 0 && (year % 100 != 0 || year % 400 == 0)
}

fn month_lengths(year: u64) -> [u8; 12]
    ensures { result ≡ month_lengths year }
{
    let february = if is_leap(year) { 29 } else { 28 };
    [31, february, 31, 30, 31, 30, 31, 31, 30, 31, 30, 31]
}

fn year_length(year: u64) -> u64
    ensures { result ≡ year_length year }
{
    if is_leap(year) { 366 } else { 365 }
}

/// The first of two decimal digits.
pub(crate) fn tens(number: u64) -> u8
    requires { number < 100 }
    ensures value { result ≡ 48 + number / 10 }
    ensures ascii { result < 58 }
{
    48 + (number / 10) as u8
}

/// The last decimal digit.
pub(crate) fn ones(number: u64) -> u8
    ensures value { result ≡ 48 + number % 10 }
    ensures ascii { result < 58 }
{
    48 + (number % 10) as u8
}

/// The year that it is after so many days, and how many of these are of that year. None past the year 9999.
fn year_at(days: u64) -> Option<(u64, u64)>
    ensures { MatchOption result (date_of days ≡ []) (λ found. IsYear days found.0 found.1) }
{
    let mut left = days;
    for year in 1970..10_000 {
        let length = year_length(year);
        if left < length {
            return Some((year, left));
        }
        left -= length;
    }
    None
}

/// The month and the day of it after so many days, where the months from this one on have these lengths.
fn month_at(month: u64, left: u64, lengths: &[u8]) -> (u64, u64)
    requires within { left < days_in lengths.now }
    requires short { list_all (λ len. nat_le len 31) lengths.now ≡ true }
    requires few { month + length lengths.now < 100 }
    ensures { IsMonth (month_text month left lengths.now) result.0 result.1 }
{
    match lengths {
        [] => unreachable!(),
        [length, later @ ..] => {
            let length = u64::from(*length);
            if left < length {
                (month, left + 1)
            } else {
                month_at(month + 1, left - length, later)
            }
        }
    }
}

fn spell(year: u64, month: u64, day: u64) -> [u8; DATE_BYTES]
    requires year { year < 10000 }
    requires month { month < 100 }
    requires day { day < 100 }
    ensures value { result ≡ four year ++ codes "-" ++ two month ++ codes "-" ++ two day }
    ensures ascii { IsAscii result }
{
    [
        tens(year / 100),
        ones(year / 100),
        tens(year % 100),
        ones(year % 100),
        b'-',
        tens(month),
        ones(month),
        b'-',
        tens(day),
        ones(day),
    ]
}

/// The text of the date so many days after 1970 began. None past the year 9999.
pub(crate) fn date_at(days: u64) -> Option<[u8; DATE_BYTES]>
    ensures { MatchOption result (date_of days ≡ []) (IsDate days) }
{
    let (year, left) = year_at(days)?;
    let (month, day) = month_at(1, left, month_lengths(year).as_slice());
    Some(spell(year, month, day))
}

/// The days of the years from 1 to this one.
#[tactic(auto, unfolding(crate::specs::Calendar::days_through))]
fn days_through(year: u64) -> u64
    requires { year < 10000 }
    ensures value { result ≡ days_through year }
    ensures small { result < 3700000 }
{
    365 * year + year / 4 + year / 400 - year / 100
}

/// The days of months with these lengths.
fn days_in(lengths: &[u8]) -> u64
    requires { length lengths.now ≤ 12 }
    ensures value { result ≡ days_in lengths.now }
    ensures small { result ≤ 255 * length lengths.now }
{
    match lengths {
        [] => 0,
        [length, later @ ..] => u64::from(*length) + days_in(later),
    }
}

/// The days from when 1970 began to a date. Where there is no such date it is some number.
pub(crate) fn days_to(year: u64, month: u64, day: u64) -> u64
    requires year { year < 10000 }
    requires month { month < 100 }
    requires day { day < 100 }
    ensures small { result < 4000000 }
    ensures value { 1 ≤ year → 1 ≤ month → month ≤ 12 → 1 ≤ day → result ≡ days_through (year - 1) + days_in (take (month - 1) (month_lengths year)) + (day - 1) - 719162 }
{
    let lengths = month_lengths(year);
    let over = month.saturating_sub(1).min(12) as usize;
    let days = days_through(year.saturating_sub(1)) + days_in(&lengths[..over]) + day;
    days.saturating_sub(DAYS_BEFORE_1970 + 1)
}
