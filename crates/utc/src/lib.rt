// Dates and times in UTC from POSIX seconds, any 64-bit number of them.
#![tactic(auto)]

ghost use Rattle.std.specs.Prelude.{Some, ◌≡◌, ◌≤◌, ◌<◌};
ghost use Rattle.utc.specs.Calendar.{leap_year, days_of_year, days_of_month, Shows};
ghost use Rattle.utc.specs.Parts.{YearOf, MonthOf};
ghost use Rattle.utc.specs.Text.{text_of};

use std::fmt;

// A moment in UTC by the Gregorian calendar.
#[derive(Clone, Copy)]
pub struct DateTime {
    pub year: u64,
    pub month: u8,
    pub day: u8,
    pub hour: u8,
    pub minute: u8,
    pub second: u8,
}

// A day by its year, and the days of that year before it.
#[derive(Drop)]
struct YearDay {
    year: u64,
    before: u64,
}

// A day of a year by its month and its number there, from 1.
#[derive(Drop)]
struct MonthDay {
    month: u8,
    day: u8,
}

fn leap_year(year: u64) -> bool
    ensures { result ≡ leap_year year }
{
    // Three years of four are told without a division.
    if year % 4 != 0 {
        return false;
    }
    if year % 100 == 0 {
        year % 400 == 0
    } else {
        true
    }
}

fn days_of_year(year: u64) -> u64
    ensures { result ≡ days_of_year year }
{
    if leap_year(year) { 366 } else { 365 }
}

// At most 31, so that the number of a day fits an octet.
fn days_of_month(year: u64, month: u8) -> u64
    requires { (1 ≤ month) × (month ≤ 12) }
    ensures { (result ≡ days_of_month year month) × (result ≤ 31) }
{
    match month {
        2 => if leap_year(year) { 29 } else { 28 },
        4 | 6 | 9 | 11 => 30,
        _ => 31,
    }
}

// The day that comes so many days after 1970-01-01. Any 400 years have 146,097 days, and the next 400 the same leap years: they are passed
// over at once, and the year is looked for among the first 400, whatever the number.
fn year_day(days: u64) -> YearDay
    ensures { YearOf result days }
{
    let passed = 400 * (days / 146_097);
    let mut left = days % 146_097;
    for year in 1970..2370 {
        let n = days_of_year(year);
        if left < n {
            return YearDay {
                year: passed + year,
                before: left,
            };
        }
        left -= n;
    }
    unreachable!()
}

// The day of a year that has so many days of the year before it.
fn month_day(year: u64, before: u64) -> MonthDay
    requires { before < days_of_year year }
    ensures { MonthOf result year before }
{
    let mut left = before;
    for month in 1..=12 {
        let n = days_of_month(year, month);
        if left < n {
            return MonthDay {
                month,
                day: (left + 1) as u8,
            };
        }
        left -= n;
    }
    unreachable!()
}

impl fmt::Display for DateTime {
    ghost output = { λ t. Some (text_of t) };

    fn fmt<W: fmt::Write>(&self, f: &mut fmt::Formatter<W>) -> fmt::Result {
        write!(
            f,
            "{}-{:02}-{:02} {:02}:{:02}:{:02} UTC",
            self.year, self.month, self.day, self.hour, self.minute, self.second
        )
    }
}

// The moment so many seconds after 1970-01-01 00:00:00.
pub fn date_time(seconds: u64) -> DateTime
    ensures { Shows result seconds }
{
    let of_year = year_day(seconds / 86_400);
    let of_month = month_day(of_year.year, of_year.before);
    let of_day = seconds % 86_400;
    DateTime {
        year: of_year.year,
        month: of_month.month,
        day: of_month.day,
        hour: (of_day / 3600) as u8,
        minute: (of_day / 60 % 60) as u8,
        second: (of_day % 60) as u8,
    }
}
