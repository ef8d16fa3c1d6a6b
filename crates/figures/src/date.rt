// Dates: milliseconds since 1970 as a day of the calendar and a time, in UTC.
ghost use Rattle.std.specs.Prelude.{◌≡◌, ◌+◌, ◌-◌, ◌≤◌, ◌<◌};
ghost use Rattle.figures.specs.Calendar.{leap_day, month_length, InYear, InMonth};

use crate::double::{Bits, Double};
use std::io::Write;
use std::{fmt, io};

// From the first day of the year 1 to that of 1970, and to that of the year 10000.
const TO_1970: u64 = 62_135_596_800_000;

const TO_10000: u64 = 315_537_897_600_000;

const DAY: u64 = 86_400_000;

// A day, by its number, of which the first day of the year 1 has 0.
#[derive(Clone, Copy, PartialEq, Eq, Debug)]
struct Day(u64);

// A time of a day, in milliseconds.
#[derive(Clone, Copy, PartialEq, Eq, Debug)]
struct Time(u64);

// The minutes of a zone, in two bytes, which are a number with a sign.
#[derive(Clone, Copy, PartialEq, Eq, Debug)]
pub struct Zone(pub u16);

// The milliseconds since the first day of the year 1, where they are whole and the year is at most 9999.
fn since_year_1(bits: Bits) -> Option<u64> {
    if !bits.is_finite() {
        return None;
    }
    let d = Double::from(bits);
    let n = d.whole()?;
    if d.negative {
        TO_1970.checked_sub(n)
    } else if n < TO_10000 - TO_1970 {
        Some(TO_1970 + n)
    } else {
        None
    }
}

// The smaller of n and 3.
fn up_to_3(n: u64) -> u64
    ensures { (result ≤ 3) × (result ≡ n - (n - 3)) }
{
    n.min(3)
}

// The year of a day, and the day of that year, from 0, where the first day of the year 1 is day 0. The last of four years, and of four centuries, may be a day
// longer.
fn year_of(days: u64) -> (u64, u64)
    ensures in_year { InYear days result.0 result.1 }
    ensures day_bound { result.1 < 366 }
{
    let of_400 = days % 146_097;
    let centuries = up_to_3(of_400 / 36_524);
    let of_100 = of_400 - 36_524 * centuries;
    let of_4 = of_100 % 1461;
    let years = up_to_3(of_4 / 365);
    (
        1 + 400 * (days / 146_097) + 100 * centuries + 4 * (of_100 / 1461) + years,
        of_4 - 365 * years,
    )
}

#[tactic(auto, unfolding(crate::specs::Calendar::leap_day))]
fn leap_day(year: u64) -> u64
    ensures { (result ≡ leap_day year) × (result ≤ 1) }
{
    if year % 100 == 0 {
        if year % 400 == 0 { 1 } else { 0 }
    } else if year % 4 == 0 {
        1
    } else {
        0
    }
}

// The months count from 0.
#[tactic(auto, unfolding(crate::specs::Calendar::month_length))]
fn month_length(year: u64, month: u64) -> u64
    ensures { (result ≡ month_length year month) × (0 < result) }
{
    match month {
        1 => 28 + leap_day(year),
        3 | 5 | 8 | 10 => 30,
        _ => 31,
    }
}

// The month of a day of a year, and the day of that month, both from 0.
fn month_of(year: u64, day: u64) -> (u64, u64)
    ensures in_month { InMonth year day result.0 result.1 }
    ensures day_bound { result.0 + result.1 ≤ day }
{
    let mut month: u64 = 0;
    let mut left = day;
    loop {
        let length = month_length(year, month);
        if left < length {
            return (month, left);
        }
        left -= length;
        month += 1;
    }
}

impl fmt::Display for Day {
    fn fmt<W: fmt::Write>(&self, f: &mut fmt::Formatter<W>) -> fmt::Result {
        let (year, day_of_year) = year_of(self.0);
        let (month, day) = month_of(year, day_of_year);
        write!(f, "{year:04}-{:02}-{:02}", month + 1, day + 1)
    }
}

impl fmt::Display for Time {
    fn fmt<W: fmt::Write>(&self, f: &mut fmt::Formatter<W>) -> fmt::Result {
        let seconds = self.0 / 1000;
        let milliseconds = self.0 % 1000;
        write!(
            f,
            "{:02}:{:02}:{:02}",
            seconds / 3600,
            seconds / 60 % 60,
            seconds % 60
        )?;
        if milliseconds != 0 {
            write!(f, ".{milliseconds:03}")?;
        }
        Ok(())
    }
}

impl fmt::Display for Zone {
    fn fmt<W: fmt::Write>(&self, f: &mut fmt::Formatter<W>) -> fmt::Result {
        let minutes = self.0.cast_signed();
        write!(f, "{minutes}")
    }
}

// Whether a date is a moment of the years 1 to 9999, to the millisecond.
pub fn is_of_calendar(bits: u64) -> bool {
    since_year_1(Bits(bits)).is_some()
}

// Such a moment as ISO 8601 has it.
pub fn iso(page: &mut impl Write, bits: u64) -> io::Result<()> {
    if let Some(n) = since_year_1(Bits(bits)) {
        write!(page, "{}T{}Z", Day(n / DAY), Time(n % DAY))?;
    }
    Ok(())
}

// The moment, and the zone where it is not 0.
pub fn date(page: &mut impl Write, bits: u64, zone: u16) -> io::Result<()> {
    match since_year_1(Bits(bits)) {
        Some(n) => write!(page, "{} {} UTC", Day(n / DAY), Time(n % DAY))?,
        None => write!(page, "{} ms since 1970", Bits(bits))?,
    }
    if zone != 0 {
        write!(page, ", zone {} min", Zone(zone))?;
    }
    Ok(())
}
