// Dates and times of day, as file headers have them: what a date word and a time word answer.
#![tactic(auto)]

ghost use Rattle.std.specs.Prelude.{◌≡◌, ◌<◌, ◌≤◌, pos};
ghost use Rattle.calendar_rules.specs.Gregorian.{leap, days_before, year_length, month_of, date_in};
ghost use Rattle.calendar_rules.specs.Dates.{date_of};
ghost use Rattle.calendar_rules.specs.Times.{time_of};
ghost use Rattle.refusal_rules.specs.Answers.{says};

use calendar_rules::{Date, TimeOfDay};
use refusal::{and, check, or, within};
use refusal_rules::Refusal;

// The days of a year before each of its months: of a common year, and then of a leap year.
const DAYS_BEFORE: [u32; 24] = [
    0, 31, 59, 90, 120, 151, 181, 212, 243, 273, 304, 334, 0, 31, 60, 91, 121, 152, 182, 213, 244,
    274, 305, 335,
];

// The days of a year before a month, which is counted from 0.
fn days_before(leap: bool, month: usize) -> u32
    requires { month < 12 }
    ensures { result ≡ days_before leap month }
{
    if leap {
        DAYS_BEFORE[12 + month]
    } else {
        DAYS_BEFORE[month]
    }
}

// Whether a year is a leap year.
#[tactic(auto, unfolding(calendar_rules::specs::Gregorian::leap))]
fn is_leap(year: u32) -> bool
    ensures { result ≡ leap year }
{
    and(year % 4 == 0, or(year % 100 != 0, year % 400 == 0))
}

// The days of a year.
#[tactic(auto, unfolding(calendar_rules::specs::Gregorian::days_before))]
fn year_length(leap: bool) -> u32
    ensures { result ≡ year_length leap }
{
    if leap { 366 } else { 365 }
}

// The month, counted from 0, in which a day of the year lies: the last that begins before the day ends. No month has more than 31 days, so month k has begun by day
// 32·k: the search goes on from there, and looks at two months at most.
#[tactic(auto, unfolding(calendar_rules::specs::Gregorian::last_before))]
fn month_of(leap: bool, day: u32) -> usize
    ensures { result ≡ month_of leap day }
{
    let first = (day / 32).min(11) as usize;
    for month in first + 1..12 {
        if day <= days_before(leap, month) {
            return month - 1;
        }
    }
    11
}

// The date of a day of a year.
#[tactic(auto, unfolding(calendar_rules::specs::Gregorian::date_in))]
fn date_in(year: u32, day: u32) -> Date
    requires { 1 ≤ day }
    ensures { result ≡ date_in year day }
{
    let leap = is_leap(year);
    let month = month_of(leap, day);
    Date {
        year,
        month: (month + 1) as u32,
        day: day - days_before(leap, month),
    }
}

// The date of a word that is not negative, or refusal 11.
#[tactic(auto, unfolding(calendar_rules::specs::Dates::date_rules, refusal_rules::specs::Rules::first_fault, refusal_rules::specs::Rules::first, refusal_rules::specs::Rules::judge, calendar_rules::specs::Dates::date_of))]
fn date_of_number(n: u32) -> Result<Date, Refusal>
    ensures { says result ≡ date_of (pos n) }
{
    let year = 1900 + n / 1000;
    let day = n % 1000;
    let length = year_length(is_leap(year));
    check(n <= 999999, Refusal::NoDate)?;
    check(within(1, length, day), Refusal::NoDate)?;
    Ok(date_in(year, day))
}

// The date of a word yyyddd: 1000 times the years since 1900, and the day of the year. Refused with 11 where the word is
// negative or above 999,999, or its day is not one of that year.
#[tactic(auto, unfolding(calendar_rules::specs::Dates::date_of, calendar_rules::specs::Dates::date_rules, refusal_rules::specs::Rules::first_fault, refusal_rules::specs::Rules::first, refusal_rules::specs::Rules::judge))]
pub fn date_of(word: i32) -> Result<Date, Refusal>
    ensures { says result ≡ date_of word }
{
    match u32::try_from(word) {
        Ok(n) => date_of_number(n),
        Err(_) => Err(Refusal::NoDate),
    }
}

// The time of day of a word that is not negative, or refusal 11.
#[tactic(auto, unfolding(calendar_rules::specs::Times::time_rules, refusal_rules::specs::Rules::first_fault, refusal_rules::specs::Rules::first, refusal_rules::specs::Rules::judge, calendar_rules::specs::Times::time_of))]
fn time_of_number(n: u32) -> Result<TimeOfDay, Refusal>
    ensures { says result ≡ time_of (pos n) }
{
    let hours = n / 10000;
    let minutes = n / 100 % 100;
    let seconds = n % 100;
    check(hours <= 23, Refusal::NoDate)?;
    check(minutes <= 59, Refusal::NoDate)?;
    check(seconds <= 59, Refusal::NoDate)?;
    Ok(TimeOfDay {
        hours,
        minutes,
        seconds,
    })
}

// The time of day of a word hhmmss. Refused with 11 where the word is negative, its hours are above 23, or its minutes or
// seconds above 59.
#[tactic(auto, unfolding(calendar_rules::specs::Times::time_of, calendar_rules::specs::Times::time_rules, refusal_rules::specs::Rules::first_fault, refusal_rules::specs::Rules::first, refusal_rules::specs::Rules::judge))]
pub fn time_of(word: i32) -> Result<TimeOfDay, Refusal>
    ensures { says result ≡ time_of word }
{
    match u32::try_from(word) {
        Ok(n) => time_of_number(n),
        Err(_) => Err(Refusal::NoDate),
    }
}
