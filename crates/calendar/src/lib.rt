// The Gregorian days of the months that a book counts.
#![tactic(auto)]

ghost use Rattle.std.specs.Prelude.{◌≡◌, ◌≤◌};
ghost use Rattle.calendar.specs.Days.{months_in_year, leap_of, february_of, length_of, gone_of, days_of};

const MONTHS_IN_YEAR: u64 = 12;

const FEBRUARY: u64 = 2;

const APRIL: u64 = 4;

const JUNE: u64 = 6;

const SEPTEMBER: u64 = 9;

const NOVEMBER: u64 = 11;

// The days of a month of the book; month 1 is the first month of the first year. It asks the upper ends
// of 01's ranges alone, which the fields of a book have: they are numbers there, and stay numbers here.
#[tactic(auto, unfolding(crate::specs::Days::days_of))]
pub fn days(first_year: u64, first_month: u64, month: u64) -> u64
    requires { (first_year ≤ 2089) × (first_month ≤ 12) × (month ≤ 120) }
    ensures { result ≡ days_of first_year first_month month }
{
    let gone = gone_by(first_month, month);
    length(
        first_year + gone / MONTHS_IN_YEAR,
        gone % MONTHS_IN_YEAR + 1,
    )
}

// The months gone by since January of the first year. Both counts are from 1, so 2 is taken off, but
// never below 0: a slot never filled reads 0.
#[tactic(auto, unfolding(crate::specs::Days::gone_of))]
fn gone_by(first_month: u64, month: u64) -> u64
    requires { (first_month ≤ 12) × (month ≤ 120) }
    ensures { result ≡ gone_of first_month month }
{
    (first_month + month).saturating_sub(2)
}

#[tactic(auto, unfolding(crate::specs::Days::length_of, crate::specs::Days::lengths_of))]
fn length(year: u64, month: u64) -> u64
    requires { (1 ≤ month) × (month ≤ months_in_year) }
    ensures { result ≡ length_of year month }
{
    match month {
        FEBRUARY => february(year),
        APRIL | JUNE | SEPTEMBER | NOVEMBER => 30,
        _ => 31,
    }
}

#[tactic(auto, unfolding(crate::specs::Days::february_of))]
fn february(year: u64) -> u64
    ensures { result ≡ february_of year }
{
    if leap(year) { 29 } else { 28 }
}

#[tactic(auto, unfolding(crate::specs::Days::leap_of))]
fn leap(year: u64) -> bool
    ensures { result ≡ leap_of year }
{
    year % 4 == 0 && year % 100 != 0 || year % 400 == 0
}
