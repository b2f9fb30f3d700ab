// Filling the gaps of a month's series (01, "The meter month"), whatever its numbers count.
//
// A run of missing hours is walked once, at its first hour, and what fills it is worked out there, so that the whole is linear in the hours.
#![tactic(auto)]

ghost use Rattle.std.specs.Prelude.{◌≡◌, false, eqb, ℕ, ◌≤◌, ◌<◌, length};
ghost use Rattle.meter_series.specs.Series.{is_recorded, series, most_amount, most_hours, AtMost};
ghost use Rattle.meter_gaps.specs.Filling.{neighbours, total_of, end_of, average_of, fill_of, fill_from, start_of, filled};

use meter_series::MOST_HOURS;

// The longest run that is filled, in hours.
const LONGEST: usize = 5;

// The hours before a run that its average takes in; it takes in the same number after it.
const NEIGHBOURS: usize = 4;

// The hours of an average, of both sides.
const AVERAGED: u64 = 8;

// A month of hours as filling asks for it: its hours number no more than the longest month's, and no number of it is too large for the sum of eight.
#[derive(Clone, Copy)]
struct Month<'a> {
    hours: &'a [Option<u64>],
    ghost one_month: { length hours.now ≤ most_hours },
    ghost at_most: { AtMost most_amount hours.now },
}

// The series after filling.
pub fn fill(hours: &[Option<u64>]) -> [Option<u64>; MOST_HOURS]
    requires one_month { length hours.now ≤ most_hours }
    requires at_most { AtMost most_amount hours.now }
    ensures result_len { length result ≡ most_hours }
    ensures by_index { (h : ℕ) → series result h ≡ filled (series hours.now) (length hours.now) h }
{
    let month = Month { hours };
    // A copy first, so that the missing hours alone are stored one by one.
    let mut out = [None; MOST_HOURS];
    out[..hours.len()].copy_from_slice(hours);
    let mut filling = None;
    for (hour, value) in hours.iter().enumerate() {
        if value.is_none() {
            filling = month.filling_at(hour, filling);
            out[hour] = filling;
        }
    }
    out
}

impl Month<'_> {
    // What fills the run that a missing hour stands in: it is worked out at the run's first hour, and kept for the others.
    #[tactic(auto, using(crate::proofs::Stepping::start_earlier))]
    fn filling_at(&self, hour: usize, filling: Option<u64>) -> Option<u64>
        requires hour_of_month { hour < length self.now.hours.now }
        requires known_past_start { start_of (series self.now.hours.now) hour < hour →
            filling ≡ fill_from (series self.now.hours.now) (length self.now.hours.now) (start_of (series self.now.hours.now) hour) }
        ensures { result ≡ fill_from (series self.now.hours.now) (length self.now.hours.now) (start_of (series self.now.hours.now) hour) }
    {
        if !self.is_start(hour) {
            return filling;
        }
        self.fill_from(hour)
    }

    // Whether the run that an hour stands in starts there: the hour before it is recorded, or there is none.
    #[tactic(auto, using(crate::proofs::Stepping::start_first, crate::proofs::Stepping::start_test))]
    fn is_start(&self, hour: usize) -> bool
        ensures { result ≡ eqb (start_of (series self.now.hours.now) hour) hour }
    {
        hour == 0 || meter_series::at(self.hours, hour - 1).is_some()
    }

    // What fills the run that starts at an hour; nothing where that hour is recorded.
    #[tactic(auto, using(laws::proofs::Counting::search_between))]
    fn fill_from(&self, start: usize) -> Option<u64>
        requires { start ≤ length self.now.hours.now }
        ensures { result ≡ fill_from (series self.now.hours.now) (length self.now.hours.now) start }
    {
        self.fill_of(start, self.end_from(start))
    }

    // The first recorded hour from `start` on, or the month's end.
    fn end_from(&self, start: usize) -> usize
        requires { start ≤ length self.now.hours.now }
        ensures { result ≡ end_of (series self.now.hours.now) (length self.now.hours.now) start }
    {
        (start..self.hours.len())
            .find(|end| self.hours[*end].is_some())
            .unwrap_or(self.hours.len())
    }

    // What fills the run from `start` up to `end`.
    #[tactic(auto, unfolding(crate::specs::Filling::fill_of))]
    fn fill_of(&self, start: usize, end: usize) -> Option<u64>
        requires { (start ≤ end) × (end ≤ most_hours) }
        ensures { result ≡ fill_of (series self.now.hours.now) (length self.now.hours.now) start end }
    {
        if !(1..=LONGEST).contains(&(end - start)) {
            return None;
        }
        self.average(start, end)
    }

    // The average of the neighbours of a run by their sum, rounded down, where each is an hour of the month and recorded.
    #[tactic(auto, unfolding(crate::specs::Filling::average_of))]
    fn average(&self, start: usize, end: usize) -> Option<u64>
        requires { (start ≤ most_hours) × (end ≤ most_hours) }
        ensures { result ≡ average_of (series self.now.hours.now) (length self.now.hours.now) start end }
    {
        if start < NEIGHBOURS || self.hours.len() < end + NEIGHBOURS {
            return None;
        }
        let before = self.total(start - NEIGHBOURS)?;
        let after = self.total(end)?;
        Some((before + after) / AVERAGED)
    }

    // The sum of the four hours from one on, where each is recorded.
    #[tactic(auto, using(crate::proofs::Stepping::total_more, crate::proofs::Stepping::total_none, crate::proofs::Stepping::window_hour), unfolding(crate::specs::Filling::total_of))]
    fn total(&self, from: usize) -> Option<u64>
        requires { from ≤ most_hours }
        ensures { result ≡ total_of (series self.now.hours.now) from neighbours }
    {
        let window = self.hours.get(from..from + NEIGHBOURS)?;
        let mut sum = 0;
        for hour in window {
            sum += (*hour)?;
        }
        Some(sum)
    }
}
