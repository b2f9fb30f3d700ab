// The months of the crediting period's years, and what a book says of a year's months.
#![tactic(auto)]

ghost use Rattle.std.specs.Prelude.{◌≡◌, ℕ, ◌+◌, ◌≤◌};
ghost use Rattle.calendar.specs.Days.{months_in_year, days_of};
ghost use Rattle.record_table.specs.Table.{months};
ghost use Rattle.year_months.specs.Series.{days_at, factor_at, factor_by};
ghost use Rattle.year_months.specs.Asks.{Holds, HoldsYear};

mod period;

use book::Book;
pub use period::Year;

// Twelve to a year of the crediting period, whichever month it starts with.
pub const MONTHS_IN_YEAR: usize = 12;

// The days of the year's months, first to last.
#[tactic(auto, using(crate::proofs::Ranges::first_year_most, crate::proofs::Ranges::first_month_most), unfolding(crate::specs::Series::days_at))]
pub fn days(book: &Book<'_>, year: Year) -> [u64; MONTHS_IN_YEAR]
    ensures { HoldsYear ℕ 0 year (days_at book.now) result }
{
    book.known();
    let first_year = book_slots::first_year(book).unwrap_or(0);
    let first_month = book_slots::first_month(book).unwrap_or(0);
    lengths(first_year, first_month, year.months_before())
}

fn lengths(first_year: u64, first_month: u64, before: usize) -> [u64; MONTHS_IN_YEAR]
    requires first_year_within { first_year ≤ 2089 }
    requires first_month_within { first_month ≤ 12 }
    requires months_within { before + months_in_year ≤ months }
    ensures { Holds ℕ 0 months_in_year before months_in_year (days_of first_year first_month) result }
{
    std::array::from_fn(|passed| {
        let month = before + passed + 1;
        calendar::days(first_year, first_month, month as u64)
    })
}

// The factors of the year's months, first to last; 0 where the temperature is not known. The contract promises that 0, so that no entry is an `Option`.
#[tactic(auto, unfolding(crate::specs::Series::factor_at))]
pub fn factors(book: &Book<'_>, year: Year) -> [u64; MONTHS_IN_YEAR]
    ensures { HoldsYear ℕ 0 year (factor_at book.now) result }
{
    let before = year.months_before();
    std::array::from_fn(|passed| factor_by(book_slots::temperature(book, before + passed + 1)))
}

fn factor_by(temperature: Option<i16>) -> u64
    ensures { result ≡ factor_by temperature }
{
    temperature.map_or(0, lagoon_factor::factor)
}
