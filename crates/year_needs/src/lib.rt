// The records that a year has to have before it is stated: refusal 8.
// Months, lines and categories are numbers that a clause ranges, as in `book_slots`, which says why.
#![tactic(auto)]

ghost use Rattle.std.specs.Prelude.{◌≡◌, ◌&&◌, ◌≤◌, Some};
ghost use Rattle.record_table.specs.Table.{lines, categories, months};
ghost use Rattle.year_needs.specs.Complete.{any_line, uncounted, headless, lacks, lacking_month, complete_of};
ghost use Rattle.year_needs.specs.Asks.{Lined};

use book::Book;
use refusals::{Reason, Refusal};
use year_months::Year;

// Room for a flag at each category number. The entry at 0 is for a line that is not in the book; nothing reads it.
const CATEGORY_FLAGS: usize = record_table::CATEGORIES + 1;

// Whether a year has the records that it needs. YR and a line are looked at first, and then each month
// through the year's end.
#[tactic(auto, unfolding(crate::specs::Complete::complete_of, crate::specs::Complete::lacking_month))]
pub fn complete(book: &Book<'_>, year: Year) -> Result<(), Refusal>
    ensures { result ≡ complete_of book.now year }
{
    if book_slots::first_year(book).is_none() || !any_line(book) {
        return Err(Reason::Lacking.at(0));
    }
    match LinedCategories::of(book).first_lacking(year) {
        Some(month) => Err(Reason::Lacking.at(month)),
        None => Ok(()),
    }
}

fn any_line(book: &Book<'_>) -> bool
    ensures { result ≡ any_line book.now }
{
    (1..record_table::LINES + 1).any(|line| book_herd::category(book, line).is_some())
}

// A book, with a flag for each of its categories that has a line: looked at once, and not again in each month.
#[derive(Drop)]
struct LinedCategories<'a, 'b> {
    book: &'a Book<'b>,
    flags: [bool; CATEGORY_FLAGS],
    ghost lined: { Lined book.now lines flags },
}

impl<'a, 'b> LinedCategories<'a, 'b> {
    #[tactic(auto, using(crate::proofs::Ranges::category_amount))]
    fn of(book: &'a Book<'b>) -> LinedCategories<'a, 'b>
        ensures { result.book.now ≡ book.now }
    {
        book.known();
        let mut flags = [false; CATEGORY_FLAGS];
        // A line is asked for by its number.
        for line in 1..=record_table::LINES {
            let category = book_herd::category(book, line).unwrap_or(0) as usize;
            flags[category] = true;
        }
        LinedCategories { book, flags }
    }

    // The lowest month through the year's end that lacks a record.
    fn first_lacking(&self, year: Year) -> Option<usize>
        ensures { result ≡ lacking_month self.now.book.now year }
    {
        let past = year.months_through() + 1;
        (1..past).find(|month| self.is_lacking(year, *month))
    }

    #[tactic(auto, unfolding(crate::specs::Complete::lacks))]
    fn is_lacking(&self, year: Year, month: usize) -> bool
        requires month_within { month ≤ months }
        ensures { result ≡ lacks self.now.book.now year month }
    {
        book_slots::temperature(self.book, month).is_none()
            || self.is_headless(month)
            || year.months_before() < month
                && book_slots::project_methane(self.book, month).is_none()
    }

    // Whether the category of a line has no head count in the month.
    fn is_headless(&self, month: usize) -> bool
        requires month_within { month ≤ months }
        ensures { result ≡ headless self.now.book.now month }
    {
        self.book.known();
        (1..CATEGORY_FLAGS).any(|category| is_uncounted(
            self.book,
            category,
            month,
            self.flags[category],
        ))
    }
}

fn is_uncounted(book: &Book<'_>, category: usize, month: usize, lined: bool) -> bool
    requires category_within { category ≤ categories }
    requires month_within { month ≤ months }
    ensures { result ≡ (lined && uncounted book.now month (Some category)) }
{
    lined && book_herd::head(book, category, month).is_none()
}
