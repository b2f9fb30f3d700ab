// The heads of a year, summed: the annual average population of Equations 5.3 and 5.4, twelve times.
// Months, lines and categories are numbers that a clause ranges, as in `book_slots`, which says why.
#![tactic(auto)]

ghost use Rattle.std.specs.Prelude.{◌≡◌, ◌≤◌};
ghost use Rattle.record_table.specs.Table.{categories, months};
ghost use Rattle.year_heads.specs.Heads.{head_at, heads_of};
ghost use Rattle.year_heads.specs.Asks.{HoldsHeads};

use book::Book;
use record_table::CATEGORIES;
use year_months::{MONTHS_IN_YEAR, Year};

// The sum of the year's twelve heads of each category, first to last. All lines of a category share it.
pub fn by_category(book: &Book<'_>, year: Year) -> [u64; CATEGORIES]
    ensures { HoldsHeads book.now year result }
{
    std::array::from_fn(|passed| of_category(book, year, passed + 1))
}

#[tactic(auto, using(laws::proofs::Counting::sum_none, laws::proofs::Counting::sum_more), unfolding(crate::specs::Heads::heads_of))]
fn of_category(book: &Book<'_>, year: Year, category: usize) -> u64
    requires category_within { category ≤ categories }
    ensures { result ≡ heads_of book.now year category }
{
    book.known();
    let before = year.months_before();
    let mut heads = 0;
    for month in 1..=MONTHS_IN_YEAR {
        heads += head(book, category, before + month);
    }
    heads
}

#[tactic(auto, unfolding(crate::specs::Heads::head_at))]
fn head(book: &Book<'_>, category: usize, month: usize) -> u64
    requires within { (category ≤ categories) × (month ≤ months) }
    ensures { result ≡ head_at book.now category month }
{
    book_herd::head(book, category, month).unwrap_or(0)
}
