// The shares of a category, which have to fit into the whole: refusal 7.
#![tactic(auto)]

ghost use Rattle.std.specs.Prelude.{◌≡◌};
ghost use Rattle.record_table.specs.Table.{lines};
ghost use Rattle.year_shares.specs.Shares.{fit_of};
ghost use Rattle.year_shares.specs.Asks.{Shared};

use book::Book;
use refusals::{Reason, Refusal};

// Shares count ten-thousandths.
const WHOLE_SHARE: u64 = 10_000;

// Room for a sum at each category number. The entry at 0 is for a line that is not in the book; nothing reads it.
const CATEGORY_SUMS: usize = record_table::CATEGORIES + 1;

// Whether the shares of each category fit into the whole: else the lowest category whose shares do not.
pub fn fit(book: &Book<'_>) -> Result<(), Refusal>
    ensures { result ≡ fit_of book.now }
{
    let shares = shares(book);
    match shares[1..].iter().position(|share| WHOLE_SHARE < *share) {
        Some(passed) => Err(Reason::OverShared.at(passed + 1)),
        None => Ok(()),
    }
}

// The sum of each category's shares.
#[tactic(auto, using(crate::proofs::Ranges::share_ranged))]
fn shares(book: &Book<'_>) -> [u64; CATEGORY_SUMS]
    ensures { Shared book.now lines result }
{
    book.known();
    let mut shares = [0u64; CATEGORY_SUMS];
    // A line is asked for by its number, and its category is one.
    for line in 1..=record_table::LINES {
        let numbers = book_herd::line_at(book, line);
        shares[numbers.category as usize] += numbers.share;
    }
    shares
}
