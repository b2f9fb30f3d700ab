// What the year program prints for a book: its years from the first to the last, or to the first that is refused. They are
// laid as bytes into a lent page, whose other bytes stay, and the place after them is returned: no `Display` promises that, as `print_page` says.
#![tactic(auto)]

ghost use Rattle.std.specs.Prelude.{◌≤◌, length};
ghost use Rattle.print_page.specs.Page.{Lays};
ghost use Rattle.print_years.specs.Text.{printed};
ghost use Rattle.print_years.specs.Page.{page_bytes};

use book::Book;

// The years that are printed: 1 to 10.
const YEARS: u64 = 10;

// The most bytes of a year's four lines, and of all that is printed for a book.
const YEAR_BYTES: usize = 286;

pub const PAGE_BYTES: usize = YEARS as usize * YEAR_BYTES;

// The years of a book, each worked out by itself, from the page's first byte on. The first that is refused
// prints its refusal and is the last.
pub fn lay_years(book: &Book<'_>, page: &mut [u8]) -> usize
    requires { page_bytes ≤ length page.old }
    ensures { Lays page.old 0 (printed book.now) result page.new }
{
    let mut at = 0;
    for year in 1..=YEARS {
        match year::year(book, year) {
            Ok(figures) => {
                at = print_year::lay_year(page, at, year, figures);
            }
            Err(refusal) => {
                return print_refusal::lay_refusal(page, at, refusal);
            }
        }
    }
    at
}
