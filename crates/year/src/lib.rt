// A year of a book: what it lacks, its lines and its credit.
#![tactic(auto)]

ghost use Rattle.std.specs.Prelude.{◌≡◌};
ghost use Rattle.year.specs.Figures.{figures_of};
ghost use Rattle.year.specs.Answer.{answer_of};

use book::Book;
use refusals::{Reason, Refusal};
use units::{Co2e, Solids};
use year_months::Year;

// The years of the crediting period.
const FIRST_YEAR: u64 = 1;

const LAST_YEAR: u64 = 10;

// The year's figures: solids over the anaerobic lines, with what is carried past the year's end; carbon
// dioxide equivalent; and tonnes.
#[derive(Clone, Copy)]
pub struct Figures {
    pub entered: Solids,
    pub degraded: Solids,
    pub removed: Solids,
    pub carried: Solids,
    pub baseline: Co2e,
    pub project_methane: Co2e,
    pub metered: Co2e,
    pub net: i64,
    pub credited: u64,
}

// A year is refused if it is not a year of the crediting period (9), if it lacks a record (8), before anything is
// added up, or for a category's shares (7); else its figures are stated. No sum of it can pass 2^63, so that nothing
// looks for it (12).
#[tactic(auto, using(crate::proofs::Never::never), unfolding(crate::specs::Answer::answer_of, crate::specs::Answer::whole_year, year_shares::specs::Shares::fit_of))]
pub fn year(book: &Book<'_>, year: u64) -> Result<Figures, Refusal>
    ensures { result ≡ answer_of book.now year }
{
    book.known();
    if !(FIRST_YEAR..=LAST_YEAR).contains(&year) {
        return Err(Reason::NoSuchYear.at(0));
    }
    let counted = Year::of(year as usize);
    // The paper names this form for a year without its records: its refusal leaves before any sum is taken.
    let found = year_needs::complete(book, counted);
    let Ok(()) = found else {
        return Err(found.unwrap_err());
    };
    year_shares::fit(book)?;
    Ok(figures_of(book, counted))
}

fn figures_of(book: &Book<'_>, year: Year) -> Figures
    ensures { result ≡ figures_of book.now year }
{
    let sums = year_lines::sums_of(book, year);
    let operator = year_credit::operator_of(book, year);
    let net = tonnes::net(year_credit::total(sums.baseline, operator));
    Figures {
        entered: sums.entered,
        degraded: sums.degraded,
        removed: sums.removed,
        carried: sums.carried,
        baseline: sums.baseline,
        project_methane: operator.project_methane,
        metered: operator.metered(),
        net,
        credited: tonnes::credited(net),
    }
}
