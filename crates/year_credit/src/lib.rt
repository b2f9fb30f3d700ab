// The year's credit: what the operator entered, the lesser of modelled and metered, and the total.
// Months, lines and categories are numbers that a clause ranges, as in `book_slots`, which says why.
#![tactic(auto)]

ghost use Rattle.std.specs.Prelude.{◌≡◌, ◌≤◌, ◌<◌, ◌^◌, pos};
ghost use Rattle.record_table.specs.Table.{months};
ghost use Rattle.year_months.specs.Series.{amount_of};
ghost use Rattle.year_credit.specs.Credit.{grams_of, destroyed_at, operator_of, modelled_of, metered_of, lesser_of, total_of};
ghost use Rattle.year_credit.specs.Asks.{sums_most, month_most, OperatorFits};

use book::Book;
use units::{Co2e, Methane};
use year_months::{MONTHS_IN_YEAR, Year};

// PE counts kilograms.
const KILOGRAM: u64 = 1_000;

// What the operator entered: project methane, the baseline's and the project's carbon dioxide, and what
// the devices destroyed. That they are small (`OperatorFits`) is no fact of the type: the definition makes an `Operator` of
// any bytes, and those of a valid book alone are small.
#[derive(Clone, Copy)]
pub struct Operator {
    pub project_methane: Co2e,
    pub baseline_co2: Co2e,
    pub project_co2: Co2e,
    pub destroyed: Methane,
}

// What the operator entered for the year, its twelve months together.
#[tactic(auto, using(laws::proofs::Counting::sum_none, laws::proofs::Counting::sum_more, crate::proofs::Ranges::project_methane_most, crate::proofs::Ranges::baseline_co2_most, crate::proofs::Ranges::project_co2_most))]
pub fn operator_of(book: &Book<'_>, year: Year) -> Operator
    ensures value { result ≡ operator_of book.now year }
    ensures fits { OperatorFits result }
{
    book.known();
    let before = year.months_before();
    let mut project_methane = Co2e::of_grams(0);
    let mut baseline_co2 = Co2e::of_grams(0);
    let mut project_co2 = Co2e::of_grams(0);
    let mut destroyed = Methane::of_grams(0);
    for nth in 1..=MONTHS_IN_YEAR {
        let month = before + nth;
        project_methane = project_methane.plus(grams(book_slots::project_methane(book, month)));
        baseline_co2 = baseline_co2.plus(grams(book_slots::baseline_co2(book, month)));
        project_co2 = project_co2.plus(grams(book_slots::project_co2(book, month)));
        destroyed = destroyed.plus(destroyed_in(book, month));
    }
    Operator {
        project_methane,
        baseline_co2,
        project_co2,
        destroyed,
    }
}

fn grams(kilograms: Option<u64>) -> Co2e
    requires { amount_of kilograms < 2 ^ 32 }
    ensures value { result ≡ grams_of kilograms }
    ensures small { result.0 < month_most }
{
    Co2e::of_grams(KILOGRAM * kilograms.unwrap_or(0))
}

// All devices; one without MT counts 0.
#[tactic(auto, using(laws::proofs::Counting::sum_none, laws::proofs::Counting::sum_more, crate::proofs::Ranges::destroyed_most_lem), unfolding(crate::specs::Credit::destroyed_at))]
fn destroyed_in(book: &Book<'_>, month: usize) -> Methane
    requires month_within { month ≤ months }
    ensures value { result ≡ destroyed_at book.now month }
    ensures small { result.0 < month_most }
{
    book.known();
    let mut destroyed = Methane::of_grams(0);
    for device in 1..=record_table::DEVICES {
        let grams = book_slots::destroyed(book, month, device).unwrap_or(0);
        destroyed = destroyed.plus(Methane::of_grams(grams));
    }
    destroyed
}

// The methane reduction, plus the baseline's carbon dioxide, less the project's. That a mass is below `sums_most` is a fact of
// this one mass, which a `Co2e` need not have: it may be of any number of grams.
pub fn total(baseline: Co2e, operator: Operator) -> i64
    requires baseline_fits { baseline.0 < sums_most }
    requires operator_fits { OperatorFits operator }
    ensures { result ≡ total_of baseline operator }
{
    let reduction = lesser(modelled(baseline, operator), signed(operator.metered()));
    reduction + signed(operator.baseline_co2) - signed(operator.project_co2)
}

fn modelled(baseline: Co2e, operator: Operator) -> i64
    requires baseline_fits { baseline.0 < sums_most }
    requires operator_fits { OperatorFits operator }
    ensures { result ≡ modelled_of baseline operator }
{
    signed(baseline) - signed(operator.project_methane)
}

#[tactic(auto, using(crate::proofs::Signs::lesser_min))]
fn lesser(modelled: i64, metered: i64) -> i64
    ensures { result ≡ lesser_of modelled metered }
{
    modelled.min(metered)
}

// The modelled figure and the total may be below 0.
fn signed(mass: Co2e) -> i64
    requires { mass.0 < sums_most }
    ensures { result ≡ pos mass.0 }
{
    mass.grams().cast_signed()
}

impl Operator {
    // The destroyed methane, by the potential.
    pub fn metered(self) -> Co2e
        requires { OperatorFits self }
        ensures { result ≡ metered_of self }
    {
        let destroyed = self.destroyed;
        destroyed.warming(units::POTENTIAL)
    }
}
