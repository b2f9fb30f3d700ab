// The lines of a year: Equation 5.3 for the anaerobic ones, month by month from the first, and Equation 5.4
// for the others.
// Months, lines and categories are numbers that a clause ranges, as in `book_slots`, which says why.
#![tactic(auto)]

ghost use Rattle.std.specs.Prelude.{◌≡◌, ℕ, ◌+◌, ◌-◌, ◌≤◌, ◌<◌, ◌^◌, Some};
ghost use Rattle.units.specs.Grams.{solids};
ghost use Rattle.calendar.specs.Days.{months_in_year};
ghost use Rattle.lagoon_month.specs.Asks.{heads_most};
ghost use Rattle.lagoon_month.specs.declared.Month.{Month};
ghost use Rattle.lagoon_run.specs.Run.{no_month};
ghost use Rattle.record_table.specs.Table.{lines, categories};
ghost use Rattle.book_herd.specs.Herd.{system_of, line_of};
ghost use Rattle.year_months.specs.Series.{months_before, days_at, factor_at};
ghost use Rattle.year_months.specs.Asks.{InPeriod, HoldsYear};
ghost use Rattle.year_heads.specs.Heads.{heads_of};
ghost use Rattle.year_heads.specs.Asks.{HoldsHeads};
ghost use Rattle.year_lines.specs.Lines.{anaerobic, entered_at, month_at, other_of, line_in, all, sums_of};
ghost use Rattle.year_lines.specs.Asks.{Handed, Standings};

use book::Book;
use book_herd::Line;
use lagoon_month::{Month, Standing};
use record_table::CATEGORIES;
use units::Solids;
use year_months::{MONTHS_IN_YEAR, Year};
use year_sums::Sums;

const LINES: usize = record_table::LINES;

// LN's system 0: a byte of the record. The year asks a line's system in one match, and an enum would be made by the same match.
const ANAEROBIC: u64 = 0;

// 12, for the average of the year's heads, times 10,000,000, which brings the fields' units to grams.
const DAILY_PARTS: u64 = 120_000_000;

// A year counts 365 days, in leap years too.
const DAYS_IN_YEAR: u64 = 365;

// A conversion factor counts ten-thousandths.
const CONVERSION_PARTS: u64 = 10_000;

// All lines of a year. The years before it are walked first, from empty lagoons, for what each line hands on and no more.
pub fn sums_of(book: &Book<'_>, year: Year) -> Sums
    ensures value { result ≡ sums_of book.now year all }
    ensures small { result.baseline.0 < 2 ^ 60 }
{
    let mut standings = [Standing::empty(); LINES];
    for earlier in 1..year.number() {
        let handed_on = YearFigures::of(book, Year::of(earlier)).hand_on(standings);
        standings = handed_on;
    }
    YearFigures::of(book, year).sums_from(standings)
}

// A year of a book, with what it has for all its lines alike: the sum of each category's heads, and the days and
// the factor of each month, which stand apart as `year_months` gives them. It is worked out once.
#[derive(Drop)]
struct YearFigures<'a, 'b> {
    book: &'a Book<'b>,
    year: Year,
    heads: [u64; CATEGORIES],
    days: [u64; MONTHS_IN_YEAR],
    factors: [u64; MONTHS_IN_YEAR],
    ghost in_period: { InPeriod year },
    ghost has_heads: { HoldsHeads book.now year heads },
    ghost has_days: { HoldsYear ℕ 0 year (days_at book.now) days },
    ghost has_factors: { HoldsYear ℕ 0 year (factor_at book.now) factors },
}

impl<'a, 'b> YearFigures<'a, 'b> {
    fn of(book: &'a Book<'b>, year: Year) -> YearFigures<'a, 'b>
        ensures { (result.book.now ≡ book.now) × (result.year ≡ year) }
    {
        let _ = year.number();
        YearFigures {
            book,
            year,
            heads: year_heads::by_category(book, year),
            days: year_months::days(book, year),
            factors: year_months::factors(book, year),
        }
    }

    // What all lines hand on, each from the standing that the year before handed on, whose place it takes.
    #[tactic(auto, using(crate::proofs::Carrying::renewed_none, crate::proofs::Carrying::renewed_all))]
    fn hand_on(&self, before: [Standing; LINES]) -> [Standing; LINES]
        requires standings { Standings self.now.book.now (self.now.year - 1) before }
        ensures { Standings self.now.book.now self.now.year result }
    {
        let mut standings = before;
        for (passed, standing) in standings.iter_mut().enumerate() {
            *standing = self.line_hands_on(passed + 1, *standing);
        }
        standings
    }

    // What one line hands on, month by month: nothing else is asked of an earlier year. A line of another system than the anaerobic has no
    // standing: the one that it is given is handed on as it is, and nothing reads it. The months are counted, since a month's number asks for
    // its entry, its factor and its drain mark.
    fn line_hands_on(&self, line: usize, from: Standing) -> Standing
        requires line_of_book { line ≤ lines }
        requires handed { Handed self.now.book.now (self.now.year - 1) line from }
        ensures { Handed self.now.book.now self.now.year line result }
    {
        let Some(ANAEROBIC) = book_herd::system(self.book, line) else {
            return from;
        };
        self.book.known();
        let numbers = book_herd::line_at(self.book, line);
        let mut standing = from;
        let entered = self.entered_by_line(line, numbers);
        for passed in 0..MONTHS_IN_YEAR {
            let month = self.month_of_line(line, entered[passed], passed);
            standing = standing.month(month).next;
        }
        standing
    }

    // The sums of all lines, each from the standing that the year before handed on.
    #[tactic(auto, using(crate::proofs::Bounds::sums_fit, crate::proofs::Bounds::sums_most_lem), unfolding(crate::specs::Lines::sums_over))]
    fn sums_from(&self, before: [Standing; LINES]) -> Sums
        requires standings { Standings self.now.book.now (self.now.year - 1) before }
        ensures sums { result ≡ sums_of self.now.book.now self.now.year all }
        ensures small { result.baseline.0 < 2 ^ 60 }
    {
        self.book.known();
        let mut sums = Sums::nothing();
        for (passed, standing) in before.iter().enumerate() {
            sums = sums.plus(self.line_from(passed + 1, *standing));
        }
        sums
    }

    // One line, by its system.
    #[tactic(auto, using(crate::proofs::Own::own, crate::proofs::Bounds::months_fit, crate::proofs::Bounds::year_run, crate::proofs::Bounds::degraded_fits, crate::proofs::BySystem::absent_is, crate::proofs::BySystem::anaerobic_is, crate::proofs::BySystem::other_is))]
    fn line_from(&self, line: usize, from: Standing) -> Sums
        requires line_of_book { line ≤ lines }
        requires handed { Handed self.now.book.now (self.now.year - 1) line from }
        ensures { result ≡ line_in self.now.book.now self.now.year line }
    {
        self.book.known();
        let numbers = book_herd::line_at(self.book, line);
        match book_herd::system(self.book, line) {
            None => Sums::nothing(),
            Some(ANAEROBIC) => {
                let totals = lagoon_run::run(from, &self.months_of_line(line, numbers));
                Sums::anaerobic(totals, numbers.b0)
            }
            Some(_) => other(numbers, self.own_heads(numbers)),
        }
    }

    // The months of an anaerobic line in the year, first to last.
    #[tactic(auto, using(year_months::proofs::Arrays::array_begins, year_months::proofs::Arrays::array_at))]
    fn months_of_line(&self, line: usize, numbers: Line) -> [Month; MONTHS_IN_YEAR]
        requires line_of_book { line ≤ lines }
        requires is_anaerobic { system_of self.now.book.now line ≡ Some anaerobic }
        requires its_numbers { numbers ≡ line_of self.now.book.now line }
        ensures { HoldsYear Month no_month self.now.year (month_at self.now.book.now line) result }
    {
        let entered = self.entered_by_line(line, numbers);
        let none = Month {
            entered: Solids::of_grams(0),
            factor: 0,
            drained: false,
        };
        let mut months = [none; MONTHS_IN_YEAR];
        for (passed, month) in months.iter_mut().enumerate() {
            *month = self.month_of_line(line, entered[passed], passed);
        }
        months
    }

    // A month of such a line, after so many of the year, by what enters in it.
    #[tactic(auto, using(crate::proofs::Entered::month_is))]
    fn month_of_line(&self, line: usize, entered: Solids, passed: usize) -> Month
        requires line_of_book { line ≤ lines }
        requires of_year { passed < months_in_year }
        requires its_entry { entered ≡ entered_at self.now.book.now line (months_before self.now.year + passed + 1) }
        ensures { result ≡ month_at self.now.book.now line (months_before self.now.year + passed + 1) }
    {
        let month = self.year.months_before() + passed + 1;
        Month {
            entered,
            factor: self.factors[passed],
            drained: book_herd::drained(self.book, line, month),
        }
    }

    // What such a line enters in the months of the year, first to last. It is worked out before the months are walked, since the compiler
    // unrolls two short loops and not a long one (docs/SPEED.md).
    fn entered_by_line(&self, line: usize, numbers: Line) -> [Solids; MONTHS_IN_YEAR]
        requires line_of_book { line ≤ lines }
        requires is_anaerobic { system_of self.now.book.now line ≡ Some anaerobic }
        requires its_numbers { numbers ≡ line_of self.now.book.now line }
        ensures { HoldsYear Solids (solids 0) self.now.year (entered_at self.now.book.now line) result }
    {
        std::array::from_fn(|passed| self.entered_in_month(line, numbers, passed))
    }

    // What it enters in a month, after so many of the year.
    #[tactic(auto, using(crate::proofs::Own::own, crate::proofs::Entered::entry_is))]
    fn entered_in_month(&self, line: usize, numbers: Line, passed: usize) -> Solids
        requires line_of_book { line ≤ lines }
        requires is_anaerobic { system_of self.now.book.now line ≡ Some anaerobic }
        requires its_numbers { numbers ≡ line_of self.now.book.now line }
        requires of_year { passed < months_in_year }
        ensures { result ≡ entered_at self.now.book.now line (months_before self.now.year + passed + 1) }
    {
        self.book.known();
        lagoon_month::entered(
            self.own_heads(numbers),
            numbers.solids,
            numbers.mass,
            numbers.share,
            self.days[passed],
        )
    }

    // The sum of the year's heads of a line's category.
    fn own_heads(&self, numbers: Line) -> u64
        requires { (1 ≤ numbers.category) × (numbers.category ≤ categories) }
        ensures { result ≡ heads_of self.now.book.now self.now.year numbers.category }
    {
        self.heads[numbers.category as usize - 1]
    }
}

// A line of another system, by the sum of the year's heads: each division rounds down.
#[tactic(auto, unfolding(crate::specs::Lines::converted_of), using(crate::proofs::Bounds::converted_most, crate::proofs::Bounds::daily_most, crate::proofs::Bounds::product_year, lagoon_month::proofs::Entry::four))]
fn other(numbers: Line, heads: u64) -> Sums
    requires in_ranges { (heads ≤ heads_most) × (numbers.solids ≤ 2000) × (numbers.mass ≤ 20000) × (numbers.share ≤ 10000) }
    requires rest_in_ranges { (numbers.b0 ≤ 100) × (numbers.conversion ≤ 10000) }
    ensures { result ≡ other_of heads numbers }
{
    let daily = heads * numbers.solids * numbers.mass * numbers.share / DAILY_PARTS;
    let yearly = Solids::of_grams(daily * DAYS_IN_YEAR);
    let degraded = yearly.share(numbers.conversion, CONVERSION_PARTS);
    Sums::baseline_alone(degraded.b0_rule(numbers.b0, units::POTENTIAL))
}
