// The four lines of a stated year, laid as bytes into a lent page. Each function lays its text from a place on, leaves
// every other byte of the page as it was, and returns the place after the text: no `Display` promises that, as `print_page` says.
#![tactic(auto)]

ghost use Rattle.std.specs.Prelude.{◌+◌, ◌≤◌, length};
ghost use Rattle.print_page.specs.Page.{Lays};
ghost use Rattle.print_year.specs.Text.{heading_text, solids_text, grams_text, tonnes_text, year_text};

use year::Figures;

#[tactic(auto, using(crate::proofs::Lengths::lines_length))]
pub fn lay_year(page: &mut [u8], at: usize, year: u64, figures: Figures) -> usize
    requires { at + length (year_text year figures) ≤ length page.old }
    ensures { Lays page.old at (year_text year figures) result page.new }
{
    let second = lay_heading(page, at, year);
    let third = lay_solids(page, second, figures);
    let fourth = lay_grams(page, third, figures);
    lay_tonnes(page, fourth, figures)
}

#[tactic(auto, using(crate::proofs::Lengths::year_length))]
fn lay_heading(page: &mut [u8], at: usize, year: u64) -> usize
    requires { at + length (heading_text year) ≤ length page.old }
    ensures { Lays page.old at (heading_text year) result page.new }
{
    let numbered = print_page::lay_figure(page, at, b"year ", year);
    print_page::lay_word(page, numbered, b"\n")
}

#[tactic(auto, using(crate::proofs::Lengths::solids_length))]
fn lay_solids(page: &mut [u8], at: usize, figures: Figures) -> usize
    requires { at + length (solids_text figures) ≤ length page.old }
    ensures { Lays page.old at (solids_text figures) result page.new }
{
    let entered = print_page::lay_figure(page, at, b"entered ", figures.entered.grams());
    let degraded = print_page::lay_figure(page, entered, b" degraded ", figures.degraded.grams());
    let removed = print_page::lay_figure(page, degraded, b" removed ", figures.removed.grams());
    let carried = print_page::lay_figure(page, removed, b" carried ", figures.carried.grams());
    print_page::lay_word(page, carried, b"\n")
}

#[tactic(auto, using(crate::proofs::Lengths::grams_length))]
fn lay_grams(page: &mut [u8], at: usize, figures: Figures) -> usize
    requires { at + length (grams_text figures) ≤ length page.old }
    ensures { Lays page.old at (grams_text figures) result page.new }
{
    let baseline = print_page::lay_figure(page, at, b"baseline ", figures.baseline.grams());
    let project = print_page::lay_figure(
        page,
        baseline,
        b" project ",
        figures.project_methane.grams(),
    );
    let metered = print_page::lay_figure(page, project, b" metered ", figures.metered.grams());
    print_page::lay_word(page, metered, b"\n")
}

#[tactic(auto, using(crate::proofs::Lengths::tonnes_length))]
fn lay_tonnes(page: &mut [u8], at: usize, figures: Figures) -> usize
    requires { at + length (tonnes_text figures) ≤ length page.old }
    ensures { Lays page.old at (tonnes_text figures) result page.new }
{
    let named = print_page::lay_word(page, at, b"net ");
    let net = print_page::lay_signed(page, named, figures.net);
    let credited = print_page::lay_figure(page, net, b" credited ", figures.credited);
    print_page::lay_word(page, credited, b"\n")
}
