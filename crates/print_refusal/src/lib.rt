// A refusal as it is printed: of a record, of a year or of a meter's month. It is laid, and not written by `Display`, as `print_page` says.
#![tactic(auto)]

ghost use Rattle.std.specs.Prelude.{◌++◌, ◌+◌, ◌≤◌, length};
ghost use Rattle.print_page.specs.Number.{word};
ghost use Rattle.print_page.specs.Text.{figure};
ghost use Rattle.print_page.specs.Page.{Lays};
ghost use Rattle.print_refusal.specs.Text.{refusal_text};

use refusals::Refusal;

// Lays its text from a place on, leaves every other byte of the page as it was, and returns the place after it.
#[tactic(auto, unfolding(crate::specs::Text::refusal_text))]
pub fn lay_refusal(page: &mut [u8], at: usize, refusal: Refusal) -> usize
    requires { at + length (refusal_text refusal) ≤ length page.old }
    ensures { Lays page.old at (refusal_text refusal) result page.new }
{
    lay_numbered(page, at, refusal.reason.number(), refusal.place)
}

// Lays the same text of any number that a byte holds, whether a reason has it or none.
#[tactic(auto, using(crate::proofs::Lengths::numbered_length))]
pub fn lay_numbered(page: &mut [u8], at: usize, number: u8, place: usize) -> usize
    requires { at + length (figure "refused " number ++ figure " at " place ++ word "\n") ≤ length page.old }
    ensures { Lays page.old at (figure "refused " number ++ figure " at " place ++ word "\n") result page.new }
{
    let numbered = print_page::lay_figure(page, at, b"refused ", u64::from(number));
    let placed = print_page::lay_figure(page, numbered, b" at ", place as u64);
    print_page::lay_word(page, placed, b"\n")
}
