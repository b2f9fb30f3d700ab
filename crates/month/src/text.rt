// What the month prints. It is laid, and not written by `Display`, as `print_page` says.
ghost use Rattle.std.specs.Prelude.{◌≤◌, length};
ghost use Rattle.print_page.specs.Page.{Lays};
ghost use Rattle.month.specs.Text.{destroyed_text, answer_text, text_bytes};

use refusals::Refusal;
use units::Methane;

pub const TEXT_BYTES: usize = 35;

// Lays the text at the start of a page, and returns its length.
#[tactic(auto, using(print_refusal::proofs::Lengths::refusal_most))]
pub fn lay_answer(answer: Result<Methane, Refusal>, page: &mut [u8]) -> usize
    requires { text_bytes ≤ length page.old }
    ensures { Lays page.old 0 (answer_text answer) result page.new }
{
    match answer {
        Ok(methane) => lay_destroyed(methane.grams(), page),
        Err(refusal) => print_refusal::lay_refusal(page, 0, refusal),
    }
}

#[tactic(auto, using(print_page::proofs::Lengths::wide))]
fn lay_destroyed(grams: u64, page: &mut [u8]) -> usize
    requires { text_bytes ≤ length page.old }
    ensures { Lays page.old 0 (destroyed_text grams) result page.new }
{
    let named = print_page::lay_figure(page, 0, b"destroyed ", grams);
    print_page::lay_word(page, named, b"\n")
}
