// What the programs print, laid as bytes into a lent page. Each function lays its text from a place on, leaves every
// other byte of the page as it was, and returns the place after the text.
//
// No `Display` and `write!`: these contracts promise that a text is laid wherever it has room, and the library's `write!` says what was written only where
// its answer is `Ok`; no contract says when that is. Nor is a page a type with its place in it: each contract says where its text ends.
//
// Digits are laid one by one, and not copied from the library's `itoa`: a copy whose length is not known before it runs calls the C library's `memmove`, which
// the programs do without.
#![tactic(auto)]

ghost use Rattle.std.specs.Prelude.{◌≡◌, [], ◌∷◌, ◌++◌, ◌+◌, ◌≤◌, ◌<◌, length};
ghost use Rattle.print_page.specs.Number.{base, digit, decimal, signed};
ghost use Rattle.print_page.specs.Page.{Lays};

const BASE: u64 = 10;

// A word and the figure after it.
pub fn lay_figure(page: &mut [u8], at: usize, word: &[u8], figure: u64) -> usize
    requires { at + length (word.now ++ decimal figure) ≤ length page.old }
    ensures { Lays page.old at (word.now ++ decimal figure) result page.new }
{
    let named = lay_word(page, at, word);
    lay_decimal(page, named, figure)
}

// A word, as its bytes stand.
pub fn lay_word(page: &mut [u8], at: usize, word: &[u8]) -> usize
    requires { at + length word.now ≤ length page.old }
    ensures { Lays page.old at word.now result page.new }
{
    let end = at + word.len();
    page[at..end].copy_from_slice(word);
    end
}

// A number in decimal, with a minus sign where it is below 0.
pub fn lay_signed(page: &mut [u8], at: usize, number: i64) -> usize
    requires { at + length (signed number) ≤ length page.old }
    ensures { Lays page.old at (signed number) result page.new }
{
    if number < 0 {
        let minus = lay_word(page, at, b"-");
        return lay_decimal(page, minus, number.unsigned_abs());
    }
    lay_decimal(page, at, number.unsigned_abs())
}

// A number in decimal. Its digits are laid as they are defined: those of a tenth of it, and then its last.
fn lay_decimal(page: &mut [u8], at: usize, number: u64) -> usize
    requires { at + length (decimal number) ≤ length page.old }
    ensures { Lays page.old at (decimal number) result page.new }
{
    if number < BASE {
        return lay_digit(page, at, number);
    }
    let last = lay_decimal(page, at, number / BASE);
    lay_digit(page, last, number % BASE)
}

fn lay_digit(page: &mut [u8], at: usize, value: u64) -> usize
    requires { (value < base) × (at < length page.old) }
    ensures { Lays page.old at (digit value ∷ []) result page.new }
{
    page[at] = b'0' + value as u8;
    at + 1
}
