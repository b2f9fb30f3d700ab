// The lines and the heads that a book holds: each field of LN and of HD, and the drain marks of a line. Lines, categories and months are numbers, as in
// `book_slots`.
#![tactic(auto, using(book_slots::proofs::Inside::inside))]

ghost use Rattle.std.specs.Prelude.{◌≡◌, [], ◌∷◌, ◌+◌, ◌*◌, ◌≤◌};
ghost use Rattle.record_table.specs.Table.{lines, categories, months, ln, record_bytes};
ghost use Rattle.number_bytes.specs.Number.{number_at};
ghost use Rattle.record_table.specs.Slot.{slot_of};
ghost use Rattle.book_slots.specs.Field.{seen_at};
ghost use Rattle.book_herd.specs.Herd.{system_of, category_of, line_of, head_of, drained_of};

use book::Book;
use record_judge::rows;

#[derive(Clone, Copy)]
pub struct Line {
    pub system: u64,
    pub category: u64,
    pub solids: u64,
    pub mass: u64,
    pub share: u64,
    pub b0: u64,
    pub conversion: u64,
}

// A function for each field that is read alone: its name is the field's, its contract says where 01's table has it, and the body is the one `book_slots::read`.
// One generic function for them all would promise what `read` does: it could not say which field of the paper's table it reads.
pub fn system(book: &Book<'_>, line: usize) -> Option<u64>
    requires { line ≤ lines }
    ensures { result ≡ system_of book.now line }
{
    let slot = record_table::line_slot(line);
    book_slots::read(book, slot, rows::LN_SYSTEM)
}

pub fn category(book: &Book<'_>, line: usize) -> Option<u64>
    requires { line ≤ lines }
    ensures { result ≡ category_of book.now line }
{
    let slot = record_table::line_slot(line);
    book_slots::read(book, slot, rows::LN_CATEGORY)
}

// All numbers of a line at once. That they are 0 where no LN stands is what the contract promises (docs/CONTRACTS.md), and `system` tells whether one does.
pub fn line_at(book: &Book<'_>, line: usize) -> Line
    requires { line ≤ lines }
    ensures { result ≡ line_of book.now line }
{
    let slot = record_table::line_slot(line);
    Line {
        system: book_slots::field(book, slot, rows::LN_SYSTEM),
        category: book_slots::field(book, slot, rows::LN_CATEGORY),
        solids: book_slots::field(book, slot, rows::LN_TABLE_SOLIDS),
        mass: book_slots::field(book, slot, rows::LN_MASS),
        share: book_slots::field(book, slot, rows::LN_SHARE),
        b0: book_slots::field(book, slot, rows::LN_B0),
        conversion: book_slots::field(book, slot, rows::LN_CONVERSION_FACTOR),
    }
}

pub fn head(book: &Book<'_>, category: usize, month: usize) -> Option<u64>
    requires { (category ≤ categories) × (month ≤ months) }
    ensures { result ≡ head_of book.now category month }
{
    book_slots::read(
        book,
        record_table::head_slot(category, month),
        rows::HD_HEAD,
    )
}

pub fn drained(book: &Book<'_>, line: usize, month: usize) -> bool
    requires { (line ≤ lines) × (month ≤ months) }
    ensures { result ≡ drained_of book.now line month }
{
    book_slots::filled(book, record_table::drain_slot(line, month))
}
