// The book of records: lent memory, sixteen bytes a slot. One that is written stays lent bytes, as C lends it, and each clause asks what they have to be; `Book`
// is one that is read.
//
// A slot is the number that `record_table` gives of a key, and of a key past the table's ends too: that it is one of the book's is what a clause asks.
#![tactic(auto)]

ghost use Rattle.std.specs.Prelude.{◌≡◌, ◌<◌, Ok, length};
ghost use Rattle.record_table.specs.Slot.{slots};
ghost use Rattle.record_judge.specs.Record.{judged};
ghost use Rattle.record_judge.specs.declared.Change.TheVariants.{Put};
ghost use Rattle.book.specs.Book.{book_bytes, nothing, book_with, book_filled, answer_by, book_by, answer_of, book_after, empty_book};
ghost use Rattle.book.specs.Valid.{Valid};
ghost use Rattle.book.specs.Run.{records_of, answer_all, book_all};

mod read;

pub use read::Book;
use record_judge::Change;
use record_table::RECORD;
use refusals::{Reason, Refusal};

pub const BYTES: usize = record_table::SLOTS * RECORD;

// Makes lent memory an empty book.
#[tactic(auto, unfolding(crate::specs::Book::empty_book))]
pub fn empty(book: &mut [u8])
    requires { length book.old ≡ book_bytes }
    ensures { book.new ≡ empty_book }
{
    book.fill(0);
}

// Posts a record: carries out what it is judged to do, or changes nothing.
#[tactic(auto, unfolding(crate::specs::Book::answer_of, crate::specs::Book::book_after, crate::specs::Book::answer_by, crate::specs::Book::book_by), using(record_judge::proofs::Keys::put_below, record_judge::proofs::Keys::emptied_below))]
pub fn post(book: &mut [u8], posted: &[u8]) -> Result<(), Refusal>
    requires { Valid book.old }
    ensures value { result ≡ answer_of book.old posted.now }
    ensures after { book.new ≡ book_after book.old posted.now }
{
    match record_judge::judge(posted)? {
        Change::Put(slot) => put(book, slot, posted),
        Change::Empty(slot) => {
            write(book, slot, &[0u8; RECORD]);
            Ok(())
        }
    }
}

// Puts a record's bytes into its slot: of a defaults line, those of the LN that it stands for (02, (i)).
#[tactic(auto, unfolding(crate::specs::Book::book_by, crate::specs::Book::answer_by), using(record_judge::proofs::Taken::put_long, record_judge::proofs::StoredBytes::put_named, record_judge::proofs::StoredBytes::stored_line, record_judge::proofs::StoredBytes::stored_itself))]
fn put(book: &mut [u8], slot: usize, posted: &[u8]) -> Result<(), Refusal>
    requires { (length book.old ≡ book_bytes) × (slot < slots) × (judged posted.now ≡ Ok (Put slot)) }
    ensures value { result ≡ answer_by book.old (Ok (Put slot)) }
    ensures after { book.new ≡ book_by book.old posted.now (Ok (Put slot)) }
{
    // Nothing but sixteen bytes is judged to be put.
    let record = posted.as_array().unwrap();
    if record_judge::is_defaults(record) {
        return fill(book, slot, &record_defaults::line(record));
    }
    fill(book, slot, record)
}

// Fills a slot, where it is not filled.
#[tactic(auto, unfolding(crate::specs::Book::free, crate::specs::Book::answer_by))]
fn fill(book: &mut [u8], slot: usize, content: &[u8; RECORD]) -> Result<(), Refusal>
    requires { (length book.old ≡ book_bytes) × (slot < slots) }
    ensures value { result ≡ answer_by book.old (Ok (Put slot)) }
    ensures after { book.new ≡ book_filled book.old slot content.now }
{
    if book[slot * RECORD] != 0 {
        return Err(Reason::AlreadyFilled.at(0));
    }
    write(book, slot, content);
    Ok(())
}

#[tactic(auto, using(crate::proofs::Slot::written))]
fn write(book: &mut [u8], slot: usize, content: &[u8; RECORD])
    requires { (length book.old ≡ book_bytes) × (slot < slots) }
    ensures { book.new ≡ book_with book.old slot content.now }
{
    let at = slot * RECORD;
    book[at..at + RECORD].copy_from_slice(content);
}

// Posts a run of bytes record by record, the last of which may be shorter, and stops at the first that is refused.
pub fn post_all(book: &mut [u8], run: &[u8]) -> Result<(), Refusal>
    requires { Valid book.old }
    ensures value { result ≡ answer_all book.old (records_of run.now) }
    ensures after { book.new ≡ book_all book.old (records_of run.now) }
{
    for record in run.chunks(RECORD) {
        post(book, record)?;
    }
    Ok(())
}
