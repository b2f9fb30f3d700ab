// The year program: reads records from standard input, posts them, and prints the years of the book that they make
// or the refusal that ended the reading.
#![tactic(auto)]

ghost use Rattle.std.specs.Prelude.{◌≡◌, ◌≤◌, length};
ghost use Rattle.record_table.specs.Table.{record_bytes};
ghost use Rattle.book.specs.Book.{book_bytes};
ghost use Rattle.print_years.specs.Page.{page_bytes};
ghost use Rattle.years.specs.Input.{Comes};

use book::Book;
use program_feed::Stop;
use program_input::Failure;
use std::io;
use std::io::Read;
use std::process::ExitCode;

// How many bytes are read at a time, at most: 4,096 records.
const BLOCK: usize = 65_536;

fn main(rt: HostRuntime) -> ExitCode {
    program_input::ended(&rt, run(&rt))
}

fn run(rt: &HostRuntime) -> Result<(), Failure> {
    let mut book = [0u8; book::BYTES];
    let mut block = [0u8; BLOCK];
    let mut page = [0u8; print_years::PAGE_BYTES];
    let mut input = rt.reader();
    // A match, since `map_err(..)?` loses that the end lies within the page.
    match lay_input(&mut input, &mut book, &mut block, &mut page) {
        Ok(end) => rt.write_all(&page[..end]).map_err(Failure::Output),
        Err(error) => Err(Failure::Input(error)),
    }
}

// Lays what is printed for what a reader gives, and says where it ends: the years of the book that its records make, or the refusal that ended the reading.
// A read that fails never passes for the end of the input: nothing is laid then.
fn lay_input<R: Read>(
    reader: &mut R,
    book: &mut [u8],
    block: &mut [u8],
    page: &mut [u8],
) -> io::Result<usize>
    requires book_len { length book.old ≡ book_bytes }
    requires block_room { record_bytes ≤ length block.old }
    requires page_room { page_bytes ≤ length page.old }
    ensures { Comes page.old result page.new }
{
    book::empty(book);
    match program_feed::post_input(reader, book, block) {
        Ok(()) => Ok(print_years::lay_years(&Book::of(book), page)),
        Err(Stop::Refused(refusal)) => Ok(print_refusal::lay_refusal(page, 0, refusal)),
        Err(Stop::Failed(error)) => Err(error),
    }
}
