// Records read from a program's input, posted block by block: a record that a block's end cuts is held for the next one.
#![tactic(auto)]

ghost use Rattle.std.specs.Prelude.{◌≡◌, ◌≤◌, length};
ghost use Rattle.record_table.specs.Table.{record_bytes};
ghost use Rattle.book.specs.Run.{book_all};
ghost use Rattle.book.specs.Valid.{Valid};
ghost use Rattle.program_feed.specs.declared.Stop.TheVariants.{Refused, Failed};
ghost use Rattle.program_feed.specs.Blocks.{whole_records, posted_of, block_by, fed_by};
ghost use Rattle.program_feed.specs.Input.{Comes};

use record_table::RECORD;
use refusals::Refusal;
use std::io;
use std::io::Read;

// Why the reading of an input stops before its end: a record is refused, or a read failed.
#[derive(Clone, Copy)]
pub enum Stop {
    Refused(Refusal),
    Failed(io::Error),
}

impl From<Refusal> for Stop {
    ghost from_gives = { λ refusal stop. stop ≡ Refused refusal };

    fn from(refusal: Refusal) -> Stop {
        Stop::Refused(refusal)
    }
}

impl From<io::Error> for Stop {
    ghost from_gives = { λ error stop. stop ≡ Failed error };

    fn from(error: io::Error) -> Stop {
        Stop::Failed(error)
    }
}

// Posts what a reader gives to a book, block by block, until it ends or a record is refused. The loop ends without a
// count of its turns: each record that is taken fills a slot, and the number of slots is fixed.
pub fn post_input<R: Read>(reader: &mut R, book: &mut [u8], block: &mut [u8]) -> Result<(), Stop>
    requires valid { Valid book.old }
    requires block_room { record_bytes ≤ length block.old }
    ensures comes { Comes book.old result book.new }
    ensures still_valid { Valid book.new }
{
    let mut held = 0;
    loop {
        let count = program_input::read_more(reader, block, held)?;
        if count == 0 {
            book::post_all(book, &block[..held])?;
            return Ok(());
        }
        held = post_block(book, block, held + count)?;
    }
}

// Posts the whole records among a block's first bytes, moves the bytes of a cut one to the block's start, and returns their number: they are held for the
// next block.
#[tactic(auto, unfolding(crate::specs::Blocks::whole_records), using(crate::proofs::Carrying::moved))]
fn post_block(book: &mut [u8], block: &mut [u8], filled: usize) -> Result<usize, Refusal>
    requires valid { Valid book.old }
    requires within { filled ≤ length block.old }
    ensures value { result ≡ fed_by (posted_of book.old block.old filled) filled }
    ensures after { book.new ≡ book_all book.old (whole_records block.old filled) }
    ensures block_after { block.new ≡ block_by (posted_of book.old block.old filled) block.old filled }
{
    let whole = filled / RECORD * RECORD;
    book::post_all(book, &block[..whole])?;
    block.copy_within(whole..filled, 0);
    Ok(filled - whole)
}
