// One field of one slot of a book, and what stands in the slots of YR, TP, PE and MT. None is a slot that was never filled, and 0 is a value.
//
// A month and a device are numbers: a caller counts them, and what a clause asks of one follows from its loop. A type of them would be made and opened again
// in each call. A slot is the number that `record_table` gives of a key, of one past the table's ends too: that it is one of a book's is what a clause asks.
#![tactic(auto, using(crate::proofs::Inside::inside))]

ghost use Rattle.std.specs.Prelude.{◌≡◌, not, [], ◌∷◌, ◌+◌, ◌*◌, ◌≤◌, ◌<◌};
ghost use Rattle.record_table.specs.Table.{months, devices, yr, tp, pe, record_bytes};
ghost use Rattle.number_bytes.specs.Number.{number_at, signed_of};
ghost use Rattle.record_table.specs.Slot.{slots, slot_of};
ghost use Rattle.book.specs.Book.{free};
ghost use Rattle.book_slots.specs.Field.{place_of, bytes_of, seen_at};
ghost use Rattle.book_slots.specs.Reads.{first_year_of, first_month_of, temperature_of, project_methane_of, baseline_co2_of, project_co2_of, destroyed_of};

use book::Book;
use record_fields::Field;
use record_judge::rows;

// A function for each field: its name is the field's, its contract says where 01's table has it, and the body is the one `read`. One generic function for them
// all would promise what `read` does: it could not say which field of the paper's table it reads.
pub fn first_year(book: &Book<'_>) -> Option<u64>
    ensures { result ≡ first_year_of book.now }
{
    read(book, record_table::year_slot(), rows::YR_FIRST_YEAR)
}

pub fn first_month(book: &Book<'_>) -> Option<u64>
    ensures { result ≡ first_month_of book.now }
{
    read(book, record_table::year_slot(), rows::YR_FIRST_MONTH)
}

// In tenths of a degree.
pub fn temperature(book: &Book<'_>, month: usize) -> Option<i16>
    requires { month ≤ months }
    ensures { result ≡ temperature_of book.now month }
{
    let slot = record_table::temperature_slot(month);
    filled(book, slot).then_some(tenths(book, slot))
}

pub fn project_methane(book: &Book<'_>, month: usize) -> Option<u64>
    requires { month ≤ months }
    ensures { result ≡ project_methane_of book.now month }
{
    read(
        book,
        record_table::project_slot(month),
        rows::PE_PROJECT_METHANE,
    )
}

pub fn baseline_co2(book: &Book<'_>, month: usize) -> Option<u64>
    requires { month ≤ months }
    ensures { result ≡ baseline_co2_of book.now month }
{
    read(
        book,
        record_table::project_slot(month),
        rows::PE_BASELINE_CO2,
    )
}

pub fn project_co2(book: &Book<'_>, month: usize) -> Option<u64>
    requires { month ≤ months }
    ensures { result ≡ project_co2_of book.now month }
{
    read(
        book,
        record_table::project_slot(month),
        rows::PE_PROJECT_CO2,
    )
}

pub fn destroyed(book: &Book<'_>, month: usize, device: usize) -> Option<u64>
    requires { (month ≤ months) × (device ≤ devices) }
    ensures { result ≡ destroyed_of book.now month device }
{
    read(
        book,
        record_table::meter_slot(month, device),
        rows::MT_DESTROYED,
    )
}

// One field of a slot.
#[tactic(auto, unfolding(crate::specs::Field::seen_at))]
pub fn read(book: &Book<'_>, slot: usize, entry: Field) -> Option<u64>
    requires { (slot < slots) × (entry.at + entry.wide ≤ record_bytes) }
    ensures { result ≡ seen_at book.now slot entry.at entry.wide }
{
    filled(book, slot).then_some(field(book, slot, entry))
}

#[tactic(auto, unfolding(book::specs::Book::free))]
pub fn filled(book: &Book<'_>, slot: usize) -> bool
    requires { slot < slots }
    ensures { result ≡ not (free book.now slot) }
{
    let bytes = book.bytes;
    bytes[slot * record_table::RECORD] != 0
}

// The number in a slot, filled or not: 0 where it is empty.
pub fn field(book: &Book<'_>, slot: usize, entry: Field) -> u64
    requires { (slot < slots) × (entry.at + entry.wide ≤ record_bytes) }
    ensures { result ≡ number_at book.now (slot * record_bytes + entry.at) entry.wide }
{
    let bytes = book.bytes;
    number_bytes::number(bytes, slot * record_table::RECORD + entry.at, entry.wide)
}

// A temperature's slot as a signed number, filled or not: 0 where it is empty.
fn tenths(book: &Book<'_>, slot: usize) -> i16
    requires { slot < slots }
    ensures { result ≡ signed_of (number_at book.now (slot * record_bytes + place_of tp 2) (bytes_of tp 2)) }
{
    number_bytes::signed(number_bytes::number(
        book.bytes,
        slot * record_table::RECORD + rows::TP_TEMPERATURE_AT,
        rows::TP_TEMPERATURE_BYTES,
    ))
}
