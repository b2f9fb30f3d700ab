// A record alone: its mark, its zero bytes and its fields; and what it does, where nothing is wrong with them.
#![tactic(auto, unfolding(record_table::specs::Slot::count, record_table::specs::Slot::total, record_table::specs::Slot::slot_of, record_fields::specs::Entry::in_range, record_fields::specs::Entry::outside_at, crate::specs::Record::nonzero_in, crate::specs::Record::outside_in, crate::specs::Record::key_in, crate::specs::Record::key_of, crate::specs::Record::verdict, crate::specs::Record::judged_as, crate::specs::Keyed::key_outside, crate::specs::Keyed::keyed, crate::specs::Keyed::livestock_outside, crate::specs::Defaults::is_defaults))]

mod mark;
pub mod rows;

ghost use Rattle.std.specs.Prelude.{◌≡◌, cond, ◌&&◌, ◌+◌, ◌^◌, ◌≤◌, ◌<◌, eqb, leb, pos, neg_ℤ, All, length, drop};
ghost use Rattle.std.specs.Int.Signed.{le_z};
ghost use Rattle.number_bytes.specs.Number.{number_at};
ghost use Rattle.record_table.specs.Table.{unless, yr, ln, hd, tp, dr, pe, mt, entries_of, record_bytes, after_mark};
ghost use Rattle.record_fields.specs.Entry.{outside_at};
ghost use Rattle.record_defaults.specs.Tables.{lowest_state, highest_state};
ghost use Rattle.record_defaults.specs.StandsFor.{state_at};
ghost use Rattle.record_judge.specs.Defaults.{is_defaults, defaults_entries};
ghost use Rattle.record_judge.specs.Marks.{mark_of};
ghost use Rattle.record_judge.specs.Record.{outside_in, verdict, judged_by, judged_as, judged};
ghost use Rattle.record_judge.specs.Keyed.{keyed, livestock_outside};

use mark::MARK;
pub use mark::Mark;
use record_defaults::Livestock;
use record_fields::Field;
use record_table::{Key, RECORD};
use refusals::{Reason, Refusal};

// The offset of the key, after the mark.
const KEY_AT: usize = MARK;

// The system that is anaerobic: what the byte says, which is asked once, below; an enum of the two systems would be made of the byte to be asked the same.
const ANAEROBIC: u8 = 0;

// What a record that is not refused does to the book: put sixteen bytes into a slot, which are its own unless it is a defaults line; or empty a slot, which
// no mark does yet.
#[derive(Clone, Copy, Debug, PartialEq, Eq)]
pub enum Change {
    Put(usize),
    Empty(usize),
}

// What a record does, by itself: refusals 1 to 4, or what its mark says.
#[tactic(auto, unfolding(number_bytes::specs::Number::number_at, crate::specs::Record::row_in, crate::specs::Record::row_of, crate::specs::Record::key_row, crate::specs::Record::entries_for, crate::specs::Record::judged, crate::specs::Marks::mark_of, crate::specs::Defaults::is_defaults))]
pub fn judge(posted: &[u8]) -> Result<Change, Refusal>
    ensures { result ≡ judged posted.now }
{
    let Some(record) = posted.as_array() else {
        return Err(Reason::NotSixteenBytes.at(0));
    };
    let Some(mark) = Mark::of([record[0], record[1]]) else {
        return Err(Reason::UnknownMark.at(0));
    };
    mark.judge(record)
}

// Whether a record is a defaults line, which puts the LN that it stands for into its slot (`record_defaults::line`); any other puts itself there.
#[tactic(auto, unfolding(number_bytes::specs::Number::number_at, crate::specs::Record::row_in, crate::specs::Marks::mark_of, crate::specs::Defaults::is_defaults))]
pub fn is_defaults(posted: &[u8; RECORD]) -> bool
    ensures { result ≡ is_defaults posted.now }
{
    Mark::of([posted[0], posted[1]]) == Some(Mark::Ld)
}

impl Mark {
    // A record of the mark.
    #[tactic(auto, unfolding(crate::specs::Record::row_in, crate::specs::Record::row_of, crate::specs::Record::key_row, crate::specs::Record::entries_for, crate::specs::Record::judged, crate::specs::Record::judged_as, crate::specs::Marks::mark_of, crate::specs::Defaults::is_defaults))]
    fn judge(self, posted: &[u8; RECORD]) -> Result<Change, Refusal>
        requires { mark_of (number_at posted.now 0 after_mark) ≡ Some self }
        ensures { result ≡ judged posted.now }
    {
        match self {
            Mark::Yr => judge_yr(posted),
            Mark::Ln => judge_ln(posted),
            Mark::Hd => judge_hd(posted),
            Mark::Tp => judge_tp(posted),
            Mark::Dr => judge_dr(posted),
            Mark::Pe => judge_pe(posted),
            Mark::Mt => judge_mt(posted),
            Mark::Ld => judge_ld(posted),
        }
    }
}

// A function for each mark, which is its row of the paper's table. The first entry's place goes before a later one's, and the key's before them all. HD and MT
// share a shape, and so do LN, TP and LD (two runs of zeros, then fields): the functions of one shape differ in constants and in which fields they ask, each of
// which one for them all would take, and what they share stands in `nonzero`, `outside` and `keyed`.
fn judge_yr(posted: &[u8; RECORD]) -> Result<Change, Refusal>
    ensures { result ≡ judged_as yr posted.now }
{
    let zero = record_fields::nonzero(posted, rows::YR_ZEROS);
    let year = record_fields::outside(posted, rows::YR_FIRST_YEAR);
    let month = record_fields::outside(posted, rows::YR_FIRST_MONTH);
    verdict_on(zero, year.or(month), record_table::year_slot())
}

fn judge_ln(posted: &[u8; RECORD]) -> Result<Change, Refusal>
    ensures { result ≡ judged_as ln posted.now }
{
    let first = record_fields::nonzero(posted, rows::LN_FIRST_ZERO);
    let zero = first.or(record_fields::nonzero(posted, rows::LN_SECOND_ZERO));
    keyed(posted, record_table::LN, zero, line_outside(posted))
}

fn line_outside(posted: &[u8; RECORD]) -> Option<usize>
    ensures { result ≡ outside_in 3 (drop 1 (entries_of ln)) posted.now }
{
    let system = record_fields::outside(posted, rows::LN_SYSTEM);
    let category = record_fields::outside(posted, rows::LN_CATEGORY);
    let solids = record_fields::outside(posted, rows::LN_TABLE_SOLIDS);
    let mass = record_fields::outside(posted, rows::LN_MASS);
    let share = record_fields::outside(posted, rows::LN_SHARE);
    let b0 = record_fields::outside(posted, rows::LN_B0);
    let conversion = conversion_outside(posted, rows::LN_CONVERSION_FACTOR_AT);
    system.or(category.or(solids.or(mass.or(share.or(b0.or(conversion))))))
}

fn judge_hd(posted: &[u8; RECORD]) -> Result<Change, Refusal>
    ensures { result ≡ judged_as hd posted.now }
{
    let zero = record_fields::nonzero(posted, rows::HD_ZEROS);
    let head = record_fields::outside(posted, rows::HD_HEAD);
    keyed(posted, record_table::HD, zero, head)
}

fn judge_tp(posted: &[u8; RECORD]) -> Result<Change, Refusal>
    ensures { result ≡ judged_as tp posted.now }
{
    let first = record_fields::nonzero(posted, rows::TP_FIRST_ZERO);
    let zero = first.or(record_fields::nonzero(posted, rows::TP_LAST_ZEROS));
    keyed(posted, record_table::TP, zero, temperature_outside(posted))
}

fn judge_dr(posted: &[u8; RECORD]) -> Result<Change, Refusal>
    ensures { result ≡ judged_as dr posted.now }
{
    let zero = record_fields::nonzero(posted, rows::DR_ZEROS);
    keyed(posted, record_table::DR, zero, None)
}

fn judge_pe(posted: &[u8; RECORD]) -> Result<Change, Refusal>
    ensures { result ≡ judged_as pe posted.now }
{
    let zero = record_fields::nonzero(posted, rows::PE_ZERO);
    let methane = record_fields::outside(posted, rows::PE_PROJECT_METHANE);
    let baseline = record_fields::outside(posted, rows::PE_BASELINE_CO2);
    let project = record_fields::outside(posted, rows::PE_PROJECT_CO2);
    keyed(
        posted,
        record_table::PE,
        zero,
        methane.or(baseline.or(project)),
    )
}

fn judge_mt(posted: &[u8; RECORD]) -> Result<Change, Refusal>
    ensures { result ≡ judged_as mt posted.now }
{
    let zero = record_fields::nonzero(posted, rows::MT_ZEROS);
    let destroyed = record_fields::outside(posted, rows::MT_DESTROYED);
    keyed(posted, record_table::MT, zero, destroyed)
}

// A defaults line has LN's key (02, (i)).
fn judge_ld(posted: &[u8; RECORD]) -> Result<Change, Refusal>
    ensures { result ≡ judged_by (defaults_entries posted.now) ln posted.now }
{
    let first = record_fields::nonzero(posted, rows::LD_FIRST_ZERO);
    let zero = first.or(record_fields::nonzero(posted, rows::LD_LAST_ZEROS));
    keyed(posted, record_table::LN, zero, defaults_outside(posted))
}

fn defaults_outside(posted: &[u8; RECORD]) -> Option<usize>
    ensures { result ≡ outside_in 3 (drop 1 (defaults_entries posted.now)) posted.now }
{
    let system = record_fields::outside(posted, rows::LN_SYSTEM);
    let category = record_fields::outside(posted, rows::LN_CATEGORY);
    let share = record_fields::outside(posted, rows::LD_SHARE);
    let conversion = conversion_outside(posted, record_defaults::CONVERSION_FACTOR_AT);
    let livestock = livestock_outside(posted, share.or(conversion));
    system.or(category.or(livestock))
}

// A livestock that Table A.2 lacks is outside whatever the state; one that it has tells which states there are.
#[tactic(auto, using(crate::proofs::Entries::byte_in), unfolding(record_defaults::specs::Tables::livestock_of, record_fields::specs::Entry::outside_at, crate::specs::Keyed::livestock_outside))]
fn livestock_outside(posted: &[u8; RECORD], later: Option<usize>) -> Option<usize>
    ensures { result ≡ livestock_outside posted.now later }
{
    let Some(livestock) = Livestock::new(posted[record_defaults::LIVESTOCK_AT]) else {
        return Some(record_defaults::LIVESTOCK_AT);
    };
    record_fields::outside(posted, state_field(livestock)).or(later)
}

fn state_field(livestock: Livestock) -> Field
    ensures { (result.at ≡ state_at) × (result.wide ≡ 1) × (result.low ≡ lowest_state livestock) × (result.high ≡ highest_state livestock) }
{
    if livestock.asks_state() {
        return rows::LD_STATE;
    }
    rows::LD_NO_STATE
}

// A record by its key, each byte of which counts from 1: by the place of a zero byte that is not 0, and that of a field after the key that is outside its
// range.
#[tactic(auto, using(crate::proofs::KeyBytes::key_small, crate::proofs::KeyBytes::outside_turn, crate::proofs::KeyBytes::key_turn), unfolding(crate::specs::Record::key_in, crate::specs::Keyed::key_outside, crate::specs::Keyed::keyed))]
fn keyed<const N: usize>(
    posted: &[u8; RECORD],
    key: Key<N>,
    nonzero: Option<usize>,
    outside: Option<usize>,
) -> Result<Change, Refusal>
    requires { (key.first < 2 ^ 32) × (length key.most ≤ 4) × All (λ high. high < 256) (drop 1 key.most) }
    ensures { result ≡ keyed key.entry.first key.entry.most posted.now nonzero outside }
{
    let mut bytes = [0; N];
    let mut wrong = outside;
    // The number is where the byte stands in the record too.
    for i in (0..N).rev() {
        let field = key_field(KEY_AT + i, key.most[i]);
        wrong = record_fields::outside(posted, field).or(wrong);
        bytes[i] = usize::from(posted[KEY_AT + i]);
    }
    verdict_on(nonzero, wrong, record_table::slot(key, bytes))
}

// A byte of a key counts from 1.
fn key_field(at: usize, most: usize) -> Field
    ensures { (result.at ≡ at) × (result.wide ≡ 1) × (result.low ≡ 1) × (result.high ≡ most) }
{
    Field {
        at,
        wide: 1,
        low: 1,
        high: most as u64,
    }
}

// Refusal 3 goes before refusal 4 (01, "Refusal numbers").
fn verdict_on(
    nonzero: Option<usize>,
    outside: Option<usize>,
    slot: usize,
) -> Result<Change, Refusal>
    ensures { result ≡ verdict nonzero outside slot }
{
    if let Some(zero) = nonzero {
        return Err(Reason::NotZero.at(zero));
    }
    if let Some(place) = outside {
        return Err(Reason::OutOfRange.at(place));
    }
    Ok(Change::Put(slot))
}

// The offset of a line's conversion factor, if it is outside its range.
fn conversion_outside(posted: &[u8; RECORD], at: usize) -> Option<usize>
    requires { at + 2 ≤ record_bytes }
    ensures { result ≡ outside_at posted.now at 2 (unless 3 10000) }
{
    record_fields::outside(
        posted,
        Field {
            at,
            wide: rows::CONVERSION_FACTOR_BYTES,
            low: 0,
            high: most_conversion(posted[rows::LN_SYSTEM_AT]),
        },
    )
}

// An anaerobic line's conversion factor is only 0.
fn most_conversion(system: u8) -> u64
    ensures { result ≡ cond (eqb system 0) 0 10000 }
{
    if system == ANAEROBIC {
        return 0;
    }
    rows::MOST_CONVERSION_FACTOR
}

// The offset of a temperature that is outside its range.
fn temperature_outside(posted: &[u8; RECORD]) -> Option<usize>
    ensures { result ≡ outside_in 3 (drop 1 (entries_of tp)) posted.now }
{
    let tenths = number_bytes::signed(number_bytes::number(
        posted,
        rows::TP_TEMPERATURE_AT,
        rows::TP_TEMPERATURE_BYTES,
    ));
    if allowed(tenths) {
        return None;
    }
    Some(rows::TP_TEMPERATURE_AT)
}

fn allowed(tenths: i16) -> bool
    ensures { result ≡ (le_z (neg_ℤ (pos 500)) tenths && le_z tenths (pos 600)) }
{
    (rows::TP_COLDEST..=rows::TP_HOTTEST).contains(&tenths)
}
