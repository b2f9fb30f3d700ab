// The protocol's defaults (02, (i)): the mass, the table solids and the B0 of a livestock, by Tables A.2, A.3 and A.5.
#![tactic(auto, unfolding(crate::specs::Tables::masses, crate::specs::Tables::b0s, crate::specs::Tables::solids, crate::specs::Tables::states, crate::specs::Tables::mass_of, crate::specs::Tables::b0_of, crate::specs::Tables::by_state, crate::specs::Tables::solids_entry, crate::specs::Tables::solids_by, crate::specs::Tables::solids_of, crate::specs::Tables::goes_by_state, crate::specs::Tables::asks_state, crate::specs::Tables::livestock_of, crate::specs::StandsFor::stands_for))]

pub mod tables;

ghost use Rattle.std.specs.Prelude.{ℕ, ◌≡◌, ◌≤◌, ◌<◌};
ghost use Rattle.record_defaults.specs.Tables.{Livestock, livestock_of, State, state_count, columns, mass_of, b0_of, solids_entry, by_state, asks_state, solids_of};
ghost use Rattle.record_defaults.specs.StandsFor.{Named, stands_for};

use record_table::RECORD;
use std::marker::Model;

// What Table A.3 has of a livestock's solids: a value of its own, in hundredths of a kilogram a day for 1,000 kg of animal, or a column of Table A.5.
#[derive(Clone, Copy)]
pub enum SolidsEntry {
    Own(u16),
    Column(usize),
}

// A livestock of Table A.2, by its row, from 1.
#[derive(Clone, Copy, Debug, PartialEq, Eq)]
pub struct Livestock {
    row: u8,
}

impl Model for Livestock {
    ghost Value = { ℕ };

    ghost view = { λ livestock. livestock.row };

    ghost invariant = { λ livestock. Livestock livestock.row };

    ghost inverse = { λ n. record { row = n } };
}

// How many livestock Table A.2 has, and how many states Table A.5.
pub const LIVESTOCK_COUNT: usize = 10;

pub const STATE_COUNT: usize = 50;

// Where the fields of a defaults line stand.
pub const LINE_AT: usize = 2;

pub const SYSTEM_AT: usize = 3;

pub const CATEGORY_AT: usize = 4;

pub const LIVESTOCK_AT: usize = 5;

pub const STATE_AT: usize = 6;

pub const SHARE_AT: usize = 8;

pub const CONVERSION_FACTOR_AT: usize = 10;

// The LN that a defaults line stands for: what it says itself, and the tables' values for its livestock.
pub fn line(posted: &[u8; RECORD]) -> [u8; RECORD]
    requires { Named posted.now }
    ensures { result ≡ stands_for posted.now }
{
    // The clause asks for a livestock that the tables have.
    let livestock = Livestock::new(posted[LIVESTOCK_AT]).unwrap();
    let solids = livestock.table_solids(posted[STATE_AT]).to_le_bytes();
    let mass = livestock.mass().to_le_bytes();
    [
        b'L',
        b'N',
        posted[LINE_AT],
        posted[SYSTEM_AT],
        posted[CATEGORY_AT],
        0,
        solids[0],
        solids[1],
        mass[0],
        mass[1],
        posted[SHARE_AT],
        posted[SHARE_AT + 1],
        livestock.b0(),
        0,
        posted[CONVERSION_FACTOR_AT],
        posted[CONVERSION_FACTOR_AT + 1],
    ]
}

impl Livestock {
    // The livestock of a row, if Table A.2 has it.
    pub fn new(row: u8) -> Option<Self>
        ensures { result ≡ livestock_of row }
    {
        if (1..=LIVESTOCK_COUNT as u8).contains(&row) {
            return Some(Livestock { row });
        }
        None
    }

    // Its mass, in tenths of a kilogram.
    pub fn mass(self) -> u16
        ensures { result ≡ mass_of self }
    {
        tables::MASSES[usize::from(self.row) - 1]
    }

    // Its B0, in hundredths of a cubic metre of methane for a kilogram of solids.
    pub fn b0(self) -> u8
        ensures { result ≡ b0_of self }
    {
        tables::B0S[usize::from(self.row) - 1]
    }

    // Whether its solids go by state.
    pub fn asks_state(self) -> bool
        ensures { result ≡ asks_state self }
    {
        matches!(self.solids_entry(), SolidsEntry::Column(_))
    }

    // Its table solids, in hundredths of a kilogram a day for 1,000 kg of animal.
    pub fn table_solids(self, state: u8) -> u16
        requires { State self state }
        ensures { result ≡ solids_of self state }
    {
        match self.solids_entry() {
            SolidsEntry::Own(own) => own,
            SolidsEntry::Column(column) => by_state(state, column),
        }
    }

    // This function and the next alone name these tables: a constant array is built in the frame of each function that names it.
    fn solids_entry(self) -> SolidsEntry
        ensures { result ≡ solids_entry self }
    {
        tables::SOLIDS[usize::from(self.row) - 1]
    }
}

fn by_state(state: u8, column: usize) -> u16
    requires { (1 ≤ state) × (state ≤ state_count) × (column < columns) }
    ensures { result ≡ by_state state column }
{
    tables::STATES[usize::from(state) - 1][column]
}
