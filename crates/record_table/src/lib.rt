// How many lines, categories, months and devices there are, and the slot of every key.
#![tactic(auto, unfolding(crate::specs::Slot::count, crate::specs::Slot::index, crate::specs::Slot::total, crate::specs::Slot::slot_of))]

ghost use Rattle.std.specs.Prelude.{◌≡◌, [], ◌∷◌, ◌+◌, ◌^◌, ◌≤◌, ◌<◌, All, length, drop};
ghost use Rattle.record_table.specs.Table.{yr, ln, hd, tp, dr, pe, mt};
ghost use Rattle.record_table.specs.Slot.{index, slot_of};

// A record's bytes.
pub const RECORD: usize = 16;

// How many lines, categories, months and devices there are.
pub const LINES: usize = 32;

pub const CATEGORIES: usize = 16;

pub const MONTHS: usize = 120;

pub const DEVICES: usize = 4;

// The first slot of each mark, and how many slots there are.
const FIRST_YR: usize = 0;

const FIRST_LN: usize = FIRST_YR + 1;

const FIRST_HD: usize = FIRST_LN + LINES;

const FIRST_TP: usize = FIRST_HD + CATEGORIES * MONTHS;

const FIRST_DR: usize = FIRST_TP + MONTHS;

const FIRST_PE: usize = FIRST_DR + LINES * MONTHS;

const FIRST_MT: usize = FIRST_PE + MONTHS;

pub const SLOTS: usize = FIRST_MT + MONTHS * DEVICES;

// A mark's key: the first of its slots, and the highest value of each byte.
#[derive(Clone, Copy)]
pub struct Key<const N: usize> {
    pub first: usize,
    pub most: [usize; N],
}

pub const LN: Key<1> = Key {
    first: FIRST_LN,
    most: [LINES],
};

pub const HD: Key<2> = Key {
    first: FIRST_HD,
    most: [CATEGORIES, MONTHS],
};

pub const TP: Key<1> = Key {
    first: FIRST_TP,
    most: [MONTHS],
};

pub const DR: Key<2> = Key {
    first: FIRST_DR,
    most: [LINES, MONTHS],
};

pub const PE: Key<1> = Key {
    first: FIRST_PE,
    most: [MONTHS],
};

pub const MT: Key<2> = Key {
    first: FIRST_MT,
    most: [MONTHS, DEVICES],
};

// The slot of a key's bytes. A byte counts from 1; of 0, none comes before it either.
#[tactic(auto, using(crate::proofs::Slots::turn, crate::proofs::Slots::fewer, crate::proofs::Slots::all_counted, crate::proofs::Slots::product_small, crate::proofs::Slots::power_small))]
pub fn slot<const N: usize>(key: Key<N>, bytes: [usize; N]) -> usize
    requires { (key.first < 2 ^ 32) × (length bytes ≤ 4) × All (λ byte. byte < 256) bytes × All (λ high. high < 256) (drop 1 key.most) }
    ensures { result ≡ key.entry.first + index key.entry.most bytes.entry }
{
    let mut before = 0;
    for (high, byte) in key.most.iter().zip(&bytes) {
        before = before * *high + byte.saturating_sub(1);
    }
    key.first + before
}

// The slot of each mark's key. A method of `Key` would be one for all of them, and promise what `slot` does: it could not say whose row of the paper's table
// the slot is of. Lines, months and the others are numbers here, any that a byte of a key can be.
pub fn year_slot() -> usize
    ensures { result ≡ slot_of yr [] }
{
    FIRST_YR
}

pub fn line_slot(line: usize) -> usize
    requires { line < 256 }
    ensures { result ≡ slot_of ln (line ∷ []) }
{
    slot(LN, [line])
}

pub fn head_slot(category: usize, month: usize) -> usize
    requires { (category < 256) × (month < 256) }
    ensures { result ≡ slot_of hd (category ∷ month ∷ []) }
{
    slot(HD, [category, month])
}

pub fn temperature_slot(month: usize) -> usize
    requires { month < 256 }
    ensures { result ≡ slot_of tp (month ∷ []) }
{
    slot(TP, [month])
}

pub fn drain_slot(line: usize, month: usize) -> usize
    requires { (line < 256) × (month < 256) }
    ensures { result ≡ slot_of dr (line ∷ month ∷ []) }
{
    slot(DR, [line, month])
}

pub fn project_slot(month: usize) -> usize
    requires { month < 256 }
    ensures { result ≡ slot_of pe (month ∷ []) }
{
    slot(PE, [month])
}

pub fn meter_slot(month: usize, device: usize) -> usize
    requires { (month < 256) × (device < 256) }
    ensures { result ≡ slot_of mt (month ∷ device ∷ []) }
{
    slot(MT, [month, device])
}
