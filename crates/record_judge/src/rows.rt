// The table of the records in code: what stands after a mark and its key, in the order of the paper's table. The marks' letters are in `mark`, and their keys in
// `record_table`.
use record_fields::{Field, Zeros};

// YR
pub const YR_FIRST_YEAR: Field = Field {
    at: 2,
    wide: 2,
    low: 2000,
    high: 2089,
};

pub const YR_FIRST_MONTH: Field = Field {
    at: 4,
    wide: 1,
    low: 1,
    high: 12,
};

pub const YR_ZEROS: Zeros = Zeros { at: 5, wide: 11 };

// LN
pub const LN_SYSTEM_AT: usize = 3;

pub const LN_SYSTEM: Field = Field {
    at: LN_SYSTEM_AT,
    wide: 1,
    low: 0,
    high: 1,
};

pub const LN_CATEGORY: Field = Field {
    at: 4,
    wide: 1,
    low: 1,
    high: record_table::CATEGORIES as u64,
};

pub const LN_FIRST_ZERO: Zeros = Zeros { at: 5, wide: 1 };

pub const LN_TABLE_SOLIDS: Field = Field {
    at: 6,
    wide: 2,
    low: 0,
    high: 2000,
};

pub const LN_MASS: Field = Field {
    at: 8,
    wide: 2,
    low: 0,
    high: 20000,
};

pub const LN_SHARE: Field = Field {
    at: 10,
    wide: 2,
    low: 0,
    high: 10000,
};

pub const LN_B0: Field = Field {
    at: 12,
    wide: 1,
    low: 0,
    high: 100,
};

pub const LN_SECOND_ZERO: Zeros = Zeros { at: 13, wide: 1 };

pub const LN_CONVERSION_FACTOR_AT: usize = 14;

pub const CONVERSION_FACTOR_BYTES: usize = 2;

pub const MOST_CONVERSION_FACTOR: u64 = 10000;

pub const LN_CONVERSION_FACTOR: Field = Field {
    at: LN_CONVERSION_FACTOR_AT,
    wide: CONVERSION_FACTOR_BYTES,
    low: 0,
    high: MOST_CONVERSION_FACTOR,
};

// HD
pub const HD_HEAD: Field = Field {
    at: 4,
    wide: 4,
    low: 0,
    high: 100000,
};

pub const HD_ZEROS: Zeros = Zeros { at: 8, wide: 8 };

// TP
pub const TP_FIRST_ZERO: Zeros = Zeros { at: 3, wide: 1 };

pub const TP_TEMPERATURE_AT: usize = 4;

pub const TP_TEMPERATURE_BYTES: usize = 2;

pub const TP_COLDEST: i16 = -500;

pub const TP_HOTTEST: i16 = 600;

pub const TP_LAST_ZEROS: Zeros = Zeros { at: 6, wide: 10 };

// DR
pub const DR_ZEROS: Zeros = Zeros { at: 4, wide: 12 };

// PE, whose figures have all of u32
const ALL_OF_U32: u64 = 0xffff_ffff;

pub const PE_ZERO: Zeros = Zeros { at: 3, wide: 1 };

pub const PE_PROJECT_METHANE: Field = Field {
    at: 4,
    wide: 4,
    low: 0,
    high: ALL_OF_U32,
};

pub const PE_BASELINE_CO2: Field = Field {
    at: 8,
    wide: 4,
    low: 0,
    high: ALL_OF_U32,
};

pub const PE_PROJECT_CO2: Field = Field {
    at: 12,
    wide: 4,
    low: 0,
    high: ALL_OF_U32,
};

// MT
pub const MT_DESTROYED: Field = Field {
    at: 4,
    wide: 8,
    low: 0,
    high: 1_000_000_000_000,
};

pub const MT_ZEROS: Zeros = Zeros { at: 12, wide: 4 };

// LD, whose system and category stand and range as LN's do
pub const LD_STATE: Field = Field {
    at: record_defaults::STATE_AT,
    wide: 1,
    low: 1,
    high: record_defaults::STATE_COUNT as u64,
};

pub const LD_NO_STATE: Field = Field {
    at: record_defaults::STATE_AT,
    wide: 1,
    low: 0,
    high: 0,
};

pub const LD_FIRST_ZERO: Zeros = Zeros { at: 7, wide: 1 };

pub const LD_SHARE: Field = Field {
    at: record_defaults::SHARE_AT,
    wide: 2,
    low: 0,
    high: 10000,
};

pub const LD_LAST_ZEROS: Zeros = Zeros { at: 12, wide: 4 };
