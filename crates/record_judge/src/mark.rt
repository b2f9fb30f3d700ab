// The mark that a record begins with.
#![tactic(auto, unfolding(number_bytes::specs::Number::number_at, crate::specs::Record::row_in, crate::specs::Marks::mark_of))]

ghost use Rattle.std.specs.Prelude.{◌≡◌};
ghost use Rattle.number_bytes.specs.Number.{number_at};
ghost use Rattle.record_table.specs.Table.{after_mark};
ghost use Rattle.record_judge.specs.Marks.{mark_of};

// A mark's letters.
pub const MARK: usize = 2;

#[derive(Clone, Copy, Debug, PartialEq, Eq)]
pub enum Mark {
    Yr,
    Ln,
    Hd,
    Tp,
    Dr,
    Pe,
    Mt,
    Ld,
}

impl Mark {
    // The mark with these letters, if one has them.
    pub fn of(letters: [u8; MARK]) -> Option<Mark>
        ensures { result ≡ mark_of (number_at letters 0 after_mark) }
    {
        match &letters {
            b"YR" => Some(Mark::Yr),
            b"LN" => Some(Mark::Ln),
            b"HD" => Some(Mark::Hd),
            b"TP" => Some(Mark::Tp),
            b"DR" => Some(Mark::Dr),
            b"PE" => Some(Mark::Pe),
            b"MT" => Some(Mark::Mt),
            b"LD" => Some(Mark::Ld),
            _ => None,
        }
    }
}
