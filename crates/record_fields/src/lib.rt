// One entry of a record: a field against its range, bytes that must be 0.
#![tactic(auto)]

ghost use Rattle.std.specs.Prelude.{◌≡◌, ◌&&◌, ◌+◌, ◌≤◌, leb, length};
ghost use Rattle.record_table.specs.Table.{from};
ghost use Rattle.record_fields.specs.Entry.{outside_at, nonzero_at};

// A field: its offset, its bytes, of which a number has at most eight, its lowest and its highest value.
#[derive(Clone, Copy)]
pub struct Field {
    pub at: usize,
    pub wide: usize,
    pub low: u64,
    pub high: u64,
    pub ghost narrow: { wide ≤ 8 },
}

// Bytes that must be 0: the offset of the first, and how many.
#[derive(Clone, Copy)]
pub struct Zeros {
    pub at: usize,
    pub wide: usize,
}

// The offset of the first of some zero bytes that is not 0, if one is not.
pub fn nonzero(posted: &[u8], zeros: Zeros) -> Option<usize>
    requires { zeros.at + zeros.wide ≤ length posted.now }
    ensures { result ≡ nonzero_at posted.now zeros.at zeros.wide }
{
    (zeros.at..zeros.at + zeros.wide).find(|at| posted[*at] != 0)
}

// The offset of a field, if it is outside its range.
#[tactic(auto, unfolding(crate::specs::Entry::outside_at, crate::specs::Entry::in_range))]
pub fn outside(posted: &[u8], field: Field) -> Option<usize>
    requires { field.at + field.wide ≤ length posted.now }
    ensures { result ≡ outside_at posted.now field.at field.wide (from field.low field.high) }
{
    let value = number_bytes::number(posted, field.at, field.wide);
    if (field.low..=field.high).contains(&value) {
        return None;
    }
    Some(field.at)
}
