// An hour's reading, by its state: what is missing is not there to be looked at.
#![tactic(auto)]

ghost use Rattle.std.specs.Prelude.{◌≡◌, ◌<◌, length};
ghost use Rattle.meter_state.specs.State.{has, is_out, reading_at};

// Flow and content, one of them, or nothing: the form that stands for an hour's reading (docs/DECISIONS.md, "Forms").
#[derive(Clone, Copy)]
pub enum Reading {
    Both(f32, f32),
    NoFlow(f32),
    NoContent(f32),
    Neither,
}

// What is added to a state where there is no flow, where there is no content, and where the device was out; of the first two, 3 says neither. A state
// is a sum of these and not one of some kinds, so that an enum of it would have a variant for each sum: it stays the number that the paper gives it.
pub const NO_FLOW: u8 = 1;

pub const NO_CONTENT: u8 = 2;

const OUT: u8 = 4;

const BOTH: u8 = 0;

pub fn is_out(state: u8) -> bool
    ensures { result ≡ is_out state }
{
    has(state, OUT)
}

// Whether a part, 1, 2, 4 or 8, was added to a state.
pub fn has(state: u8, part: u8) -> bool
    requires { 0 < part }
    ensures { result ≡ has part state }
{
    state / part % 2 == 1
}

// The reading of an hour, from 0. Each list is lent by itself, as C lends it, and the clause asks that the hour stands in each.
#[tactic(auto, using(crate::proofs::States::before_end), unfolding(crate::specs::State::reading_at, crate::specs::State::reading_of))]
pub fn reading_at(flows: &[f32], contents: &[f32], states: &[u8], hour: usize) -> Reading
    requires { (hour < length flows.now) × (hour < length contents.now) × (hour < length states.now) }
    ensures { result ≡ reading_at flows.now contents.now states.now hour }
{
    match states[hour] % OUT {
        BOTH => Reading::Both(flows[hour], contents[hour]),
        NO_FLOW => Reading::NoFlow(contents[hour]),
        NO_CONTENT => Reading::NoContent(flows[hour]),
        _ => Reading::Neither,
    }
}
