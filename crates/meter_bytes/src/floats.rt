// The floats of one list of a month, as its bytes give them.
#![tactic(auto)]

ghost use Rattle.std.specs.Prelude.{◌≡◌, ◌+◌, ◌*◌, ◌≤◌, length, take, List};
ghost use lib.Ieee.{Float};
ghost use Rattle.meter_series.specs.Series.{most_hours};
ghost use Rattle.number_float.specs.Float.{float_bytes};
ghost use Rattle.meter_bytes.specs.Format.{floats_at};

use meter_series::MOST_HOURS;
use number_float::FLOAT;
use std::marker::Model;

// No more than the longest month has hours, at the start of an array, since the project has no heap.
#[derive(Drop)]
pub(crate) struct Floats {
    all: [f32; MOST_HOURS],
    count: usize,
}

// In a clause they are the list of those that were read.
impl Model for Floats {
    ghost Value = { List Float };

    ghost view = { λ floats. take floats.count floats.all };

    ghost invariant = { λ floats. floats.count ≤ most_hours };
}

impl Floats {
    // Floats of the input, one after the other from `at` on. It counts them, since a proof would know nothing of what a walk over the array and the input's
    // chunks at once has written.
    #[tactic(auto, using(crate::proofs::EachFloat::floats_begin))]
    pub(crate) fn read(input: &[u8], at: usize, count: usize) -> Floats
        requires { (count ≤ most_hours) × (at + float_bytes * count ≤ length input.now) }
        ensures { result ≡ floats_at input.now at count }
    {
        let mut all = [0.0f32; MOST_HOURS];
        for (passed, float) in all[..count].iter_mut().enumerate() {
            *float = number_float::float_at(input, at + FLOAT * passed);
        }
        Floats { all, count }
    }

    pub(crate) fn values(&self) -> &[f32]
        ensures { result.now ≡ self.now }
    {
        &self.all[..self.count]
    }
}
