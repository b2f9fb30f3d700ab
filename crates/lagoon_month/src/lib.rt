// Equation 5.3: what a month enters into a line's lagoon, and what becomes of it.
#![tactic(auto)]

ghost use Rattle.std.specs.Prelude.{◌≡◌, ◌≤◌, ◌<◌};
ghost use Rattle.lagoon_factor.specs.Rule.{million};
ghost use Rattle.lagoon_month.specs.Month.{entered_of, empty_of, available_of, outcome_of};
ghost use Rattle.lagoon_month.specs.Asks.{heads_most, grams_most};

use units::Solids;

// The protocol's calibration, 0.8, in tenths.
const CALIBRATION: u64 = 8;

// The sum of the year's twelve heads is twelve times their average. Table solids count hundredths of a
// kilogram a day for a thousand kilograms, the mass tenths of a kilogram, the share ten-thousandths and the
// calibration tenths; and a kilogram has a thousand grams.
const ENTERED_PARTS: u64 = 12 * 100_000_000;

// The calibration divides the parts, and is taken out of both: times 8 the product would pass 64 bits.
const CALIBRATED_PARTS: u64 = ENTERED_PARTS / CALIBRATION;

// What a herd enters in a month, by the sum of the year's twelve heads. It asks the upper ends of 01's
// ranges, and a month's days.
#[tactic(auto, using(crate::proofs::Entry::four, crate::proofs::Entry::five, crate::proofs::Entry::calibrated), unfolding(crate::specs::Month::entered_of))]
pub fn entered(heads: u64, table_solids: u64, mass: u64, share: u64, days: u64) -> Solids
    requires in_ranges { (heads ≤ heads_most) × (table_solids ≤ 2000) × (mass ≤ 20000) × (share ≤ 10000) }
    requires month_days { days ≤ 31 }
    ensures { result ≡ entered_of heads table_solids mass share days }
{
    Solids::of_grams(heads * table_solids * mass * share * days / CALIBRATED_PARTS)
}

// A month's figures: what entered, the temperature factor, and whether the line was drained.
#[derive(Clone, Copy)]
pub struct Month {
    pub entered: Solids,
    pub factor: u64,
    pub drained: bool,
}

// What a month hands back: the next standing, what degraded and what was removed.
#[derive(Clone, Copy)]
pub struct Outcome {
    pub next: Standing,
    pub degraded: Solids,
    pub removed: Solids,
}

// What stands in a line's lagoon as a month begins: what the month before handed on. `empty` and `month`
// alone make one.
#[derive(Clone, Copy)]
pub struct Standing(Solids);

impl Standing {
    // The first month starts from 0.
    pub fn empty() -> Self
        ensures { result ≡ empty_of }
    {
        Standing(Solids::of_grams(0))
    }

    pub fn carried(self) -> Solids
        ensures { result ≡ self.0 }
    {
        self.0
    }

    // What is available degrades by the factor. The rest is removed if the line was drained, and else
    // carried on: each gram goes one way.
    #[tactic(auto, unfolding(crate::specs::Month::outcome_of))]
    pub fn month(self, month: Month) -> Outcome
        requires { (available_of self month < grams_most) × (month.factor ≤ million) }
        ensures { result ≡ outcome_of self month }
    {
        let available = month.entered.plus(self.0);
        let degraded = available.share(month.factor, lagoon_factor::MILLION);
        let left = available.less(degraded);
        let nothing = Solids::of_grams(0);
        if month.drained {
            Outcome {
                next: Standing(nothing),
                degraded,
                removed: left,
            }
        } else {
            Outcome {
                next: Standing(left),
                degraded,
                removed: nothing,
            }
        }
    }
}
