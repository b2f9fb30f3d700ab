// The sums of a year over one line, or over several: the solids of the anaerobic ones, and the baseline of
// all.
#![tactic(auto)]

ghost use Rattle.std.specs.Prelude.{◌≡◌, ◌+◌, ◌≤◌, ◌<◌, ◌^◌};
ghost use Rattle.lagoon_month.specs.Asks.{grams_most};
ghost use Rattle.year_sums.specs.Sums.{nothing, baseline_alone, anaerobic_of, plus};
ghost use Rattle.year_sums.specs.Asks.{all_grams};

use lagoon_run::Totals;
use units::{Co2e, Solids};

// Sums over lines: solids of the anaerobic ones, and the baseline.
#[derive(Clone, Copy)]
pub struct Sums {
    pub entered: Solids,
    pub degraded: Solids,
    pub removed: Solids,
    pub carried: Solids,
    pub baseline: Co2e,
}

impl Sums {
    pub fn nothing() -> Self
        ensures { result ≡ nothing }
    {
        Sums::baseline_alone(Co2e::of_grams(0))
    }

    pub fn baseline_alone(baseline: Co2e) -> Self
        ensures { result ≡ baseline_alone baseline }
    {
        let none = Solids::of_grams(0);
        Sums {
            entered: none,
            degraded: none,
            removed: none,
            carried: none,
            baseline,
        }
    }

    // Of an anaerobic line, by its year's solids. Its B0 is a number of its record, and within that field's range.
    pub fn anaerobic(totals: Totals, b0: u64) -> Self
        requires { (totals.degraded.0 < grams_most) × (b0 ≤ 100) }
        ensures { result ≡ anaerobic_of totals b0 }
    {
        Sums {
            entered: totals.entered,
            degraded: totals.degraded,
            removed: totals.removed,
            carried: totals.standing.carried(),
            baseline: totals.degraded.b0_rule(b0, units::POTENTIAL),
        }
    }

    pub fn plus(self, other: Self) -> Self
        requires { all_grams self + all_grams other < 2 ^ 64 }
        ensures { result ≡ plus self other }
    {
        Sums {
            entered: self.entered.plus(other.entered),
            degraded: self.degraded.plus(other.degraded),
            removed: self.removed.plus(other.removed),
            carried: self.carried.plus(other.carried),
            baseline: self.baseline.plus(other.baseline),
        }
    }
}
