// The lagoon months of a line, one after the other: each starts from what the month before handed on.
#![tactic(auto)]

ghost use Rattle.std.specs.Prelude.{◌≡◌, ◌+◌, ◌≤◌, ◌<◌, length};
ghost use Rattle.lagoon_factor.specs.Rule.{million};
ghost use Rattle.lagoon_month.specs.Month.{available_of};
ghost use Rattle.lagoon_month.specs.Asks.{grams_most};
ghost use Rattle.lagoon_run.specs.Run.{start_of, with_of, run_from, months_of};
ghost use Rattle.lagoon_run.specs.Asks.{RunFits};

use lagoon_month::{Month, Standing};
use units::Solids;

// The totals of a run of months, and the standing that the last of them handed on.
#[derive(Clone, Copy)]
pub struct Totals {
    pub entered: Solids,
    pub degraded: Solids,
    pub removed: Solids,
    pub standing: Standing,
}

impl Totals {
    fn start(standing: Standing) -> Self
        ensures { result ≡ start_of standing }
    {
        let nothing = Solids::of_grams(0);
        Totals {
            entered: nothing,
            degraded: nothing,
            removed: nothing,
            standing,
        }
    }

    #[tactic(auto, unfolding(crate::specs::Run::with_of))]
    fn with(self, month: Month) -> Self
        requires grams_fit { (self.entered.0 + month.entered.0 < grams_most)
            × (self.degraded.0 + self.removed.0 + available_of self.standing month < grams_most) }
        requires factor_at_most_one { month.factor ≤ million }
        ensures { result ≡ with_of self month }
    {
        let outcome = self.standing.month(month);
        Totals {
            entered: self.entered.plus(month.entered),
            degraded: self.degraded.plus(outcome.degraded),
            removed: self.removed.plus(outcome.removed),
            standing: outcome.next,
        }
    }
}

// The months one after the other, from a standing: each starts from what the month before handed on.
#[tactic(auto, using(crate::proofs::Runs::one_more), unfolding(crate::specs::Run::run_from))]
pub fn run(from: Standing, months: &[Month]) -> Totals
    requires { RunFits from months.now }
    ensures { result ≡ run_from from (months_of months.now) (length months.now) }
{
    let mut totals = Totals::start(from);
    for month in months {
        totals = totals.with(*month);
    }
    totals
}
