ghost use Rattle.std.specs.Prelude.{◌≡◌, ◌+◌, ◌*◌, ◌-◌, ◌≤◌, ◌<◌, ◌^◌};
ghost use Rattle.units.specs.Grams.{solids, share_of, b0_rule_of};

use crate::{Co2e, DENSITY};

// B0 counts hundredths, and so does the density: a hundred times a hundred.
const B0_RULE_PARTS: u64 = 10_000;

// Grams of volatile solids.
#[derive(Clone, Copy)]
pub struct Solids(u64);

impl Solids {
    pub fn of_grams(grams: u64) -> Self
        ensures { result ≡ solids grams }
    {
        Solids(grams)
    }

    pub fn grams(self) -> u64
        ensures { result ≡ self.0 }
    {
        self.0
    }

    pub fn plus(self, other: Self) -> Self
        requires { self.0 + other.0 < 2 ^ 64 }
        ensures { result ≡ solids (self.0 + other.0) }
    {
        Solids(self.0 + other.0)
    }

    pub fn less(self, other: Self) -> Self
        requires { other.0 ≤ self.0 }
        ensures { result ≡ solids (self.0 - other.0) }
    {
        Solids(self.0 - other.0)
    }

    // parts / whole of it, rounded down.
    pub fn share(self, parts: u64, whole: u64) -> Self
        requires { (self.0 * parts < 2 ^ 64) × (0 < whole) }
        ensures { result ≡ solids (share_of self.0 parts whole) }
    {
        Solids(self.0 * parts / whole)
    }

    // The B0 rule: degraded solids as carbon dioxide equivalent, b0 in hundredths. Its one division rounds down, so that
    // the methane between the two units is never rounded by itself. It asks b0 within 01's range and a
    // potential of at most 40, more than any edition's; the product then fits.
    #[tactic(auto, unfolding(crate::specs::Grams::b0_rule_of))]
    pub fn b0_rule(self, b0: u64, potential: u64) -> Co2e
        requires { (b0 ≤ 100) × (potential ≤ 40) × (self.0 < 2 ^ 44) }
        ensures { result ≡ b0_rule_of self b0 potential }
    {
        Co2e(self.0 * b0 * (DENSITY * potential) / B0_RULE_PARTS)
    }
}
