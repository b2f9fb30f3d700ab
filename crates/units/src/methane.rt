ghost use Rattle.std.specs.Prelude.{◌≡◌, ◌+◌, ◌*◌, ◌<◌, ◌^◌};
ghost use Rattle.units.specs.Grams.{methane, share_of, warming_of};

use crate::Co2e;

// Grams of methane.
#[derive(Clone, Copy)]
pub struct Methane(u64);

impl Methane {
    pub fn of_grams(grams: u64) -> Self
        ensures { result ≡ methane grams }
    {
        Methane(grams)
    }

    pub fn grams(self) -> u64
        ensures { result ≡ self.0 }
    {
        self.0
    }

    pub fn plus(self, other: Self) -> Self
        requires { self.0 + other.0 < 2 ^ 64 }
        ensures { result ≡ methane (self.0 + other.0) }
    {
        Methane(self.0 + other.0)
    }

    // parts / whole of it, rounded down.
    pub fn share(self, parts: u64, whole: u64) -> Self
        requires { (self.0 * parts < 2 ^ 64) × (0 < whole) }
        ensures { result ≡ methane (share_of self.0 parts whole) }
    {
        Methane(self.0 * parts / whole)
    }

    // As carbon dioxide equivalent, by the warming potential.
    pub fn warming(self, potential: u64) -> Co2e
        requires { potential * self.0 < 2 ^ 64 }
        ensures { result ≡ warming_of self potential }
    {
        Co2e(potential * self.0)
    }
}
