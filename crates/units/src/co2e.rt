ghost use Rattle.std.specs.Prelude.{◌≡◌, ◌+◌, ◌<◌, ◌^◌};
ghost use Rattle.units.specs.Grams.{co2e};

// Grams of carbon dioxide equivalent.
#[derive(Clone, Copy)]
pub struct Co2e(pub(crate) u64);

impl Co2e {
    pub fn of_grams(grams: u64) -> Self
        ensures { result ≡ co2e grams }
    {
        Co2e(grams)
    }

    pub fn grams(self) -> u64
        ensures { result ≡ self.0 }
    {
        self.0
    }

    pub fn plus(self, other: Self) -> Self
        requires { self.0 + other.0 < 2 ^ 64 }
        ensures { result ≡ co2e (self.0 + other.0) }
    {
        Co2e(self.0 + other.0)
    }
}
