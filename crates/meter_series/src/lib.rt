// A month's series: whole numbers recorded hour by hour, or missing, whatever they count.
#![tactic(auto)]

ghost use Rattle.std.specs.Prelude.{◌≡◌};
ghost use Rattle.meter_series.specs.Series.{series};

pub const MOST_HOURS: usize = 744;

// What stands at an hour; past the end, nothing.
pub fn at(hours: &[Option<u64>], hour: usize) -> Option<u64>
    ensures { result ≡ series hours.now hour }
{
    hours.get(hour).copied().flatten()
}
