// An hour of a meter (01, "The meter month"; 02, (iii)): what it recorded, or that it is refused, and what of that was destroyed.
#![tactic(auto)]

ghost use Rattle.std.specs.Prelude.{◌≡◌, ◌≤◌, ◌<◌, length};
ghost use Rattle.units.specs.Grams.{methane};
ghost use Rattle.meter_series.specs.Series.{amount};
ghost use Rattle.meter_hour.specs.Hour.{recorded_of, hour_at, grams_in, whole_efficiency, hour_of};
ghost use Rattle.meter_hour.specs.Room.{most_flow, most_content};

use meter_state::Reading;
use units::Methane;

// The efficiency of a device that destroys all methane: efficiency counts ten-thousandths. One stays the number that C gives: a month refuses what is above
// this, and `hour_grams` asks for what is not.
pub const WHOLE_EFFICIENCY: u32 = 10_000;

// What an hour recorded, or has after filling: its flow, in what the meter's kind counts, and its content, in hundredths of a per cent, each
// where it is there.
#[derive(Clone, Copy, Debug, PartialEq, Eq)]
pub struct Recorded {
    pub flow: Option<u64>,
    pub content: Option<u64>,
}

// The highest state: neither value, and the device out.
const MOST_STATE: u8 = 7;

// What an hour, from 0, records; `None` says that it is refused. Each list is lent by itself, as C lends it to the month, and the clause asks that the
// hour stands in each, as in `meter_state::reading_at`.
#[tactic(auto, using(meter_state::proofs::States::before_end), unfolding(crate::specs::Hour::hour_at))]
pub fn recorded_at(flows: &[f32], contents: &[f32], states: &[u8], hour: usize) -> Option<Recorded>
    requires { (hour < length flows.now) × (hour < length contents.now) × (hour < length states.now) }
    ensures { result ≡ hour_at flows.now contents.now states.now hour }
{
    if MOST_STATE < states[hour] {
        return None;
    }
    counted(meter_state::reading_at(flows, contents, states, hour))
}

// What a reading records: a value that is present and turned down has its hour refused.
#[tactic(auto, unfolding(crate::specs::Hour::recorded_of))]
fn counted(reading: Reading) -> Option<Recorded>
    ensures { result ≡ recorded_of reading }
{
    let (flow, content) = match reading {
        Reading::Both(flow, content) => (
            Some(meter_reading::litres(flow)?),
            Some(meter_reading::hundredths(content)?),
        ),
        Reading::NoFlow(content) => (None, Some(meter_reading::hundredths(content)?)),
        Reading::NoContent(flow) => (Some(meter_reading::litres(flow)?), None),
        Reading::Neither => (None, None),
    };
    Some(Recorded { flow, content })
}

// What a meter reads its flow in. It decides what the flow is counted in, litres or hundredths of a standard cubic foot, and what that
// weighs.
#[derive(Clone, Copy, Debug, PartialEq, Eq)]
pub enum Kind {
    CubicMetres,
    CubicFeet,
}

// What an hour destroyed, by what it recorded and what it has after filling. That flow and content are within their most is asked here, in `weigh` and in
// `Kind::grams`, and is in no type: the most of a flow is its kind's, and `Recorded` has no kind.
#[tactic(auto, using(crate::proofs::Sizes::share_most, crate::proofs::Sizes::grams_most_lem), unfolding(crate::specs::Hour::hour_of))]
pub fn hour_grams(
    kind: Kind,
    efficiency: u32,
    state: u8,
    recorded: Recorded,
    filled: Recorded,
) -> Methane
    requires { (efficiency ≤ whole_efficiency) × (amount filled.flow ≤ most_flow kind) × (amount filled.content ≤ most_content) }
    ensures { result ≡ methane (hour_of kind efficiency state recorded filled) }
{
    if meter_state::is_out(state) {
        return Methane::of_grams(0);
    }
    if recorded.flow.is_none() && recorded.content.is_none() {
        return Methane::of_grams(0);
    }
    weigh(kind, filled).share(u64::from(efficiency), u64::from(WHOLE_EFFICIENCY))
}

// The methane of an hour; none where its flow or its content is missing.
#[tactic(auto, using(crate::proofs::Weighing::no_flow, crate::proofs::Weighing::no_content))]
fn weigh(kind: Kind, filled: Recorded) -> Methane
    requires { (amount filled.flow ≤ most_flow kind) × (amount filled.content ≤ most_content) }
    ensures { result ≡ methane (grams_in kind (amount filled.flow) (amount filled.content)) }
{
    match (filled.flow, filled.content) {
        (Some(flow), Some(content)) => kind.grams(flow, content),
        _ => Methane::of_grams(0),
    }
}

// The density counts hundredths of a gram in a litre, and the whole has 10,000 hundredths of a per cent.
const DENSITY_PARTS: u64 = 1_000_000;

// A standard cubic foot of methane weighs 0.0423 pounds, here in ten-thousandths, and a pound has 454 grams (5.6, for 5.10).
const POUNDS_IN_CUBIC_FOOT: u64 = 423;

const GRAMS_IN_POUND: u64 = 454;

// Those ten-thousandths, times the hundredths of a standard cubic foot, times the 10,000 hundredths of a per cent in the whole.
const FOOT_PARTS: u64 = 10_000_000_000;

impl Kind {
    // Grams of methane in a flow of some content, in hundredths of a per cent.
    #[tactic(auto, unfolding(crate::specs::Hour::grams_in))]
    fn grams(self, flow: u64, content: u64) -> Methane
        requires { (flow ≤ most_flow self) × (content ≤ most_content) }
        ensures { result ≡ methane (grams_in self flow content) }
    {
        match self {
            Kind::CubicMetres => Methane::of_grams(flow * content * units::DENSITY / DENSITY_PARTS),
            Kind::CubicFeet => Methane::of_grams(
                flow * content * POUNDS_IN_CUBIC_FOOT * GRAMS_IN_POUND / FOOT_PARTS,
            ),
        }
    }
}
