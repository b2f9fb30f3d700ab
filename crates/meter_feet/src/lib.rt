// An hour of a meter in cubic feet (02, (iii)): what it recorded, its flow corrected by temperature and pressure, or that it is refused.
#![tactic(auto)]

ghost use Rattle.std.specs.Prelude.{◌≡◌, ◌≤◌, ◌<◌, length};
ghost use Rattle.meter_feet.specs.Feet.{corrected_of, flow_in, content_in, recorded_of, hour_at};

use meter_hour::Recorded;
use meter_state::{NO_CONTENT, NO_FLOW};

// What the meter read in an hour: a flow in cubic feet, a content in per cent, a temperature in degrees Rankine and an absolute pressure in
// atm. What the hour's state says is missing is not looked at.
#[derive(Clone, Copy)]
pub struct Sample {
    pub flow: f32,
    pub content: f32,
    pub temperature: f32,
    pub pressure: f32,
}

// What is added to a state where there is no temperature or no pressure, beside what `meter_state` has for the others. The parts add up, so that it stays
// a number, as they do there.
const NOT_CORRECTED: u8 = 8;

// The highest state: all of these, and the device out.
const MOST_STATE: u8 = 15;

// What an hour, from 0, records; `None` says that it is refused. Each list is lent by itself, as C lends it to the month, and the clause asks that the
// hour stands in each, as in `meter_state::reading_at`.
#[tactic(auto, using(meter_state::proofs::States::before_end), unfolding(crate::specs::Feet::hour_at))]
pub fn recorded_at(
    flows: &[f32],
    contents: &[f32],
    temperatures: &[f32],
    pressures: &[f32],
    states: &[u8],
    hour: usize,
) -> Option<Recorded>
    requires { (hour < length flows.now) × (hour < length contents.now) × (hour < length temperatures.now)
        × (hour < length pressures.now) × (hour < length states.now) }
    ensures { result ≡ hour_at flows.now contents.now temperatures.now
        pressures.now states.now hour }
{
    let sample = Sample {
        flow: flows[hour],
        content: contents[hour],
        temperature: temperatures[hour],
        pressure: pressures[hour],
    };
    recorded(sample, states[hour])
}

// What a sample records; `None` says that its hour is refused.
#[tactic(auto, unfolding(crate::specs::Feet::recorded_of))]
pub fn recorded(sample: Sample, state: u8) -> Option<Recorded>
    ensures { result ≡ recorded_of sample state }
{
    if MOST_STATE < state {
        return None;
    }
    let flow = flow(sample, state)?;
    let content = content(sample, state)?;
    Some(Recorded { flow, content })
}

// The corrected flow: the outer `None` says that a value is bad, the inner one that there is no flow. Temperature and pressure are checked,
// flow or none, unless one of them is missing.
#[tactic(auto, using(meter_reading::proofs::Most::scaled_within), unfolding(crate::specs::Feet::flow_in))]
fn flow(sample: Sample, state: u8) -> Option<Option<u64>>
    ensures { result ≡ flow_in sample state }
{
    if meter_state::has(state, NOT_CORRECTED) {
        return Some(None);
    }
    let temperature = meter_reading::temperature(sample.temperature)?;
    let pressure = meter_reading::pressure(sample.pressure)?;
    if meter_state::has(state, NO_FLOW) {
        return Some(None);
    }
    let flow = meter_reading::cubic_feet(sample.flow)?;
    Some(Some(corrected(flow, temperature, pressure)))
}

// The content: the outer `None` says that it is bad, the inner one that there is none.
#[tactic(auto, unfolding(crate::specs::Feet::content_in))]
fn content(sample: Sample, state: u8) -> Option<Option<u64>>
    ensures { result ≡ content_in sample state }
{
    if meter_state::has(state, NO_CONTENT) {
        return Some(None);
    }
    let content = meter_reading::hundredths(sample.content)?;
    Some(Some(content))
}

// The standard temperature, 520 degrees in hundredths, and the standard pressure, 1 atm in ten-thousandths (5.6, for 5.10).
const STANDARD_TEMPERATURE: u64 = 52_000;

const STANDARD_PRESSURE: u64 = 10_000;

// What a flow at a temperature and a pressure is at the standard ones. At the ends of the three ranges no product passes 64 bits.
#[tactic(auto, unfolding(crate::specs::Feet::corrected_of))]
fn corrected(flow: u64, temperature: u64, pressure: u64) -> u64
    requires { (flow ≤ 40000000) × (40000 ≤ temperature) × (temperature ≤ 70000) × (pressure ≤ 100000) }
    ensures { result ≡ corrected_of flow temperature pressure }
{
    flow * STANDARD_TEMPERATURE * pressure / (temperature * STANDARD_PRESSURE)
}
