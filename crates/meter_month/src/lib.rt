// The month of one biogas meter, of either kind (01, "The meter month"; 02, (iii)). Each hour is read once, its series are looked at a fixed
// number of times, and nothing lent is written.
#![tactic(auto)]

ghost use Rattle.std.specs.Prelude.{◌≡◌, ◌≤◌, ◌<◌, length};
ghost use Rattle.units.specs.Grams.{methane};
ghost use Rattle.meter_state.specs.State.{state_at};
ghost use Rattle.meter_series.specs.Series.{series, most_hours, AtMost};
ghost use Rattle.meter_hour.specs.Hour.{flow_of, content_of, whole_efficiency};
ghost use Rattle.meter_hour.specs.Room.{most_flow, most_content};
ghost use Rattle.meter_month.specs.Month.{both_at, grams_of, destroyed_of, recorded, first_refused, month_of, feet_month_of};
ghost use Rattle.meter_month.specs.Asks.{AsLong, Holds, passing_of};
ghost use Rattle.meter_month.specs.Meters.{IsMonth, states_of, hour_in, meter_month_of};

mod meter;

use crate::meter::Meter;
use meter_hour::{Kind, Recorded};
use meter_series::MOST_HOURS;
use refusals::{Reason, Refusal};
use units::Methane;

// The month of a meter in cubic metres: the methane that it destroyed, or why it is refused.
#[tactic(auto, unfolding(crate::specs::Month::month_of))]
pub fn month(
    flows: &[f32],
    contents: &[f32],
    states: &[u8],
    efficiency: u32,
) -> Result<Methane, Refusal>
    ensures { result ≡ month_of flows.now contents.now states.now efficiency }
{
    let meter = Meter::CubicMetres {
        flows,
        contents,
        states,
    };
    of_meter(&meter, efficiency)
}

// The month of a meter in cubic feet.
#[tactic(auto, unfolding(crate::specs::Month::feet_month_of))]
pub fn feet_month(
    flows: &[f32],
    contents: &[f32],
    temperatures: &[f32],
    pressures: &[f32],
    states: &[u8],
    efficiency: u32,
) -> Result<Methane, Refusal>
    ensures { result ≡ feet_month_of flows.now contents.now temperatures.now pressures.now
        states.now efficiency }
{
    let meter = Meter::CubicFeet {
        flows,
        contents,
        temperatures,
        pressures,
        states,
    };
    of_meter(&meter, efficiency)
}

// The month of a meter of either kind.
#[tactic(auto, using(crate::proofs::EachKind::lists_fit), unfolding(crate::specs::Month::hours_of))]
fn of_meter(meter: &Meter, efficiency: u32) -> Result<Methane, Refusal>
    ensures { result ≡ meter_month_of meter.now efficiency }
{
    if !meter.is_month() {
        return Err(Reason::NoMonth.at(0));
    }
    if meter_hour::WHOLE_EFFICIENCY < efficiency {
        return Err(Reason::OutOfRange.at(0));
    }
    // Two arrays, and not one of `Recorded`, since `meter_gaps::fill` fills one series, whatever it counts.
    let mut flows = [None; MOST_HOURS];
    let mut contents = [None; MOST_HOURS];
    record_hours(meter, &mut flows, &mut contents)?;
    let states = meter.states();
    let recorded = Series {
        flows: &flows[..states.len()],
        contents: &contents[..states.len()],
    };
    Ok(destroyed(meter.kind(), efficiency, states, &recorded))
}

// Lays what each hour recorded into two series, up to the first hour that is refused. It counts the hours, since each asks the meter by its number and
// is the place of a refusal, and since a proof would know nothing of what a walk over both arrays at once has written.
#[tactic(auto, using(laws::proofs::Counting::search_stops, laws::proofs::Counting::search_ends, crate::proofs::Passing::refused_at, crate::proofs::Passing::none_refused, crate::proofs::Passing::held_up_to))]
fn record_hours(
    meter: &Meter,
    flows: &mut [Option<u64>],
    contents: &mut [Option<u64>],
) -> Result<(), Refusal>
    requires is_month { IsMonth meter.now }
    requires hold_a_month { (length (states_of meter.now) ≤ length flows.old) × (length (states_of meter.now) ≤ length contents.old) }
    ensures passes { result ≡ passing_of (hour_in meter.now) (length (states_of meter.now)) }
    ensures flows_recorded { Holds flows.new
        (first_refused (hour_in meter.now) (length (states_of meter.now)))
        (recorded flow_of (hour_in meter.now)) }
    ensures contents_recorded { Holds contents.new
        (first_refused (hour_in meter.now) (length (states_of meter.now)))
        (recorded content_of (hour_in meter.now)) }
{
    for hour in 0..meter.states().len() {
        let Some(recorded) = meter.recorded_at(hour) else {
            return Err(Reason::BadHour.at(hour));
        };
        flows[hour] = recorded.flow;
        contents[hour] = recorded.content;
    }
    Ok(())
}

// The flows and the contents of a month's hours, recorded or filled.
#[derive(Clone, Copy)]
struct Series<'a> {
    flows: &'a [Option<u64>],
    contents: &'a [Option<u64>],
}

impl Series<'_> {
    // An hour, from 0.
    fn at(&self, hour: usize) -> Recorded
        requires { (hour < length self.now.flows.now) × (hour < length self.now.contents.now) }
        ensures { result ≡ both_at (series self.now.flows.now) (series self.now.contents.now) hour }
    {
        Recorded {
            flow: self.flows[hour],
            content: self.contents[hour],
        }
    }
}

// Grams destroyed in a month, by what each hour recorded: the gaps are filled, and the hours summed. Kind, efficiency and states go on as they came, to be
// taken apart by each hour.
fn destroyed(kind: Kind, efficiency: u32, states: &[u8], recorded: &Series) -> Methane
    requires as_long { AsLong (length recorded.now.flows.now) (length recorded.now.contents.now) (length states.now)
        × (efficiency ≤ whole_efficiency) }
    requires at_most { AtMost (most_flow kind) recorded.now.flows.now × AtMost most_content recorded.now.contents.now }
    ensures { result ≡ methane (destroyed_of kind efficiency (state_at states.now)
        (series recorded.now.flows.now) (series recorded.now.contents.now) (length states.now)) }
{
    let flows = meter_gaps::fill(recorded.flows);
    let contents = meter_gaps::fill(recorded.contents);
    let filled = Series {
        flows: &flows,
        contents: &contents,
    };
    sum(kind, efficiency, states, recorded, &filled)
}

// The sum over the hours of what each destroyed. It counts the hours, since an hour's number asks both what was recorded and what is filled.
#[tactic(auto, using(crate::proofs::Totals::grams_none, crate::proofs::Totals::grams_more, meter_state::proofs::States::before_end))]
fn sum(kind: Kind, efficiency: u32, states: &[u8], recorded: &Series, filled: &Series) -> Methane
    requires one_month { (length states.now ≤ most_hours) × (efficiency ≤ whole_efficiency) }
    requires of_each_hour { (length states.now ≤ length recorded.now.flows.now) × (length states.now ≤ length recorded.now.contents.now)
        × (length states.now ≤ length filled.now.flows.now) × (length states.now ≤ length filled.now.contents.now) }
    requires at_most { AtMost (most_flow kind) filled.now.flows.now × AtMost most_content filled.now.contents.now }
    ensures { result ≡ methane (grams_of kind efficiency (state_at states.now)
        (series recorded.now.flows.now) (series recorded.now.contents.now)
        (series filled.now.flows.now) (series filled.now.contents.now) (length states.now)) }
{
    let mut total = Methane::of_grams(0);
    for (hour, state) in states.iter().enumerate() {
        total = total.plus(meter_hour::hour_grams(
            kind,
            efficiency,
            *state,
            recorded.at(hour),
            filled.at(hour),
        ));
    }
    total
}
