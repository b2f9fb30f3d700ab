// A meter of either kind, by the lists that it lends for a month.
ghost use Rattle.std.specs.Prelude.{◌≡◌, ◌<◌, length};
ghost use Rattle.meter_month.specs.Month.{is_month, are_hours};
ghost use Rattle.meter_month.specs.Meters.{IsMonth, kind_of, states_of, is_month_in, hour_in};

use meter_hour::{Kind, Recorded};

// A meter in cubic metres has no temperatures and no pressures.
#[derive(Clone, Copy)]
pub(crate) enum Meter<'a> {
    CubicMetres {
        flows: &'a [f32],
        contents: &'a [f32],
        states: &'a [u8],
    },
    CubicFeet {
        flows: &'a [f32],
        contents: &'a [f32],
        temperatures: &'a [f32],
        pressures: &'a [f32],
        states: &'a [u8],
    },
}

impl<'a> Meter<'a> {
    pub(crate) fn kind(&self) -> Kind
        ensures { result ≡ kind_of self.now }
    {
        match self {
            Meter::CubicMetres { .. } => Kind::CubicMetres,
            Meter::CubicFeet { .. } => Kind::CubicFeet,
        }
    }

    pub(crate) fn states(&self) -> &'a [u8]
        ensures { result.now ≡ states_of self.now }
    {
        match *self {
            Meter::CubicMetres { states, .. } => states,
            Meter::CubicFeet { states, .. } => states,
        }
    }

    // Whether each hour has its values, and the hours are those of a month.
    pub(crate) fn is_month(&self) -> bool
        ensures { result ≡ is_month_in self.now }
    {
        match *self {
            Meter::CubicMetres {
                flows,
                contents,
                states,
            } => are_hours(flows.len(), contents.len(), states.len()),
            Meter::CubicFeet {
                flows,
                contents,
                temperatures,
                pressures,
                states,
            } => {
                let hours = states.len();
                are_hours(flows.len(), contents.len(), hours)
                    && are_hours(temperatures.len(), pressures.len(), hours)
            }
        }
    }

    // What an hour, from 0, records; `None` says that it is refused.
    pub(crate) fn recorded_at(&self, hour: usize) -> Option<Recorded>
        requires is_month { IsMonth self.now }
        requires in_month { hour < length (states_of self.now) }
        ensures { result ≡ hour_in self.now hour }
    {
        match *self {
            Meter::CubicMetres {
                flows,
                contents,
                states,
            } => meter_hour::recorded_at(flows, contents, states, hour),
            Meter::CubicFeet {
                flows,
                contents,
                temperatures,
                pressures,
                states,
            } => { meter_feet::recorded_at(flows, contents, temperatures, pressures, states, hour) }
        }
    }
}

// Whether each hour has two readings and a state, and the hours are those of a month.
fn are_hours(readings: usize, others: usize, states: usize) -> bool
    ensures { result ≡ are_hours readings others states }
{
    readings == states && others == states && is_month(states)
}

// 28 to 31 days of 24 hours.
fn is_month(hours: usize) -> bool
    ensures { result ≡ is_month hours }
{
    matches!(hours, 672 | 696 | 720 | 744)
}
