// A meter month as bytes: the mark, CM or CF, the efficiency, the counts of its lists, and then the values that they count.
#![tactic(auto)]

ghost use Rattle.std.specs.Prelude.{◌≡◌, ◌&&◌, ◌+◌, ◌*◌, ◌≤◌, leb, length};
ghost use Rattle.meter_series.specs.Series.{most_hours};
ghost use Rattle.meter_bytes.specs.Format.{header_bytes, count_at, value_at, lent_of, whole_of, counted_of, stated_of};
ghost use Rattle.meter_bytes.specs.Asks.{Has, Count, counts_of};

mod floats;

use crate::floats::Floats;
use meter_hour::Kind;
use number_float::FLOAT;
use refusals::{Reason, Refusal};
use units::Methane;

// The bytes before the first flow, in cubic metres and in cubic feet.
const METRES_HEADER: usize = 10;

const FEET_HEADER: usize = 14;

// The floats of an hour in cubic feet: flow, content, temperature and pressure.
const FEET_FLOATS: usize = 4;

// The bytes of the longest month (`longest_bytes`): in cubic feet, for each of its hours four floats and a state.
pub const LONGEST: usize = FEET_HEADER + (FEET_FLOATS * FLOAT + 1) * meter_series::MOST_HOURS;

// The bytes of the mark, and where the efficiency and the first count stand.
const MARK: usize = 2;

const EFFICIENCY_AT: usize = 2;

const COUNTS_AT: usize = 4;

// The bytes of each of these.
const HALF: usize = 2;

// The month that the input holds: the methane that it destroyed, or why it is refused. An input too short for a mark is no month.
#[tactic(auto, using(crate::proofs::Headers::no_mark), unfolding(crate::specs::Format::stated_of))]
pub fn stated(input: &[u8]) -> Result<Methane, Refusal>
    ensures { result ≡ stated_of input.now }
{
    if input.len() < MARK {
        return Err(Reason::NoMonth.at(0));
    }
    match &input[..MARK] {
        b"CM" => counted(Kind::CubicMetres, input),
        b"CF" => counted(Kind::CubicFeet, input),
        _ => Err(Reason::UnknownMark.at(0)),
    }
}

// The month of an input with this kind's mark. Kind, input and counts go on to `whole` and to `lent`, each of which takes them apart: a struct of the three
// would be made for these two calls alone.
#[tactic(auto, using(crate::proofs::Headers::short_none, crate::proofs::Headers::counted_is))]
fn counted(kind: Kind, input: &[u8]) -> Result<Methane, Refusal>
    ensures { result ≡ counted_of kind input.now }
{
    if input.len() < header(kind) {
        return Err(Reason::NoMonth.at(0));
    }
    whole(kind, input, Counts::read(kind, input))
}

// How many values each list of a month has; a meter in cubic metres has no temperatures and no pressures.
#[derive(Clone, Copy, Debug, PartialEq, Eq)]
struct Counts {
    flows: usize,
    contents: usize,
    temperatures: usize,
    pressures: usize,
    states: usize,
}

impl Counts {
    // Those of a header: three in cubic metres, and five in cubic feet. It is a match, since what a header counts differs by kind.
    fn read(kind: Kind, input: &[u8]) -> Counts
        requires { header_bytes kind ≤ length input.now }
        ensures said { result ≡ counts_of kind input.now }
        ensures of_its_kind { Has kind result.temperatures result.pressures }
        ensures of_two_bytes { Count result.flows × Count result.contents × Count result.temperatures × Count result.pressures × Count result.states }
    {
        match kind {
            Kind::CubicMetres => Counts {
                flows: count(input, 0),
                contents: count(input, 1),
                temperatures: 0,
                pressures: 0,
                states: count(input, 2),
            },
            Kind::CubicFeet => Counts {
                flows: count(input, 0),
                contents: count(input, 1),
                temperatures: count(input, 2),
                pressures: count(input, 3),
                states: count(input, 4),
            },
        }
    }
}

// A count of the header; the first is count 0.
fn count(input: &[u8], index: usize) -> usize
    requires { 4 + 2 * index + 2 ≤ length input.now }
    ensures { (result ≡ count_at input.now index) × Count result }
{
    number_bytes::number(input, COUNTS_AT + HALF * index, HALF) as usize
}

// The bytes before the first flow. It is a match, since a trait for two kinds with a number each would be longer.
fn header(kind: Kind) -> usize
    ensures { result ≡ header_bytes kind }
{
    match kind {
        Kind::CubicMetres => METRES_HEADER,
        Kind::CubicFeet => FEET_HEADER,
    }
}

// The month of an input, if it is as long as its counts say; more values than the longest month has hours are none.
#[tactic(auto, using(crate::proofs::Long::readings_none, crate::proofs::Long::others_none), unfolding(crate::specs::Format::whole_of))]
fn whole(kind: Kind, input: &[u8], counts: Counts) -> Result<Methane, Refusal>
    requires of_two_bytes { Count counts.flows × Count counts.contents × Count counts.temperatures × Count counts.pressures × Count counts.states }
    requires of_its_kind { Has kind counts.temperatures counts.pressures }
    ensures { result ≡ whole_of kind input.now counts.flows counts.contents counts.temperatures
        counts.pressures counts.states }
{
    let floats = counts.flows + counts.contents + counts.temperatures + counts.pressures;
    if input.len() != header(kind) + FLOAT * floats + counts.states {
        return Err(Reason::NoMonth.at(0));
    }
    if !fit_a_month(counts.flows, counts.contents) {
        return Err(Reason::NoMonth.at(0));
    }
    if !fit_a_month(counts.temperatures, counts.pressures) {
        return Err(Reason::NoMonth.at(0));
    }
    lent(kind, input, counts)
}

// Whether neither of two counts is above the hours of the longest month.
fn fit_a_month(one: usize, other: usize) -> bool
    ensures { result ≡ (leb one most_hours && leb other most_hours) }
{
    one <= meter_series::MOST_HOURS && other <= meter_series::MOST_HOURS
}

// The month of an input with these counts; what follows its floats are the states. A match tells the two kinds apart, since each has a function of its own
// in the paper and in C, with its own lists.
#[tactic(auto, unfolding(crate::specs::Format::lent_of, crate::specs::Format::month_in))]
fn lent(kind: Kind, input: &[u8], counts: Counts) -> Result<Methane, Refusal>
    requires states_within { value_at kind (counts.flows + counts.contents + counts.temperatures + counts.pressures) ≤ length input.now }
    requires fit_a_month { (counts.flows ≤ most_hours) × (counts.contents ≤ most_hours)
        × (counts.temperatures ≤ most_hours) × (counts.pressures ≤ most_hours) }
    ensures { result ≡ lent_of kind input.now counts.flows counts.contents counts.temperatures
        counts.pressures }
{
    let flows_at = header(kind);
    let contents_at = flows_at + FLOAT * counts.flows;
    let temperatures_at = contents_at + FLOAT * counts.contents;
    let pressures_at = temperatures_at + FLOAT * counts.temperatures;
    let states_at = pressures_at + FLOAT * counts.pressures;
    let flows = Floats::read(input, flows_at, counts.flows);
    let contents = Floats::read(input, contents_at, counts.contents);
    let temperatures = Floats::read(input, temperatures_at, counts.temperatures);
    let pressures = Floats::read(input, pressures_at, counts.pressures);
    let efficiency = number_bytes::number(input, EFFICIENCY_AT, HALF) as u32;
    let states = &input[states_at..];
    match kind {
        Kind::CubicMetres => {
            meter_month::month(flows.values(), contents.values(), states, efficiency)
        }
        Kind::CubicFeet => meter_month::feet_month(
            flows.values(),
            contents.values(),
            temperatures.values(),
            pressures.values(),
            states,
            efficiency,
        ),
    }
}
