// The C face of the program, for a cabinet's firmware: exports alone, each one call of the function that it
// stands for. include/cabinet.h says it to a C compiler.
#![tactic(auto)]

ghost use Rattle.std.specs.Prelude.{◌≡◌};
ghost use Rattle.book.specs.Book.{answer_of, book_after};
ghost use Rattle.book.specs.Valid.{Valid};
ghost use Rattle.year.specs.Answer.{answer_of as year_answer_of};
ghost use Rattle.meter_month.specs.Month.{month_of as meter_month_of, feet_month_of};
ghost use Rattle.meter_feet.specs.Feet.{recorded_of};
ghost use Rattle.meter_reading.specs.Exact.{litres_of, hundredths_of};
ghost use Rattle.cabinet.specs.Face.{sized, emptied, posted_of, year_of, month_of, feet_hour_of, reading_of};

use book::Book;
use meter_feet::Sample;
use meter_hour::Recorded;
use refusals::Refusal;
use units::Methane;
use year::Figures;

// C has no `Option` and no `Result`: in the structs below the number 0 or a flag says which of the two it would be. The number that says that nothing was
// refused:
const NOT_REFUSED: u64 = 0;

// A record: a refusal's number and place.
#[repr(C)]
#[derive(Clone, Copy, Default)]
pub struct CabinetPosted {
    pub number: u64,
    pub place: u64,
}

// A year: a refusal's number and place, or grams of solids, grams of carbon dioxide equivalent, and tonnes.
#[repr(C)]
#[derive(Clone, Copy, Default)]
pub struct CabinetYear {
    pub number: u64,
    pub place: u64,
    pub entered: u64,
    pub degraded: u64,
    pub removed: u64,
    pub carried: u64,
    pub baseline: u64,
    pub project_methane: u64,
    pub metered: u64,
    pub net: i64,
    pub credited: u64,
}

// A meter month: a refusal's number and place, or grams of methane.
#[repr(C)]
#[derive(Clone, Copy, Default)]
pub struct CabinetMonth {
    pub number: u64,
    pub place: u64,
    pub destroyed: u64,
}

// One reading: whether it is taken, and what it counts.
#[repr(C)]
#[derive(Clone, Copy, Default)]
pub struct CabinetReading {
    pub taken: bool,
    pub whole: u64,
}

// One hour of a meter in cubic feet: whether it is taken, and its flow and its content, where they are there.
#[repr(C)]
#[derive(Clone, Copy, Default)]
pub struct CabinetFeetHour {
    pub taken: bool,
    pub has_flow: bool,
    pub has_content: bool,
    pub flow: u64,
    pub content: u64,
}

// What each answer is to a C caller.
impl From<Result<(), Refusal>> for CabinetPosted {
    ghost from_gives = { λ answer face. face ≡ posted_of answer };

    fn from(answer: Result<(), Refusal>) -> Self {
        match answer {
            Ok(()) => CabinetPosted {
                number: NOT_REFUSED,
                place: 0,
            },
            Err(refusal) => CabinetPosted {
                number: u64::from(refusal.reason.number()),
                place: refusal.place as u64,
            },
        }
    }
}

impl From<Result<Figures, Refusal>> for CabinetYear {
    ghost from_gives = { λ answer face. face ≡ year_of answer };

    fn from(answer: Result<Figures, Refusal>) -> Self {
        match answer {
            Ok(figures) => CabinetYear {
                number: NOT_REFUSED,
                place: 0,
                entered: figures.entered.grams(),
                degraded: figures.degraded.grams(),
                removed: figures.removed.grams(),
                carried: figures.carried.grams(),
                baseline: figures.baseline.grams(),
                project_methane: figures.project_methane.grams(),
                metered: figures.metered.grams(),
                net: figures.net,
                credited: figures.credited,
            },
            Err(refusal) => CabinetYear {
                number: u64::from(refusal.reason.number()),
                place: refusal.place as u64,
                ..CabinetYear::default()
            },
        }
    }
}

impl From<Result<Methane, Refusal>> for CabinetMonth {
    ghost from_gives = { λ answer face. face ≡ month_of answer };

    fn from(answer: Result<Methane, Refusal>) -> Self {
        match answer {
            Ok(methane) => CabinetMonth {
                number: NOT_REFUSED,
                place: 0,
                destroyed: methane.grams(),
            },
            Err(refusal) => CabinetMonth {
                number: u64::from(refusal.reason.number()),
                place: refusal.place as u64,
                destroyed: 0,
            },
        }
    }
}

impl From<Option<Recorded>> for CabinetFeetHour {
    ghost from_gives = { λ hour face. face ≡ feet_hour_of hour };

    fn from(hour: Option<Recorded>) -> Self {
        match hour {
            Some(recorded) => CabinetFeetHour {
                taken: true,
                has_flow: recorded.flow.is_some(),
                has_content: recorded.content.is_some(),
                flow: recorded.flow.unwrap_or(0),
                content: recorded.content.unwrap_or(0),
            },
            None => CabinetFeetHour::default(),
        }
    }
}

impl From<Option<u64>> for CabinetReading {
    ghost from_gives = { λ reading face. face ≡ reading_of reading };

    fn from(reading: Option<u64>) -> Self {
        match reading {
            Some(whole) => CabinetReading { taken: true, whole },
            None => CabinetReading::default(),
        }
    }
}

// Makes lent memory an empty book. Memory of another size than a book's is left as it is, and the answer is false.
#[unsafe(no_mangle)]
pub extern "C" fn cabinet_empty(memory: &mut [u8]) -> bool
    ensures value { result ≡ sized memory.old }
    ensures memory_after { memory.new ≡ emptied memory.old }
{
    if memory.len() != book::BYTES {
        return false;
    }
    book::empty(memory);
    true
}

// Posts a record: fills its key's slot, or changes nothing.
#[unsafe(no_mangle)]
pub extern "C" fn cabinet_post(book: &mut [u8], posted: &[u8]) -> CabinetPosted
    requires { Valid book.old }
    ensures value { result ≡ posted_of (answer_of book.old posted.now) }
    ensures after { book.new ≡ book_after book.old posted.now }
{
    CabinetPosted::from(book::post(book, posted))
}

// A year of a book, for any year number.
#[unsafe(no_mangle)]
pub extern "C" fn cabinet_year(book: &[u8], year: u64) -> CabinetYear
    requires { Valid book.now }
    ensures { result ≡ year_of (year_answer_of book.now year) }
{
    CabinetYear::from(year::year(&Book::of(book), year))
}

// The month of one meter in cubic metres, for any lengths and any bytes.
#[unsafe(no_mangle)]
pub extern "C" fn cabinet_month(
    flows: &[f32],
    contents: &[f32],
    states: &[u8],
    efficiency: u32,
) -> CabinetMonth
    ensures { result ≡ month_of (meter_month_of flows.now contents.now states.now efficiency) }
{
    CabinetMonth::from(meter_month::month(flows, contents, states, efficiency))
}

// The month of one meter in cubic feet, for any lengths and any bytes.
#[unsafe(no_mangle)]
pub extern "C" fn cabinet_feet_month(
    flows: &[f32],
    contents: &[f32],
    temperatures: &[f32],
    pressures: &[f32],
    states: &[u8],
    efficiency: u32,
) -> CabinetMonth
    ensures { result ≡ month_of (feet_month_of flows.now contents.now temperatures.now pressures.now
        states.now efficiency) }
{
    CabinetMonth::from(meter_month::feet_month(
        flows,
        contents,
        temperatures,
        pressures,
        states,
        efficiency,
    ))
}

// One hour of a meter in cubic feet.
#[unsafe(no_mangle)]
pub extern "C" fn cabinet_feet_hour(
    flow: f32,
    content: f32,
    temperature: f32,
    pressure: f32,
    state: u8,
) -> CabinetFeetHour
    ensures { result ≡ feet_hour_of (recorded_of (record { flow = flow; content = content; temperature = temperature; pressure = pressure }) state) }
{
    let sample = Sample {
        flow,
        content,
        temperature,
        pressure,
    };
    CabinetFeetHour::from(meter_feet::recorded(sample, state))
}

// One flow as whole litres.
#[unsafe(no_mangle)]
pub extern "C" fn cabinet_litres(flow: f32) -> CabinetReading
    ensures { result ≡ reading_of (litres_of flow) }
{
    CabinetReading::from(meter_reading::litres(flow))
}

// One content as whole hundredths of a per cent.
#[unsafe(no_mangle)]
pub extern "C" fn cabinet_hundredths(content: f32) -> CabinetReading
    ensures { result ≡ reading_of (hundredths_of content) }
{
    CabinetReading::from(meter_reading::hundredths(content))
}
