// A meter's readings as whole numbers (01, "The meter month"; 02, (iii)); `None` where a reading is turned down, since it is not a number, infinite,
// too small or too large. Comparisons refuse what is no reading, a product that is exact scales it, and the floor is worked out from its bits, so that
// nothing is rounded up on the way.
#![tactic(auto)]

ghost use Rattle.std.specs.Prelude.{◌≡◌, ◌^◌, ◌<◌, ◌≤◌, T};
ghost use Rattle.meter_reading.specs.Exact.{times_down, is_between, scaled_of, litres_of, hundredths_of, cubic_feet_of, temperature_of, pressure_of};

// A flow in cubic metres is counted in litres.
const LITRES_IN_CUBIC_METRE: u32 = 1_000;

// What is counted in hundredths: a content in per cent, a flow in cubic feet, and a temperature.
const HUNDREDTHS_IN_ONE: u32 = 100;

// A pressure is counted in ten-thousandths.
const TEN_THOUSANDTHS_IN_ONE: u32 = 10_000;

// The largest flow of an hour, in cubic metres and in cubic feet, and the largest content.
const MOST_CUBIC_METRES: u32 = 100_000;

const MOST_CUBIC_FEET: u32 = 400_000;

const MOST_PER_CENT: u32 = 100;

// The lowest and the highest temperature, in degrees Rankine, and the largest pressure, in atm.
const LEAST_DEGREES: u32 = 400;

const MOST_DEGREES: u32 = 700;

const MOST_ATM: u32 = 10;

// The five readings that the paper names follow, each the one `scaled` with its own numbers. One function over an enum of the five would be no plainer:
// each caller would name the reading that it now calls, and the same five lines would stand as arms.

// A flow in cubic metres as whole litres.
pub fn litres(flow: f32) -> Option<u64>
    ensures { result ≡ litres_of flow }
{
    scaled(flow, LITRES_IN_CUBIC_METRE, 0, MOST_CUBIC_METRES)
}

// A content as whole hundredths of a per cent.
pub fn hundredths(content: f32) -> Option<u64>
    ensures { result ≡ hundredths_of content }
{
    scaled(content, HUNDREDTHS_IN_ONE, 0, MOST_PER_CENT)
}

// A flow in cubic feet as whole hundredths of one.
pub fn cubic_feet(flow: f32) -> Option<u64>
    ensures { result ≡ cubic_feet_of flow }
{
    scaled(flow, HUNDREDTHS_IN_ONE, 0, MOST_CUBIC_FEET)
}

// A temperature in degrees Rankine as whole hundredths of one.
pub fn temperature(degrees: f32) -> Option<u64>
    ensures { result ≡ temperature_of degrees }
{
    scaled(degrees, HUNDREDTHS_IN_ONE, LEAST_DEGREES, MOST_DEGREES)
}

// A pressure in atm as whole ten-thousandths of one.
pub fn pressure(atm: f32) -> Option<u64>
    ensures { result ≡ pressure_of atm }
{
    scaled(atm, TEN_THOUSANDTHS_IN_ONE, 0, MOST_ATM)
}

// `factor` times a number from `least` to `most`, by its exact value, rounded down; any other float is turned down. 24 binary digits times 28 stay
// below the 53 of an f64, so that the product is exact.
#[tactic(auto, unfolding(crate::specs::Exact::scaled_of))]
fn scaled(x: f32, factor: u32, least: u32, most: u32) -> Option<u64>
    requires factor_bound { factor < 2 ^ 28 }
    requires ends_exact { (least ≤ 2 ^ 24) × (most ≤ 2 ^ 24) }
    ensures { result ≡ scaled_of factor least most x }
{
    if is_between(x, least, most) {
        let product: f64 = (x as f64) * (factor as f64);
        return Some(floor(product));
    }
    None
}

// Whether x is a number from `least` to `most`: a comparison with what is no number is false.
#[tactic(auto, using(crate::proofs::Comparisons::second, crate::proofs::Comparisons::failed))]
fn is_between(x: f32, least: u32, most: u32) -> bool
    requires { (least ≤ 2 ^ 24) × (most ≤ 2 ^ 24) }
    ensures { result ≡ is_between least most x }
{
    x >= least as f32 && x <= most as f32
}

// An f64's exponent stands above its digits.
const EXPONENT_AT: u64 = 52;

// The digits that it stores.
const DIGITS: u64 = 0xf_ffff_ffff_ffff;

// The digit before them that it does not store.
const LEADING: u64 = 0x10_0000_0000_0000;

// Digits d at exponent e are worth d times 2 ^ (e - POINT).
const POINT: u64 = 1075;

// The whole part of x, from its bits.
fn floor(x: f64) -> u64
    requires { T (is_between 0 (2 ^ 52) x) }
    ensures { result ≡ times_down 1 x }
{
    if x >= 1.0 {
        let bits: u64 = f64::to_bits(x);
        let exponent: u64 = bits >> EXPONENT_AT;
        let digits: u64 = (bits & DIGITS) | LEADING;
        digits >> (POINT - exponent)
    } else {
        0
    }
}
