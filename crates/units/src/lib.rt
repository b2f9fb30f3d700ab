// The protocol's three units, whole grams each, and the two rules that lead from one to another: the B0
// rule and the potential.
//
// The fields are private: outside this crate only `of_grams` makes a unit of a bare number, which names the unit at that place, and
// no sum, difference or share mixes two units. What `plus` asks is a fact of two masses, and so of no type.
//
// Three structs of one field, since the paper names that form for them. No trait over the three: it would say each contract once more, and each unit would
// still have its own `of_grams` and `grams`.
#![tactic(auto)]

mod co2e;
mod methane;
mod solids;

pub use co2e::Co2e;
pub use methane::Methane;
pub use solids::Solids;

// Methane's warming potential: how many times as much a gram of it warms the air as a gram of carbon dioxide (5.3, 5.10).
pub const POTENTIAL: u64 = 21;

// Hundredths of a kilogram of methane in a cubic metre, which are hundredths of a gram in a litre (5.3). Times the
// potential it is 01's 14.28.
pub const DENSITY: u64 = 68;
