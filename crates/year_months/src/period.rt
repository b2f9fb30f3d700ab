// A year of the crediting period, by its number.
#![tactic(auto)]

ghost use Rattle.std.specs.Prelude.{◌≡◌, ℕ};
ghost use Rattle.year_months.specs.Series.{months_before, months_through};
ghost use Rattle.year_months.specs.Asks.{InPeriod};

use crate::MONTHS_IN_YEAR;
use std::marker::Model;

#[derive(Clone, Copy)]
pub struct Year {
    number: usize,
}

// In a clause a year is its number.
impl Model for Year {
    ghost Value = { ℕ };

    ghost view = { λ y. y.number };

    ghost invariant = { λ y. InPeriod y.number };

    ghost inverse = { λ n. record { number = n } };
}

impl Year {
    pub fn of(number: usize) -> Year
        requires { InPeriod number }
        ensures { result ≡ number }
    {
        Year { number }
    }

    // Its number and its months say that a year is one of the crediting period, for a function whose proof needs it.
    pub fn number(self) -> usize
        ensures value { result ≡ self }
        ensures in_period { InPeriod self }
    {
        self.number
    }

    pub fn months_before(self) -> usize
        ensures value { result ≡ months_before self }
        ensures in_period { InPeriod self }
    {
        MONTHS_IN_YEAR * (self.number - 1)
    }

    pub fn months_through(self) -> usize
        ensures value { result ≡ months_through self }
        ensures in_period { InPeriod self }
    {
        MONTHS_IN_YEAR * self.number
    }
}
