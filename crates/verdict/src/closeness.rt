// The closeness of a call: from -10 to 20. One more closeness asks for one more bit of evidence before a stretch is rejected (rule T4).
ghost use Rattle.std.specs.Prelude.{◌≡◌, ℤ, pos, ◌-ℤ◌};
ghost use Rattle.verdict.specs.Test.{least_closeness};
ghost use Rattle.verdict.specs.Settings.{Offered};

use std::marker::Model;

pub const LEAST_CLOSENESS: i32 = -10;

pub const MOST_CLOSENESS: i32 = 20;

// A closeness that is offered. In clauses it stands for its number.
#[derive(Clone, Copy)]
pub struct Closeness {
    value: i32,
}

impl Model for Closeness {
    ghost Value = { ℤ };

    ghost view = { λ c. c.value };

    ghost invariant = { λ c. Offered c.value };

    ghost inverse = { λ e. record { value = e } };
}

impl Closeness {
    pub fn new(value: i32) -> Self
        requires { Offered value }
        ensures { result ≡ value }
    {
        Closeness { value }
    }

    // How far it lies above the least one.
    pub(crate) fn above_least(self) -> u64
        ensures { pos result ≡ self -ℤ least_closeness }
    {
        (self.value - LEAST_CLOSENESS) as u64
    }
}
