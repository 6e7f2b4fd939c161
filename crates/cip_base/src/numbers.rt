//! Numbers that are never 0, and the place of a module.
ghost use Rattle.std.specs.Prelude.{◌≡◌, ◌<◌};
ghost use Rattle.std.specs.Option.{SomeIff};

use std::marker::Model;

/// A count of milliseconds, from 1 to 65,535.
#[derive(Clone, Copy, Debug, PartialEq, Eq, PartialOrd, Ord)]
pub struct Ms {
    count: u16,
}

impl Model for Ms {
    ghost use Rattle.std.specs.Prelude.{ℕ, ◌<◌};

    ghost Value = { ℕ };

    ghost view = { λ m. m.count };

    ghost invariant = { λ m. 0 < m.count };

    ghost inverse = { λ n. record { count = n } };
}

impl Ms {
    /// So many milliseconds; None for 0.
    pub fn new(count: u16) -> Option<Ms>
        ensures { SomeIff result (0 < count) count }
    {
        if count == 0 { None } else { Some(Ms { count }) }
    }

    /// The count, in milliseconds.
    pub fn get(self) -> u16
        ensures value { result ≡ self }
        ensures positive { 0 < result }
    {
        self.count
    }
}

/// The number of a module's port, from 1 to 65,535 (Volume 1, Appendix C, port segment: port 0 is
/// reserved).
#[derive(Clone, Copy, Debug, PartialEq, Eq, PartialOrd, Ord)]
pub struct PortNumber {
    number: u16,
}

impl Model for PortNumber {
    ghost use Rattle.std.specs.Prelude.{ℕ, ◌<◌};

    ghost Value = { ℕ };

    ghost view = { λ p. p.number };

    ghost invariant = { λ p. 0 < p.number };

    ghost inverse = { λ n. record { number = n } };
}

impl PortNumber {
    /// The port of this number; None for 0.
    pub fn new(number: u16) -> Option<PortNumber>
        ensures { SomeIff result (0 < number) number }
    {
        if number == 0 {
            None
        } else {
            Some(PortNumber { number })
        }
    }

    /// The number.
    pub fn get(self) -> u16
        ensures value { result ≡ self }
        ensures positive { 0 < result }
    {
        self.number
    }
}

/// A module's place in its chassis, counted from 0 in the order of the topology.
#[derive(Clone, Copy, Debug, PartialEq, Eq, PartialOrd, Ord)]
pub struct ModuleId(pub usize);
