//! A module's own time, the deadlines that it sets by it, and the first of many deadlines.
#![tactic(auto)]

ghost use Rattle.std.specs.Prelude.{◌≡◌, ◌+◌, ◌*◌, ◌^◌, ◌<◌, ◌↔◌, OnOk, OnErr, IsOk};
ghost use Rattle.cip_clock.specs.Times.{ticks_us, watchdog_us};

mod deadlines;

use cip_base::Ms;
pub use deadlines::{Deadlines, LAST_BOUND, NEVER, bound_of};
use std::marker::Model;
use thiserror::Error;

/// The last time that a clock shows, in microseconds.
pub const LAST: u64 = 9_223_372_036_854_775_807;

/// The tick would lead past the last time.
#[derive(Clone, Copy, Debug, PartialEq, Eq, Error)]
#[error("the clock is full")]
pub struct ClockFull;

/// A module's own count of microseconds, from 0 to `LAST`, which only rises. No call takes memory.
#[derive(Clone, Copy, Debug, PartialEq, Eq)]
pub struct Clock {
    micros: u64,
}

impl Model for Clock {
    ghost use Rattle.std.specs.Prelude.{ℕ, ◌<◌, ◌^◌};

    ghost Value = { ℕ };

    ghost view = { λ c. c.micros };

    ghost invariant = { λ c. c.micros < 2 ^ 63 };

    ghost inverse = { λ n. record { micros = n } };
}

impl Clock {
    /// A clock that shows `us` microseconds, at most `LAST`.
    pub fn new(us: u64) -> Clock
        requires { us < 2 ^ 63 }
        ensures { result ≡ us }
    {
        Clock { micros: us }
    }

    /// The time, in microseconds.
    pub fn now(&self) -> u64
        ensures value { result ≡ self.now }
        ensures bound { result < 2 ^ 63 }
    {
        self.micros
    }

    /// Raises the time by so many milliseconds. ClockFull, and the time stays, where that would
    /// pass `LAST`.
    pub fn advance(&mut self, by: Ms) -> Result<(), ClockFull>
        ensures succeeds { IsOk result ↔ (self.old + 1000 * by < 2 ^ 63) }
        ensures ok { OnOk result (self.new ≡ self.old + 1000 * by) }
        ensures full { OnErr result (self.new ≡ self.old) }
    {
        let next = self.micros + 1000 * u64::from(by.get());
        if next > LAST {
            return Err(ClockFull);
        }
        self.micros = next;
        Ok(())
    }

    /// The deadline of a request with this priority/time tick and these time-out ticks: `ticks`
    /// times 2^`tick` milliseconds from now, in microseconds (Volume 1, chapter 3, time-out of
    /// unconnected services). `tick` is the exponent alone, at most 15. The deadline may lie past
    /// `LAST`.
    pub fn after_ticks(&self, tick: u8, ticks: u8) -> u64
        requires { tick < 16 }
        ensures { result ≡ self.now + ticks_us tick ticks }
    {
        self.micros + 1000 * ((1u64 << tick) * u64::from(ticks))
    }

    /// The time at which a connection of this requested packet interval (in microseconds) and
    /// connection timeout multiplier (0 to 7 for 4, 8, 16 .. 512 intervals) has been silent for too
    /// long, in microseconds (Volume 1, chapter 3, inactivity watchdog). It may lie past `LAST`.
    pub fn after_rpi(&self, rpi: u32, multiplier: u8) -> u64
        requires { multiplier < 8 }
        ensures { result ≡ self.now + watchdog_us rpi multiplier }
    {
        self.micros + u64::from(rpi) * (4u64 << multiplier)
    }
}
