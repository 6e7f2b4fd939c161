//! A connection that is open.
ghost use Rattle.std.specs.Prelude.{◌≡◌, ◌<◌, ◌^◌};
ghost use Rattle.cip_hops.specs.Hops.{is_past, watched as watched_until};
ghost use Rattle.cip_hops.specs.Quiet.{deadline_of};

use crate::opening::{Opening, OwnIds};
use cip_clock::Clock;
use core::mem::replace_with;

/// A side of a connection: up towards its originator, down towards its target.
#[derive(Clone, Copy, Debug, PartialEq, Eq)]
pub enum Side {
    Up,
    Down,
}

/// A connection that is open.
#[derive(Debug, Drop, PartialEq, Eq)]
pub struct Hop {
    /// What was opened.
    pub opening: Opening,
    pub ids: OwnIds,
    /// The id under which the node below is sent data, its O to T id; None at an end.
    pub their_id: Option<u32>,
    /// The time in microseconds at which each side has been silent for too long; None where the
    /// side is no link.
    pub up_deadline: Option<u64>,
    pub down_deadline: Option<u64>,
    /// The sequence counts of the last datum that was consumed and of the last that was produced at
    /// an end.
    pub consumed: Option<u16>,
    pub produced: Option<u16>,
}

/// What stands under a triad.
#[derive(Debug, Drop, PartialEq, Eq)]
pub enum Held {
    Opening(Opening, OwnIds),
    Open(Hop),
}

/// What the table does to what stands under a triad, where it stands.
#[derive(Clone, Copy)]
pub(crate) enum Change {
    /// An opening becomes a hop, with the id of the node below, watched from now on.
    Finish { their_id: u32, now: u64 },
    /// A side of a hop is watched anew from now on.
    Touch { side: Side, now: u64 },
    /// A hop keeps the count of its last datum, consumed (up) or produced (down).
    Count { side: Side, count: u16 },
}

impl Held {
    ghost use Rattle.std.specs.Option.{option_copied};
    ghost use Rattle.cip_hops.specs.Changes.{Suits, change_of};
    ghost use Rattle.cip_hops.specs.Hops.{opening_of, ids_of, as_hop, is_hop_due};

    /// What was opened.
    pub fn opening(&self) -> &Opening
        ensures { result.now ≡ opening_of self.now }
    {
        match self {
            Held::Opening(opening, _) => opening,
            Held::Open(hop) => &hop.opening,
        }
    }

    /// The ids that it drew.
    pub fn ids(&self) -> OwnIds
        ensures { result ≡ ids_of self.now }
    {
        match self {
            Held::Opening(_, ids) => *ids,
            Held::Open(hop) => hop.ids,
        }
    }

    /// The connection, once it is open.
    pub fn hop(&self) -> Option<&Hop>
        ensures { option_copied result ≡ as_hop self.now }
    {
        match self {
            Held::Opening(_, _) => None,
            Held::Open(hop) => Some(hop),
        }
    }

    // Whether it is open, and either side has been silent for too long.
    pub(crate) fn is_due(&self, now: u64) -> bool
        ensures { result ≡ is_hop_due now self.now }
    {
        match self {
            Held::Opening(_, _) => false,
            Held::Open(hop) => hop.is_timed_out(now),
        }
    }

    // The first time at which either side has been silent for too long; None where neither is
    // watched.
    #[inline(always)]
    pub(crate) fn deadline(&self) -> Option<u64>
        ensures { result ≡ deadline_of self.now }
    {
        match self {
            Held::Opening(_, _) => None,
            Held::Open(hop) => match (hop.up_deadline, hop.down_deadline) {
                (Some(up), Some(down)) => Some(up.min(down)),
                (Some(up), None) => Some(up),
                (None, down) => down,
            },
        }
    }

    // An opening as a hop with the other side's id, watched from now on, for `replace_with`.
    fn finished(self, found: (u32, u64)) -> (Held, ())
        requires suits { Suits (Change.Finish found.0 found.1) self }
        requires multiplier { (opening_of self).multiplier < 8 }
        ensures { result.0 ≡ change_of (Change.Finish found.0 found.1) self }
    {
        let (their_id, now) = found;
        let hop = match self {
            Held::Opening(opening, ids) => Hop::opened(opening, ids, their_id, now),
            Held::Open(_) => unreachable!(),
        };
        (Held::Open(hop), ())
    }

    // The change, where it stands.
    #[inline(always)]
    pub(crate) fn change(&mut self, change: Change)
        requires suits { Suits change self.old }
        requires multiplier { (opening_of self.old).multiplier < 8 }
        ensures { self.new ≡ change_of change self.old }
    {
        match change {
            Change::Finish { their_id, now } => {
                replace_with(self, (their_id, now), Held::finished);
            }
            Change::Touch { side, now } => match self {
                Held::Opening(_, _) => unreachable!(),
                Held::Open(hop) => hop.touch(side, now),
            },
            Change::Count { side, count } => match self {
                Held::Opening(_, _) => unreachable!(),
                Held::Open(hop) => hop.set_count(side, count),
            },
        }
    }
}

fn is_past(deadline: Option<u64>, now: u64) -> bool
    ensures { result ≡ is_past now deadline }
{
    match deadline {
        Some(time) => time <= now,
        None => false,
    }
}

impl Hop {
    ghost use Rattle.cip_hops.specs.Hops.{is_timed_out, opened, touched, counted};

    /// Whether either side has been silent for too long at `now`, in microseconds.
    pub fn is_timed_out(&self, now: u64) -> bool
        ensures { result ≡ is_timed_out now self.now }
    {
        is_past(self.up_deadline, now) || is_past(self.down_deadline, now)
    }

    // An opening with the other side's id, watched from now on.
    pub(crate) fn opened(opening: Opening, ids: OwnIds, their_id: u32, now: u64) -> Hop
        requires multiplier { opening.multiplier < 8 }
        requires time { now < 2 ^ 63 }
        ensures { result ≡ opened opening ids their_id now }
    {
        let clock = Clock::new(now);
        let is_link = opening.down.is_link();
        Hop {
            their_id: is_link.then_some(their_id),
            up_deadline: watched(
                &clock,
                opening.up.is_link(),
                opening.ot_rpi,
                opening.multiplier,
            ),
            down_deadline: watched(&clock, is_link, opening.to_rpi, opening.multiplier),
            opening,
            ids,
            consumed: None,
            produced: None,
        }
    }

    // That side is watched anew from now on.
    #[inline(always)]
    fn touch(&mut self, side: Side, now: u64)
        requires multiplier { self.old.opening.multiplier < 8 }
        requires time { now < 2 ^ 63 }
        ensures { self.new ≡ touched side now self.old }
    {
        let clock = Clock::new(now);
        let multiplier = self.opening.multiplier;
        match side {
            Side::Up => self.up_deadline = Some(clock.after_rpi(self.opening.ot_rpi, multiplier)),
            Side::Down => {
                self.down_deadline = Some(clock.after_rpi(self.opening.to_rpi, multiplier));
            }
        }
    }

    // The count of its last datum, consumed (up) or produced (down).
    fn set_count(&mut self, side: Side, count: u16)
        ensures { self.new ≡ counted side count self.old }
    {
        match side {
            Side::Up => self.consumed = Some(count),
            Side::Down => self.produced = Some(count),
        }
    }
}

fn watched(clock: &Clock, is_link: bool, rpi: u32, multiplier: u8) -> Option<u64>
    requires { multiplier < 8 }
    ensures { result ≡ watched_until is_link clock.now rpi multiplier }
{
    if is_link {
        Some(clock.after_rpi(rpi, multiplier))
    } else {
        None
    }
}
