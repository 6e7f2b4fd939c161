//! The first of many deadlines, in logarithmic time.
ghost use Rattle.std.specs.Prelude.{◌≡◌, ℕ, ◌*◌, ◌<◌, ◌≤◌, length, drop, slice_index, slice_set};
ghost use Rattle.std.specs.Prelude.{IfOk, min};
ghost use Rattle.cip_clock.specs.declared.deadlines.TheConstants.{NEVER as never};
ghost use Rattle.cip_clock.specs.Bounds.{bound_of, IsTree};

use std::alloc::{AllocError, Global};
use std::marker::Model;

/// The bound of a record that has no deadline: the last time of 64 bits.
pub const NEVER: u64 = 18_446_744_073_709_551_615;

/// The last time that a bound tells, one before `NEVER`. A later deadline has this bound.
pub const LAST_BOUND: u64 = 18_446_744_073_709_551_614;

/// The bound of a record with this deadline, in microseconds, or with none.
#[inline(always)]
pub fn bound_of(deadline: Option<u64>) -> u64
    ensures { result ≡ bound_of deadline }
{
    match deadline {
        Some(time) => time.min(LAST_BOUND),
        None => NEVER,
    }
}

/// A bound for each key from 0 on, in microseconds: a time before which its record is not due. The
/// least of them is known at once, and a change of one takes time that is logarithmic in their
/// number. Only `with_room` takes memory.
#[derive(Drop)]
pub struct Deadlines {
    room: usize,
    // A tree. The bound of a key stands at `room` + key; at each place from 1 to `room` - 1 stands
    // the earlier of the two at 2 * place and 2 * place + 1, so that the least of all stands at 1.
    times: Vec<u64>,
}

impl Model for Deadlines {
    ghost use Rattle.std.specs.Prelude.{ℕ, ◌≡◌, ◌<◌, ◌*◌, List, length, drop};
    ghost use Rattle.cip_clock.specs.Bounds.{IsTree};

    ghost Value = { List ℕ };

    ghost view = { λ d. drop d.room d.times.items };

    ghost invariant = { λ d. (0 < d.room) × (length d.times.items ≡ 2 * d.room)
        × IsTree d.times.items };
}

impl Deadlines {
    /// Bounds for at least so many keys, each `NEVER`. AllocError where the room is refused.
    pub fn with_room(alloc: Global, room: usize) -> Result<Deadlines, AllocError>
        ensures room { IfOk result (λ d. room ≤ length d) }
        ensures never { IfOk result (λ d. (key : ℕ) → key < length d → slice_index d key ≡ never) }
    {
        let room = room.max(1);
        let Some(places) = room.checked_mul(2) else {
            return Err(AllocError);
        };
        Ok(Deadlines {
            room,
            times: vec![in alloc; NEVER; places]?,
        })
    }

    /// The least bound.
    #[inline(always)]
    pub fn least(&self) -> u64
        ensures least { (key : ℕ) → key < length self.now → result ≤ slice_index self.now key }
        ensures reached { (key : ℕ) × (key < length self.now)
            × (slice_index self.now key ≡ result) }
    {
        self.times[1]
    }

    /// A key of the least bound.
    pub fn first(&self) -> usize
        ensures within { result < length self.now }
        ensures least { (key : ℕ) → key < length self.now
            → slice_index self.now result ≤ slice_index self.now key }
    {
        let mut at = 1;
        while at < self.room {
            at *= 2;
            if self.times[at + 1] < self.times[at] {
                at += 1;
            }
        }
        at - self.room
    }

    /// The bound of a key.
    pub fn bound(&self, key: usize) -> u64
        requires { key < length self.now }
        ensures { result ≡ slice_index self.now key }
    {
        self.times[self.room + key]
    }

    /// The bound of a key becomes this time, where it is earlier.
    #[inline(always)]
    pub fn lower(&mut self, key: usize, time: u64)
        requires { key < length self.old }
        ensures { self.new ≡ slice_set self.old key (min (slice_index self.old key) time) }
    {
        if time < self.times[self.room + key] {
            self.set(key, time);
        }
    }

    /// The bound of a key becomes this time.
    #[inline(never)]
    pub fn set(&mut self, key: usize, time: u64)
        requires { key < length self.old }
        ensures { self.new ≡ slice_set self.old key time }
    {
        put(&mut self.times, self.room, key, time);
    }
}

// Puts the bound of a key into the tree, and the earlier of two at each place above it.
fn put(times: &mut [u64], room: usize, key: usize, time: u64)
    requires tree { IsTree times.old }
    requires size { length times.old ≡ 2 * room }
    requires within { key < room }
    ensures tree { IsTree times.new }
    ensures bounds { drop room times.new ≡ slice_set (drop room times.old) key time }
{
    times[room + key] = time;
    let mut at = (room + key) / 2;
    while at > 0 {
        times[at] = times[2 * at].min(times[2 * at + 1]);
        at /= 2;
    }
}
