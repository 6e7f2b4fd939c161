//! Where the ports stand: an index by link and address.
ghost use Rattle.std.specs.Prelude.{◌≡◌, ◌<◌, [], None, IfOk, MatchResult, OnOk};
ghost use Rattle.std.specs.Ordering.{nat_cmp};
ghost use Rattle.std.specs.Cmp.Lexicographic.{slice_cmp};
ghost use Rattle.cip_chassis.specs.Seats.{spot_cmp, spot, AreRising, StandsAt, FitsAt, seat_at};
ghost use Rattle.cip_chassis.specs.Seats.{seated};

use cip_base::{Address, NoMemory, PortNumber};
use std::alloc::Global;
use std::cmp::Ordering;
use std::marker::Model;

/// A link, by its place in the topology, and an address on it.
#[derive(Drop)]
pub struct Spot {
    pub link: usize,
    pub address: Address,
}

/// A port: the place of its module, and its number.
#[derive(Clone, Copy)]
pub struct Seat {
    pub at: usize,
    pub port: PortNumber,
}

// How many notes there are.
const NOTES: usize = 256;

/// Which port stands at which spot.
#[derive(Drop)]
pub struct Seats {
    // In rising spot.
    seats: Vec<(Spot, Seat)>,
    // For each note the place of the last spot that has it, or 0. It only says where to look first:
    // what stands there is compared, and where it is another the search finds the spot.
    noted: [u16; NOTES],
}

impl Model for Seats {
    ghost use Rattle.std.specs.Prelude.{List};
    ghost use Rattle.cip_chassis.specs.declared.seats.Spot.{Spot};
    ghost use Rattle.cip_chassis.specs.declared.seats.Seat.{Seat};
    ghost use Rattle.cip_chassis.specs.Seats.{AreRising};

    ghost Value = { List (Spot × Seat) };

    ghost view = { λ s. s.seats.items };

    ghost invariant = { λ s. AreRising s.seats.items };
}

fn copy_seat(seated: &(Spot, Seat)) -> (Spot, Seat)
    ensures { result ≡ seated.now }
{
    let spot = Spot {
        link: seated.0.link,
        address: seated.0.address.copy(),
    };
    (spot, seated.1)
}

fn copy_seats(alloc: Global, seats: &[(Spot, Seat)]) -> Result<Vec<(Spot, Seat)>, NoMemory>
    ensures { IfOk result (λ v. v.items ≡ seats.now) }
{
    let mut copies = Vec::new(alloc);
    for seated in seats {
        copies.push(copy_seat(seated))?;
    }
    Ok(copies)
}

// The note of a spot. Spots of one link whose addresses are alike but for the last byte, or but
// for two decimal digits at the end, have different ones.
#[inline(always)]
fn note_of(link: usize, address: &[u8]) -> usize
    ensures { result < 256 }
{
    let last = match address {
        [.., tens, ones] => 10 * usize::from(*tens) + usize::from(*ones),
        [only] => usize::from(*only),
        [] => 0,
    };
    link.wrapping_mul(64).wrapping_add(last) % NOTES
}

fn places_noted(seats: &[(Spot, Seat)]) -> [u16; NOTES] {
    let mut noted = [0; NOTES];
    for (place, (spot, _)) in seats.iter().enumerate() {
        noted[note_of(spot.link, spot.address.as_slice())] = (place % 65536) as u16;
    }
    noted
}

impl Seats {
    /// No seat.
    pub fn new(alloc: Global) -> Seats
        ensures { result ≡ [] }
    {
        Seats {
            seats: Vec::new(alloc),
            noted: [0; NOTES],
        }
    }

    /// The same, with the places of its spots noted: of those with one note, that of the last.
    pub fn with_notes(self) -> Seats
        ensures { result ≡ self }
    {
        let noted = places_noted(&self.seats);
        Seats {
            seats: self.seats,
            noted,
        }
    }

    /// A copy; NoMemory where an allocation is refused.
    pub fn copy(&self, alloc: Global) -> Result<Seats, NoMemory>
        ensures { IfOk result (λ s. s ≡ self.now) }
    {
        Ok(Seats {
            seats: copy_seats(alloc, self.seats.as_slice())?,
            noted: self.noted,
        })
    }

    /// The port at an address of a link; None where none stands there.
    pub fn find(&self, link: usize, address: &Address) -> Option<Seat>
        ensures { result ≡ seat_at self.now link address.now }
    {
        let noted = usize::from(self.noted[note_of(link, address.as_slice())]);
        match place_near(&self.seats, noted, link, address) {
            Ok(at) => Some(self.seats[at].1),
            Err(_) => None,
        }
    }

    /// Seats a port at a spot where none stands; NoMemory where an allocation is refused.
    pub fn add(&mut self, spot: Spot, seat: Seat) -> Result<(), NoMemory>
        requires { seat_at self.old spot.link spot.address ≡ None }
        ensures { OnOk result (self.new ≡ seated spot seat self.old) }
    {
        let Err(at) = place_of(&self.seats, spot.link, &spot.address) else {
            unreachable!()
        };
        self.seats.insert(at, (spot, seat))?;
        Ok(())
    }
}

// Kept out of the search, where it is rarely needed.
#[inline(never)]
fn compare_bytes(left: &[u8], right: &[u8]) -> Ordering
    ensures { result ≡ slice_cmp nat_cmp left.now right.now }
{
    left.cmp(right)
}

// Addresses of one byte each are compared where the search stands.
#[inline(always)]
fn compare_addresses(left: &[u8], right: &[u8]) -> Ordering
    ensures { result ≡ slice_cmp nat_cmp left.now right.now }
{
    if left.len() == 1 && right.len() == 1 {
        left[0].cmp(&right[0])
    } else {
        compare_bytes(left, right)
    }
}

#[inline(always)]
fn compare(found: &Spot, link: usize, address: &[u8]) -> Ordering
    ensures { result ≡ spot_cmp found.now (spot link address.now) }
{
    match found.link.cmp(&link) {
        Ordering::Equal => compare_addresses(found.address.as_slice(), address),
        unequal => unequal,
    }
}

// Where the spot stands, or where it would: one place is looked at, then it is searched for.
fn place_near(
    seats: &[(Spot, Seat)],
    near: usize,
    link: usize,
    address: &Address,
) -> Result<usize, usize>
    requires { AreRising seats.now }
    ensures { MatchResult result (StandsAt seats.now (spot link address.now))
        (FitsAt seats.now (spot link address.now)) }
{
    if near < seats.len() {
        match compare(&seats[near].0, link, address.as_slice()) {
            Ordering::Equal => return Ok(near),
            _ => {}
        }
    }
    place_of(seats, link, address)
}

// Where the spot stands, or where it would, by binary search.
fn place_of(seats: &[(Spot, Seat)], link: usize, address: &Address) -> Result<usize, usize>
    requires { AreRising seats.now }
    ensures { MatchResult result (StandsAt seats.now (spot link address.now))
        (FitsAt seats.now (spot link address.now)) }
{
    let address = address.as_slice();
    let mut low = 0;
    let mut high = seats.len();
    while low < high {
        let middle = low + (high - low) / 2;
        match compare(&seats[middle].0, link, address) {
            Ordering::Less => low = middle + 1,
            Ordering::Equal => return Ok(middle),
            Ordering::Greater => high = middle,
        }
    }
    Err(low)
}
