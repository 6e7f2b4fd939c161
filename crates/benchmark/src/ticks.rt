//! The job `ticks`: time goes by at a bridge with many connections, a millisecond at a time.

use crate::made::Made;
use crate::plant::{ADAPTERS, CONNECTIONS, Plant, SLOTS};
use crate::random::Random;

// The milliseconds between two lots of data.
const SLICE: u64 = 25;

// The slices in a second.
const SECOND: u64 = 40;

// The slices in which some connections are left to their watchdogs.
const ERA: u64 = 320;

// The connections that are left to their watchdogs in an era: the first of so many adapters.
const SILENT: u64 = 4;

// The connections that get a datum in each direction in a slice.
const LOT: u64 = 4;

// The most bytes of a script.
const FULL: usize = 1_040_000;

// How long the run has gone on.
#[derive(Clone, Copy)]
struct Now {
    slice: u64,
    era: u64,
}

/// Makes a plant and what happens there: all connections are opened, and get a datum in each
/// direction every 1.5 seconds of the bridge. Some get none for 8 seconds, and are opened anew.
pub fn make(random: &mut Random, made: &mut Made, is_indexed: bool, is_small: bool) {
    let plant = Plant::of(random);
    plant.put_topology(random, &mut made.topology, is_indexed);
    plant.put_opens(random, &mut made.script);
    let slices = if is_small { ERA + SECOND } else { 7 * ERA };
    for slice in 0..slices {
        if made.script.len() > FULL {
            break;
        }
        let now = Now {
            slice,
            era: slice / ERA,
        };
        put_slice(&plant, random, made, now);
    }
}

fn put_slice(plant: &Plant, random: &mut Random, made: &mut Made, now: Now) {
    if now.slice % SECOND == 0 {
        plant.put_ticks(&mut made.script, 1_000);
    }
    if now.slice % ERA == 0 && now.era > 0 {
        put_reopens(plant, random, made, now.era - 1);
    }
    put_lot(plant, random, made, now);
    for _ in 0..SLICE {
        made.script.put(b"tick @ 1\n", &[plant.bridge]);
    }
}

// Data both ways for the connections whose turn it is. The turns go round all of them.
fn put_lot(plant: &Plant, random: &mut Random, made: &mut Made, now: Now) {
    for place in 0..LOT {
        let turn = now.slice.wrapping_mul(LOT).wrapping_add(place);
        let connection = turn.wrapping_mul(7) % CONNECTIONS;
        if !is_silent(connection, now.era) {
            put_data(plant, random, made, now, connection);
        }
    }
    made.script.put(b"run 1000\n", &[]);
}

fn put_data(plant: &Plant, random: &mut Random, made: &mut Made, now: Now, connection: u64) {
    let op = op_of(plant, connection, now.era);
    let slot = connection % SLOTS;
    plant.put_enter(random, &mut made.script, op, slot, now.slice);
    if now.slice % 8 == 0 {
        plant.put_set(random, &mut made.script, connection);
    }
    plant.put_produce(&mut made.script, connection);
}

// Whether a connection is left to its watchdogs in an era.
fn is_silent(connection: u64, era: u64) -> bool {
    connection % SLOTS == 0 && connection / SLOTS / SILENT == era
}

// The op by which a connection was opened, or opened anew.
fn op_of(plant: &Plant, connection: u64, era: u64) -> u64 {
    let adapter = connection / SLOTS;
    if connection % SLOTS == 0 && adapter / SILENT < era {
        anew(plant, adapter)
    } else {
        plant.op.wrapping_add(connection)
    }
}

// The op that opens an adapter's first connection anew; the one before it closes it.
fn anew(plant: &Plant, adapter: u64) -> u64 {
    let past = adapter.wrapping_mul(2).wrapping_add(CONNECTIONS + 1);
    plant.op.wrapping_add(past)
}

// The connections that were silent in an era are closed, wherever they are still open, and opened
// anew.
fn put_reopens(plant: &Plant, random: &mut Random, made: &mut Made, era: u64) {
    for place in 0..SILENT {
        let adapter = era.wrapping_mul(SILENT).wrapping_add(place) % ADAPTERS;
        let connection = adapter * SLOTS;
        let op = anew(plant, adapter);
        let old = plant.op.wrapping_add(connection);
        made.script.put(
            b"close @ % % 7 250\nrun 100\n",
            &[plant.scanner, op.wrapping_sub(1), old],
        );
        plant.put_open(random, &mut made.script, connection, op);
    }
    made.script.put(b"run 100\n", &[]);
}
