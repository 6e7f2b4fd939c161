//! The job `cyclic`: data both ways on many connections, every ten milliseconds.

use crate::made::Made;
use crate::plant::{ADAPTERS, CONNECTIONS, OPENING_ENTRIES, Plant, SLOTS};
use crate::random::Random;

// The milliseconds of a cycle.
const CYCLE: u64 = 10;

// The connections whose data is under way at a time.
const LOT: u64 = 5 * SLOTS;

// The most bytes of a script.
const FULL: usize = 1_030_000;

// How far the run is: the cycle, the entries so far, and how many deliveries the next run makes.
#[derive(Clone, Copy)]
struct Now {
    cycle: u64,
    entries: u64,
    waiting: u64,
}

impl Now {
    // A command or a loss is an entry, and so many deliveries follow from it.
    fn enters(&mut self, deliveries: u64) {
        self.entries = self.entries.wrapping_add(1);
        self.waiting = self.waiting.wrapping_add(deliveries);
    }

    // Each delivery is an entry.
    fn runs(&mut self) {
        self.entries = self.entries.wrapping_add(self.waiting);
        self.waiting = 0;
    }
}

/// Makes a plant and so many cycles of it: each connection gets a datum in each direction, of which
/// some are lost, and then time goes by everywhere.
pub fn make(random: &mut Random, made: &mut Made, is_indexed: bool, cycles: u64) {
    let plant = Plant::of(random);
    plant.put_topology(random, &mut made.topology, is_indexed);
    plant.put_opens(random, &mut made.script);
    let mut now = Now {
        cycle: 0,
        entries: OPENING_ENTRIES,
        waiting: 0,
    };
    for cycle in 0..cycles {
        if made.script.len() > FULL {
            break;
        }
        now.cycle = cycle;
        put_cycle(&plant, random, made, &mut now);
    }
}

fn put_cycle(plant: &Plant, random: &mut Random, made: &mut Made, now: &mut Now) {
    for lot in 0..CONNECTIONS / LOT {
        for place in 0..LOT {
            put_enter(plant, random, made, now, lot * LOT + place);
        }
        put_run(made, now);
        for place in 0..LOT {
            put_produce(plant, random, made, now, lot * LOT + place);
        }
        put_run(made, now);
    }
    made.script.put(b"tick @ %\n", &[plant.bridge, CYCLE]);
    plant.put_ticks(&mut made.script, CYCLE);
    now.entries = now.entries.wrapping_add(ADAPTERS + 2);
}

fn put_run(made: &mut Made, now: &mut Now) {
    made.script.put(b"run 1000\n", &[]);
    now.runs();
}

// A datum to an adapter. One in 200 is lost on its way to the bridge, one in 200 behind it.
fn put_enter(plant: &Plant, random: &mut Random, made: &mut Made, now: &mut Now, connection: u64) {
    let op = plant.op.wrapping_add(connection);
    let entry = now.entries;
    plant.put_enter(random, &mut made.script, op, connection % SLOTS, now.cycle);
    match random.below(200) {
        0 => {
            made.script.put(b"lose %.0\n", &[entry]);
            now.entries = now.entries.wrapping_add(2);
        }
        1 => {
            let next = entry.wrapping_add(1);
            made.script.put(b"deliver %.0\nlose %.0\n", &[entry, next]);
            now.entries = now.entries.wrapping_add(3);
        }
        _ => now.enters(2),
    }
}

// An adapter's datum, of new bytes one time in 16.
fn put_produce(
    plant: &Plant,
    random: &mut Random,
    made: &mut Made,
    now: &mut Now,
    connection: u64,
) {
    if random.below(16) == 0 {
        plant.put_set(random, &mut made.script, connection);
        now.enters(0);
    }
    plant.put_produce(&mut made.script, connection);
    now.enters(2);
}
