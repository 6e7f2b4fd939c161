//! The job `requests`: everything that is asked in a chassis, in bulk.

use crate::chassis::Chassis;
use crate::made::Made;
use crate::random::Random;
use crate::talk::Talk;
use crate::text::Text;

// The requests that are under way at a time.
const BATCH: u64 = 32;

// How many connections are open at a time.
const OPEN: u64 = 12;

// The most batches of a script; its length ends it before.
const BATCHES: u64 = 10_000;

/// Makes a chassis and a script of at least so many bytes: requests that are answered, refused,
/// late and lost, connections that are opened, take data and are closed, and tables.
pub fn make(random: &mut Random, made: &mut Made, is_indexed: bool, length: usize) {
    let chassis = Chassis::of(random);
    chassis.put_topology(random, &mut made.topology, is_indexed);
    let mut talk = Talk::new(chassis, random);
    for batch in 0..BATCHES {
        if made.script.len() >= length {
            break;
        }
        put_batch(&mut talk, random, &mut made.script);
        put_special(&mut talk, random, &mut made.script, batch);
    }
}

fn put_batch(talk: &mut Talk, random: &mut Random, text: &mut Text) {
    if talk.open_count() > 6 {
        for _ in 0..3 {
            let back = random.below(4);
            talk.put_data(random, text, back);
        }
    }
    for _ in 0..BATCH {
        put_one(talk, random, text);
    }
    put_connections(talk, random, text);
    talk.put_run(text);
}

fn put_one(talk: &mut Talk, random: &mut Random, text: &mut Text) {
    match random.below(16) {
        0 => talk.put_refused(random, text),
        1 => talk.put_hurried(random, text),
        _ => talk.put_send(random, text),
    }
}

// Two connections are opened, and as many closed once enough are open.
fn put_connections(talk: &mut Talk, random: &mut Random, text: &mut Text) {
    let is_full = talk.open_count() >= OPEN;
    if is_full {
        talk.put_open_of_owned(random, text);
    }
    for _ in 0..2 {
        if is_full {
            talk.put_close(text);
        }
        talk.put_open(random, text);
    }
}

// What is played while nothing else is on its way.
fn put_special(talk: &mut Talk, random: &mut Random, text: &mut Text, batch: u64) {
    match batch % 8 {
        0 => talk.put_late(random, text),
        1 => talk.put_lost(random, text),
        2 => talk.put_tables(random, text),
        3 => talk.put_lost_reply(random, text),
        4 => talk.put_to_nobody(random, text),
        5 => talk.put_late(random, text),
        6 => talk.put_large(random, text),
        _ => talk.put_tables(random, text),
    }
}
