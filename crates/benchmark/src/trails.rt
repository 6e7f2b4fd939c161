//! The job `trails`: where each of many requests went, and the chains of the open connections.

use crate::chassis::Chassis;
use crate::made::Made;
use crate::random::Random;
use crate::talk::{Talk, originator_of};
use crate::text::Text;

// The requests between two runs.
const BATCH: u64 = 200;

// The connections that are opened first.
const OPEN: u64 = 12;

/// Makes a chassis and a script of so many requests, which are answered, and then the trail of
/// each, and the chain of each connection.
pub fn make(random: &mut Random, made: &mut Made, is_indexed: bool, sends: u64) {
    let chassis = Chassis::of(random);
    chassis.put_topology(random, &mut made.topology, is_indexed);
    let mut talk = Talk::new(chassis, random);
    let first = talk.op;
    for _ in 0..OPEN {
        talk.put_open(random, &mut made.script);
    }
    talk.put_run(&mut made.script);
    put_sends(&mut talk, random, &mut made.script, sends);
    for op in first..talk.op {
        let place = originator_of(op).0;
        let name = chassis.name(place);
        made.script.put(b"trail @ %\n", &[name, op]);
    }
    put_chains(&talk, &mut made.script);
}

fn put_sends(talk: &mut Talk, random: &mut Random, text: &mut Text, sends: u64) {
    for place in 0..sends {
        talk.put_send(random, text);
        if place % BATCH == BATCH - 1 {
            talk.put_data(random, text, 0);
            talk.put_run(text);
        }
    }
    talk.put_run(text);
}

fn put_chains(talk: &Talk, text: &mut Text) {
    for connection in 0..OPEN {
        let op = talk.op_of(connection);
        text.put(b"chain @ %\n", &[talk.chassis.scanner, op]);
    }
}
