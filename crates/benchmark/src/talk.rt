//! What the modules of a chassis ask each other, and which entries of the journal that makes.

use crate::chassis::{Chassis, LARGE, Originator, SLOTS};
use crate::random::Random;
use crate::text::Text;

/// The talk of a chassis so far.
#[derive(Clone, Copy, Debug)]
pub struct Talk {
    pub chassis: Chassis,
    /// The next op, of whatever module.
    pub op: u64,
    // the entries so far, and how many deliveries the next run makes
    entries: u64,
    waiting: u64,
    // how many connections were opened, and how many closed, each in turn
    opened: u64,
    closed: u64,
    // the op that opened the connection of each slot
    ops: [u64; 16],
}

/// The module that asks by an op: mostly the scanner.
pub fn originator_of(op: u64) -> Originator {
    match op % 8 {
        6 => Originator(1),
        7 => Originator(2),
        _ => Originator(0),
    }
}

impl Talk {
    /// No module has asked anything.
    pub fn new(chassis: Chassis, random: &mut Random) -> Talk {
        Talk {
            chassis,
            op: random.among(1_000, 5_000),
            entries: 0,
            waiting: 0,
            opened: 0,
            closed: 0,
            ops: [0; 16],
        }
    }

    fn take_op(&mut self) -> u64 {
        let op = self.op;
        self.op = op.wrapping_add(1);
        op
    }

    // A command is an entry, and so many deliveries follow from it.
    fn enters(&mut self, deliveries: u64) {
        self.entries = self.entries.wrapping_add(1);
        self.waiting = self.waiting.wrapping_add(deliveries);
    }

    /// Every frame is delivered, and each delivery is an entry.
    pub fn put_run(&mut self, text: &mut Text) {
        text.put(b"run 10000\n", &[]);
        self.entries = self.entries.wrapping_add(self.waiting);
        self.waiting = 0;
    }

    /// How many connections are open.
    pub fn open_count(&self) -> u64 {
        self.opened.wrapping_sub(self.closed)
    }

    /// A request over one to three hops, which is answered at the end.
    pub fn put_send(&mut self, random: &mut Random, text: &mut Text) {
        let op = self.take_op();
        let from = originator_of(op);
        let hops = random.among(1, 3u64.wrapping_sub(from.0));
        text.put(b"send @ % 7 250 ", &[self.chassis.name(from.0), op]);
        self.chassis.put_path(text, from, hops);
        put_request(&self.chassis, random, text);
        self.enters(hops.wrapping_mul(2));
    }

    /// A request of the scanner whose path is refused by a bridge.
    pub fn put_refused(&mut self, random: &mut Random, text: &mut Text) {
        let op = self.take_op();
        let hops = random.among(1, 2);
        text.put(b"send @ % 7 250 ", &[self.chassis.scanner, op]);
        self.chassis.put_path(text, Originator(0), hops);
        match random.below(3) {
            0 => text.put(b"0F1000$", &[random.word()]),
            1 => text.put(b"2006", &[]),
            _ => put_key(random, text),
        }
        put_request(&self.chassis, random, text);
        self.enters(hops.wrapping_mul(2));
    }

    /// A request of the scanner with too few ticks for its way.
    pub fn put_hurried(&mut self, random: &mut Random, text: &mut Text) {
        let op = self.take_op();
        let hops = random.below(3);
        let ticks = hops.wrapping_add(1);
        text.put(b"send @ % 7 % ", &[self.chassis.scanner, op, ticks]);
        self.chassis.put_path(text, Originator(0), 3);
        put_request(&self.chassis, random, text);
        self.enters(hops.wrapping_mul(2));
    }

    /// The next connection is opened, of 16 slots in turn.
    pub fn put_open(&mut self, random: &mut Random, text: &mut Text) {
        let op = self.take_op();
        let slot = self.opened % SLOTS;
        self.chassis.put_open(random, text, slot, op, self.opened);
        self.ops[slot as usize] = op;
        self.opened = self.opened.wrapping_add(1);
        self.enters(6);
    }

    /// An open that the adapter refuses, since the outputs of the connection that was opened first
    /// are owned.
    pub fn put_open_of_owned(&mut self, random: &mut Random, text: &mut Text) {
        let op = self.take_op();
        let slot = self.closed % SLOTS;
        let serial = self.opened.wrapping_add(10_000);
        self.chassis.put_open(random, text, slot, op, serial);
        self.enters(6);
    }

    /// The connection that was opened first is closed.
    pub fn put_close(&mut self, text: &mut Text) {
        let op = self.take_op();
        let opened = self.op_of(self.closed);
        let scanner = self.chassis.scanner;
        text.put(b"close @ % % 7 250\n", &[scanner, op, opened]);
        self.closed = self.closed.wrapping_add(1);
        self.enters(6);
    }

    /// The op that opened a connection, the last of its slot.
    pub fn op_of(&self, connection: u64) -> u64 {
        self.ops[(connection % SLOTS) as usize]
    }

    /// A datum in each direction on the connection that was opened last but so many.
    pub fn put_data(&mut self, random: &mut Random, text: &mut Text, back: u64) {
        let connection = self.opened.wrapping_sub(1).wrapping_sub(back);
        let slot = connection % SLOTS;
        let op = self.op_of(connection);
        self.chassis.put_enter(random, text, slot, op);
        self.chassis.put_produce(random, text, slot);
        self.enters(3);
        self.enters(0);
        self.enters(3);
    }

    /// A large connection is opened, takes data both ways, and is closed.
    pub fn put_large(&mut self, random: &mut Random, text: &mut Text) {
        let op = self.take_op();
        let serial = op.wrapping_add(20_000);
        self.chassis.put_open(random, text, LARGE, op, serial);
        self.enters(6);
        self.put_run(text);
        self.chassis.put_enter(random, text, LARGE, op);
        self.chassis.put_produce(random, text, LARGE);
        self.enters(3);
        self.enters(0);
        self.enters(3);
        self.put_run(text);
        let close = self.take_op();
        let scanner = self.chassis.scanner;
        text.put(b"close @ % % 7 250\n", &[scanner, close, op]);
        self.enters(6);
        self.put_run(text);
    }

    // A request of the scanner over three hops, with milliseconds of time.
    fn put_short(&mut self, random: &mut Random, text: &mut Text, time: u64) {
        let op = self.take_op();
        text.put(b"send @ % 0 % ", &[self.chassis.scanner, op, time]);
        self.chassis.put_path(text, Originator(0), 3);
        put_request(&self.chassis, random, text);
    }

    /// A request whose reply comes too late for one of the modules on the way. Nothing may be on
    /// its way before.
    pub fn put_late(&mut self, random: &mut Random, text: &mut Text) {
        self.put_short(random, text, 50);
        let place = random.below(3);
        text.put(b"run 3\ntick @ 60\nrun 100\n", &[self.chassis.name(place)]);
        self.entries = self.entries.wrapping_add(8);
    }

    /// A request that is lost at once. Nothing may be on its way before.
    pub fn put_lost(&mut self, random: &mut Random, text: &mut Text) {
        self.put_short(random, text, 40);
        let scanner = self.chassis.scanner;
        text.put(b"lose %.0\ntick @ 50\n", &[self.entries, scanner]);
        self.entries = self.entries.wrapping_add(3);
    }

    /// A request whose reply is lost at once. Nothing may be on its way before.
    pub fn put_lost_reply(&mut self, random: &mut Random, text: &mut Text) {
        self.put_short(random, text, 40);
        text.put(
            b"run 3\nlose %.0\ntick @ 50\ntick @ 50\ntick @ 50\nrun 100\n",
            &[
                self.entries.wrapping_add(3),
                self.chassis.name(0),
                self.chassis.name(1),
                self.chassis.name(2),
            ],
        );
        self.entries = self.entries.wrapping_add(10);
    }

    /// A request to an address of the rack at which no module is. Nothing may be on its way before.
    pub fn put_to_nobody(&mut self, random: &mut Random, text: &mut Text) {
        let op = self.take_op();
        text.put(b"send @ % 0 40 ", &[self.chassis.scanner, op]);
        self.chassis.put_path_to_nobody(text);
        put_request(&self.chassis, random, text);
        let bridge = self.chassis.name(1);
        text.put(b"run 100\ntick @ 50\nrun 100\n", &[bridge]);
        self.entries = self.entries.wrapping_add(4);
    }

    /// The tables of a module.
    pub fn put_tables(&self, random: &mut Random, text: &mut Text) {
        let place = random.below(4);
        text.put(b"tables @\n", &[self.chassis.name(place)]);
    }
}

// An electronic key that fits no module, since its device type is none of theirs.
fn put_key(random: &mut Random, text: &mut Text) {
    text.put(
        b"3404$$$00$$$00",
        &[
            random.word(),
            random.word(),
            random.among(100, 100),
            random.word(),
            random.word(),
            random.word(),
        ],
    );
}

// A request to any object, behind a space, and the end of the line.
fn put_request(chassis: &Chassis, random: &mut Random, text: &mut Text) {
    match random.below(12) {
        0..=3 => text.put(b" 010220012401", &[]),
        4..=6 => text.put(b" 0E032001240130$", &[random.among(1, 9)]),
        7..=8 => {
            let slot = random.below(SLOTS);
            text.put(b" 0E03200424$3003", &[chassis.input_of(slot)]);
        }
        9..=10 => put_write(chassis, random, text),
        _ => text.put(b" 0E0320$240130$", &[random.among(112, 100), random.word()]),
    }
    text.put(b"\n", &[]);
}

// An output gets other bytes, one time in four one too many.
fn put_write(chassis: &Chassis, random: &mut Random, text: &mut Text) {
    let slot = random.below(SLOTS);
    let more = if random.below(4) == 0 { 1 } else { 0 };
    text.put(b" 1003200424$3003", &[chassis.output_of(slot)]);
    text.put_bytes(random, chassis.output_size(slot).wrapping_add(more));
}
