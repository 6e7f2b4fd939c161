//! A chassis: a scanner, a bridge from its link to a rack, a bridge from there to the link of a
//! machine, and an adapter on it.

use crate::random::Random;
use crate::tables::{put_assembly, put_link, put_module, put_port};
use crate::text::Text;

/// The connections that can be open at a time, each to assemblies of its own.
pub const SLOTS: u64 = 16;

/// The slot of the large assemblies.
pub const LARGE: u64 = 16;

/// What differs from chassis to chassis.
#[derive(Clone, Copy, Debug)]
pub struct Chassis {
    /// The scanner's name; those of the bridges and of the adapter are the characters behind it.
    pub scanner: u64,
    // the ports by which the path goes on, and the addresses that it names
    out: u64,
    lan_at: u64,
    rack: u64,
    rack_at: u64,
    sub: u64,
    sub_at: u64,
    // instances: the configuration, the first output, the first input
    config: u64,
    output: u64,
    input: u64,
    // the size of the large assemblies
    large: u64,
    // four bits for the size of each output and input
    sizes: u64,
    // connection serial number of the first connection
    serial: u64,
}

/// A module that asks, by its place from the scanner: 0 is the scanner, 1 and 2 are the bridges.
#[derive(Clone, Copy, Debug)]
pub struct Originator(pub u64);

impl Chassis {
    /// Another chassis each time.
    pub fn of(random: &mut Random) -> Chassis {
        let mut chassis = Chassis {
            scanner: random.among(65, 20),
            out: random.among(1, 14),
            lan_at: random.among(2, 200),
            rack: random.among(8, 7),
            rack_at: random.among(1, 15),
            sub: random.among(8, 7),
            sub_at: random.among(2, 60),
            config: 0,
            output: 0,
            input: 0,
            large: random.among(600, 200),
            sizes: random.word(),
            serial: random.below(50_000),
        };
        chassis.config = random.among(1, 50);
        chassis.output = random.among(60, 30);
        chassis.input = random.among(110, 30);
        chassis
    }

    /// The name of the module at a place from the scanner.
    pub fn name(&self, place: u64) -> u64 {
        self.scanner.wrapping_add(place)
    }

    /// The topology; the bridges keep the buffers of what goes on, or make them anew.
    pub fn put_topology(&self, random: &mut Random, text: &mut Text, is_indexed: bool) {
        let kind: &[u8] = if is_indexed { b"indexed" } else { b"plain" };
        let serial = random.word() % 0x1_0000_0000 / 256 * 256;
        put_link(text, b'L', self.scanner, 254);
        put_link(text, b'R', self.scanner, 16);
        put_link(text, b'M', self.scanner, 63);
        put_module(text, random, &[self.name(0)], kind, serial);
        put_port(text, self.out, b'L', self.scanner, 1);
        self.put_bridges(random, text, kind, serial);
        let serial = serial.wrapping_add(3);
        put_module(text, random, &[self.name(3)], b"adapter", serial);
        put_port(text, 2, b'M', self.scanner, self.sub_at);
        self.put_assemblies(text);
    }

    fn put_bridges(&self, random: &mut Random, text: &mut Text, kind: &[u8], serial: u64) {
        let next = serial.wrapping_add(1);
        put_module(text, random, &[self.name(1)], kind, next);
        put_port(text, random.among(1, 7), b'L', self.scanner, self.lan_at);
        put_port(text, self.rack, b'R', self.scanner, 0);
        let next = next.wrapping_add(1);
        put_module(text, random, &[self.name(2)], kind, next);
        put_port(text, random.among(1, 7), b'R', self.scanner, self.rack_at);
        put_port(text, self.sub, b'M', self.scanner, 1);
    }

    fn put_assemblies(&self, text: &mut Text) {
        put_assembly(text, self.config, 0);
        for slot in 0..=LARGE {
            put_assembly(text, self.output_of(slot), self.output_size(slot));
            put_assembly(text, self.input_of(slot), self.input_size(slot));
        }
    }

    /// The instance that a slot's connection writes.
    pub fn output_of(&self, slot: u64) -> u64 {
        self.output.wrapping_add(slot)
    }

    /// The instance that a slot's connection reads.
    pub fn input_of(&self, slot: u64) -> u64 {
        self.input.wrapping_add(slot)
    }

    /// The bytes of that output, at least 1.
    pub fn output_size(&self, slot: u64) -> u64 {
        match slot {
            LARGE => self.large,
            _ => 1 + (self.sizes >> (4 * (slot % 16))) % 16,
        }
    }

    /// The bytes of that input, at least 1.
    pub fn input_size(&self, slot: u64) -> u64 {
        match slot {
            LARGE => self.large.wrapping_add(100),
            _ => 1 + (self.sizes >> (4 * ((slot ^ 5) % 16))) % 16,
        }
    }

    /// The path from an originator over so many hops, at most as far as the adapter.
    pub fn put_path(&self, text: &mut Text, from: Originator, hops: u64) {
        let last = from.0.wrapping_add(hops);
        for place in from.0..last {
            match place {
                0 => text.put(b"$$", &[self.out, self.lan_at]),
                1 => text.put(b"$$", &[self.rack, self.rack_at]),
                _ => text.put(b"$$", &[self.sub, self.sub_at]),
            }
        }
    }

    /// The path from the scanner to an address of the rack at which no module is.
    pub fn put_path_to_nobody(&self, text: &mut Text) {
        text.put(b"$$$10", &[self.out, self.lan_at, self.rack]);
    }

    /// The scanner opens the connection of a slot to the adapter by this op. The serial number is
    /// one of 65,536 that follow each other.
    pub fn put_open(&self, random: &mut Random, text: &mut Text, slot: u64, op: u64, serial: u64) {
        let word: &[u8] = if slot == LARGE { b"large" } else { b"open" };
        text.put(word, &[]);
        text.put(b" @ % 7 250 ", &[self.scanner, op]);
        self.put_path(text, Originator(0), 3);
        text.put(
            b"200424$2C$2C$ ",
            &[self.config, self.output_of(slot), self.input_of(slot)],
        );
        self.put_terms(random, text, slot, serial);
    }

    // The serial number, and the terms: the watchdogs wait 32 seconds at least.
    fn put_terms(&self, random: &mut Random, text: &mut Text, slot: u64, serial: u64) {
        let serial = self.serial.wrapping_add(serial) % 65_536;
        let multiplier = random.among(4, 4);
        let interval = random.among(500_000, 1_500_000);
        let point: u64 = if slot == LARGE { 0x4800_0000 } else { 0x4800 };
        let down = point.wrapping_add(2).wrapping_add(self.output_size(slot));
        let up = point.wrapping_add(2).wrapping_add(self.input_size(slot));
        text.put(
            b"% % 1 % % % %\n",
            &[serial, multiplier, interval, down, interval, up],
        );
    }

    /// The scanner enters a datum by the connection of a slot, which this op opened.
    pub fn put_enter(&self, random: &mut Random, text: &mut Text, slot: u64, op: u64) {
        text.put(b"enter @ % ", &[self.scanner, op]);
        let size = self.output_size(slot).wrapping_add(2);
        text.put_bytes(random, size);
        text.put(b"\n", &[]);
    }

    /// The adapter's input of a slot gets other bytes, and is sent.
    pub fn put_produce(&self, random: &mut Random, text: &mut Text, slot: u64) {
        let input = self.input_of(slot);
        text.put(b"set @ % ", &[self.name(3), input]);
        text.put_bytes(random, self.input_size(slot));
        text.put(b"\nproduce @ %\n", &[self.name(3), input]);
    }
}
