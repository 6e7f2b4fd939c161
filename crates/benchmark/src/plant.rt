//! A plant: a scanner, a bridge, and behind it adapters with connections open to each.

use crate::random::Random;
use crate::tables::{put_assembly, put_link, put_module, put_port};
use crate::text::Text;

/// The adapters of a plant.
pub const ADAPTERS: u64 = 30;

/// The connections to each adapter, each to assemblies of its own.
pub const SLOTS: u64 = 8;

/// The connections of a plant.
pub const CONNECTIONS: u64 = ADAPTERS * SLOTS;

/// The entries of a run in which every connection is opened: each goes over the bridge to its
/// adapter, and its reply back.
pub const OPENING_ENTRIES: u64 = 5 * CONNECTIONS;

// The network connection parameters of a connection from point to point, with no size.
const POINT_TO_POINT: u64 = 0x4800;

/// What differs from plant to plant.
#[derive(Clone, Copy, Debug)]
pub struct Plant {
    /// The scanner's name; the bridge and the adapters have the two characters behind it.
    pub scanner: u64,
    pub bridge: u64,
    pub adapter: u64,
    /// The op of the first connection; those of the others follow.
    pub op: u64,
    // ports of the scanner, and of the bridge on the scanner's link and on that of the adapters
    out: u64,
    lan: u64,
    rack: u64,
    // the bridge's address for the scanner; the first adapter's address, in a row with the others
    bridge_at: u64,
    adapter_at: u64,
    // instances: the configuration, the first output, the first input
    config: u64,
    output: u64,
    input: u64,
    // four bits for the size of each output, and of each input
    sizes: u64,
    // connection serial number of the first connection
    serial: u64,
    // the first intervals, in microseconds
    interval: u64,
}

impl Plant {
    /// Another plant each time.
    pub fn of(random: &mut Random) -> Plant {
        let scanner = random.among(65, 20);
        let mut plant = Plant {
            scanner,
            bridge: scanner.wrapping_add(1),
            adapter: scanner.wrapping_add(2),
            op: random.among(1000, 7000),
            out: random.among(1, 14),
            lan: random.among(1, 7),
            rack: random.among(8, 7),
            bridge_at: random.among(2, 200),
            adapter_at: random.among(1, 200),
            config: 0,
            output: 0,
            input: 0,
            sizes: random.word(),
            serial: random.below(60_000),
            interval: random.among(20_000, 10_000),
        };
        plant.config = random.among(1, 50);
        plant.output = random.among(60, 30);
        plant.input = random.among(110, 30);
        plant
    }

    /// The topology; the bridge keeps the buffers of what goes on, or makes them anew.
    pub fn put_topology(&self, random: &mut Random, text: &mut Text, is_indexed: bool) {
        let serial = random.word() % 0x1_0000_0000 / 256 * 256;
        put_link(text, b'L', self.scanner, 254);
        put_link(text, b'R', self.scanner, 254);
        put_module(text, random, &[self.scanner], b"plain", serial);
        put_port(text, self.out, b'L', self.scanner, 1);
        let kind: &[u8] = if is_indexed { b"indexed" } else { b"plain" };
        put_module(text, random, &[self.bridge], kind, serial.wrapping_add(1));
        put_port(text, self.lan, b'L', self.scanner, self.bridge_at);
        put_port(text, self.rack, b'R', self.scanner, 0);
        for adapter in 0..ADAPTERS {
            self.put_adapter(random, text, adapter, serial.wrapping_add(2));
        }
    }

    fn put_adapter(&self, random: &mut Random, text: &mut Text, adapter: u64, serial: u64) {
        let name = [self.adapter, adapter];
        put_module(
            text,
            random,
            &name,
            b"adapter",
            serial.wrapping_add(adapter),
        );
        let at = self.adapter_at.wrapping_add(adapter);
        put_port(text, 2, b'R', self.scanner, at);
        put_assembly(text, self.config, 0);
        for slot in 0..SLOTS {
            put_assembly(text, self.output_of(slot), self.output_size(slot));
            put_assembly(text, self.input_of(slot), self.input_size(slot));
        }
    }

    fn output_of(&self, slot: u64) -> u64 {
        self.output.wrapping_add(slot)
    }

    fn input_of(&self, slot: u64) -> u64 {
        self.input.wrapping_add(slot)
    }

    // 1 to 6 bytes.
    fn output_size(&self, slot: u64) -> u64 {
        1 + (self.sizes >> (4 * (slot % 8))) % 16 % 6
    }

    fn input_size(&self, slot: u64) -> u64 {
        1 + (self.sizes >> (32 + 4 * (slot % 8))) % 16 % 6
    }

    /// Opens a connection by this op, with a connection serial number that rises with the ops.
    pub fn put_open(&self, random: &mut Random, text: &mut Text, connection: u64, op: u64) {
        let adapter = connection / SLOTS;
        let slot = connection % SLOTS;
        text.put(b"open @ % 7 250 ", &[self.scanner, op]);
        self.put_path(text, adapter, slot);
        let serial = self.serial.wrapping_add(op.wrapping_sub(self.op));
        self.put_terms(random, text, slot, serial);
    }

    // The way to an adapter, and there the assemblies of a slot.
    fn put_path(&self, text: &mut Text, adapter: u64, slot: u64) {
        text.put(
            b"$$$$200424$2C$2C$ ",
            &[
                self.out,
                self.bridge_at,
                self.rack,
                self.adapter_at.wrapping_add(adapter),
                self.config,
                self.output_of(slot),
                self.input_of(slot),
            ],
        );
    }

    // The serial number, and the terms of a connection. Its watchdog waits 2.56 seconds at least:
    // intervals are of 20 to 100 milliseconds, and the longer they are, the less the multiplier.
    fn put_terms(&self, random: &mut Random, text: &mut Text, slot: u64, serial: u64) {
        let multiplier = multiplier_of(slot);
        let class = class_of(slot);
        let interval = self
            .interval
            .wrapping_add(random.below(interval_room(slot)));
        let interval = interval.wrapping_add(least_interval(slot));
        let counted = POINT_TO_POINT.wrapping_add(class).wrapping_add(class);
        let down = counted.wrapping_add(self.output_size(slot));
        let up = counted.wrapping_add(self.input_size(slot));
        text.put(
            b"% % % % % % %\n",
            &[serial, multiplier, class, interval, down, interval, up],
        );
    }

    /// Opens every connection, adapter by adapter.
    pub fn put_opens(&self, random: &mut Random, text: &mut Text) {
        for adapter in 0..ADAPTERS {
            for slot in 0..SLOTS {
                let connection = adapter * SLOTS + slot;
                self.put_open(random, text, connection, self.op.wrapping_add(connection));
            }
            text.put(b"run 1000\n", &[]);
        }
    }

    /// The scanner enters a datum by the connection of this slot, which this op opened.
    pub fn put_enter(&self, random: &mut Random, text: &mut Text, op: u64, slot: u64, count: u64) {
        text.put(b"enter @ % ", &[self.scanner, op]);
        if class_of(slot) == 1 {
            text.put(b"$$", &[count, count / 256]);
        }
        text.put_bytes(random, self.output_size(slot));
        text.put(b"\n", &[]);
    }

    /// An adapter's input gets other bytes.
    pub fn put_set(&self, random: &mut Random, text: &mut Text, connection: u64) {
        let adapter = connection / SLOTS;
        let slot = connection % SLOTS;
        text.put(b"set @% % ", &[self.adapter, adapter, self.input_of(slot)]);
        text.put_bytes(random, self.input_size(slot));
        text.put(b"\n", &[]);
    }

    /// An adapter sends an input.
    pub fn put_produce(&self, text: &mut Text, connection: u64) {
        let adapter = connection / SLOTS;
        let slot = connection % SLOTS;
        text.put(
            b"produce @% %\n",
            &[self.adapter, adapter, self.input_of(slot)],
        );
    }

    /// So many milliseconds go by at the scanner and at each adapter.
    pub fn put_ticks(&self, text: &mut Text, time: u64) {
        text.put(b"tick @ %\n", &[self.scanner, time]);
        for adapter in 0..ADAPTERS {
            text.put(b"tick @% %\n", &[self.adapter, adapter, time]);
        }
    }
}

// The transport class of a slot's connection: class 1 but for one.
fn class_of(slot: u64) -> u64 {
    if slot == 7 { 0 } else { 1 }
}

// The timeout multiplier of a slot's connection: 4 to 7.
fn multiplier_of(slot: u64) -> u64 {
    match slot {
        0 => 5,
        1 => 4,
        2 => 7,
        _ => 5 + slot % 2,
    }
}

// What is added to the least interval: with multiplier 4 it is 60 milliseconds at least.
fn least_interval(slot: u64) -> u64 {
    if slot == 1 { 40_000 } else { 0 }
}

// The intervals of a slot differ by less than this: those of slot 0, whose connections are left to
// their watchdogs, are short.
fn interval_room(slot: u64) -> u64 {
    match slot {
        0 => 10_000,
        1 => 30_000,
        _ => 70_000,
    }
}
