//! The job `line`: requests and connections over many bridges.

use crate::made::Made;
use crate::random::Random;
use crate::tables::{put_assembly, put_link, put_module, put_port};
use crate::text::Text;

// The bridges, all on one link.
const BRIDGES: u64 = 64;

// The requests that are under way at a time.
const BATCH: u64 = 4;

// What differs from line to line.
#[derive(Clone, Copy, Debug)]
struct Line {
    // the character before the number of each bridge
    name: u64,
    // the address of the first bridge
    at: u64,
    // from a bridge to the next on the way, an odd number
    stride: u64,
    // the port of the first bridge
    port: u64,
    // instances: the configuration, the small output and input, the large output
    config: u64,
    output: u64,
    // sizes: of the small ones, of the large one
    small: u64,
    large: u64,
    // the next op
    op: u64,
}

/// Makes a line and a script of so many turns: requests over 20 to 63 hops, connections over 10 to
/// 30 that take data both ways, and long messages.
pub fn make(random: &mut Random, made: &mut Made, turns: u64) {
    let mut line = Line::of(random);
    line.put_topology(random, &mut made.topology);
    for turn in 0..turns {
        line.put_sends(random, &mut made.script);
        match turn % 4 {
            0 => line.put_connection(random, &mut made.script),
            1 => line.put_long(random, &mut made.script),
            _ => {}
        }
    }
}

impl Line {
    fn of(random: &mut Random) -> Line {
        Line {
            name: random.among(65, 26),
            at: random.among(1, 180),
            stride: random.below(32).wrapping_mul(2).wrapping_add(1),
            port: random.word(),
            config: random.among(1, 50),
            output: random.among(60, 100),
            small: random.among(2, 12),
            large: random.among(900, 200),
            op: random.among(1_000, 5_000),
        }
    }

    fn put_topology(&self, random: &mut Random, text: &mut Text) {
        let serial = random.word() % 0x1_0000_0000 / 256 * 256;
        put_link(text, b'L', self.name, 254);
        for place in 0..BRIDGES {
            let kind: &[u8] = if place % 2 == 0 { b"plain" } else { b"indexed" };
            let name = [self.name, place];
            put_module(text, random, &name, kind, serial.wrapping_add(place));
            let at = self.at.wrapping_add(place);
            put_port(text, self.port_of(place), b'L', self.name, at);
            self.put_assemblies(text);
        }
    }

    fn put_assemblies(&self, text: &mut Text) {
        put_assembly(text, self.config, 0);
        put_assembly(text, self.output, self.small);
        put_assembly(text, self.output.wrapping_add(1), self.small);
        put_assembly(text, self.output.wrapping_add(2), self.large);
    }

    fn port_of(&self, place: u64) -> u64 {
        1 + self.port.wrapping_add(place) % 14
    }

    // The bridge that stands so many hops from the first.
    fn place_of(&self, hops: u64) -> u64 {
        hops.wrapping_mul(self.stride) % BRIDGES
    }

    // The way from the first bridge over so many hops.
    fn put_path(&self, text: &mut Text, hops: u64) {
        for hop in 0..hops {
            let at = self.at.wrapping_add(self.place_of(hop.wrapping_add(1)));
            text.put(b"$$", &[self.port_of(self.place_of(hop)), at]);
        }
    }

    fn take_op(&mut self) -> u64 {
        let op = self.op;
        self.op = op.wrapping_add(1);
        op
    }

    // A request so far, over so many hops.
    fn put_send(&mut self, text: &mut Text, hops: u64) {
        let op = self.take_op();
        text.put(b"send @0 % 7 250 ", &[self.name, op]);
        self.put_path(text, hops);
    }

    // Requests over 20 to 63 hops, under way together.
    fn put_sends(&mut self, random: &mut Random, text: &mut Text) {
        for _ in 0..BATCH {
            self.put_send(text, random.among(20, 44));
            match random.below(3) {
                0 => text.put(b" 010220012401\n", &[]),
                1 => text.put(b" 0E032001240130$\n", &[random.among(1, 9)]),
                _ => text.put(b" 0E03200424$3003\n", &[self.output]),
            }
        }
        text.put(b"run 10000\n", &[]);
    }

    // Opens by a word, `open` or `large`, to this output and the input.
    fn put_open(&self, random: &mut Random, text: &mut Text, open: Opening) {
        text.put(open.word, &[]);
        text.put(b" @0 % 7 250 ", &[self.name, open.op]);
        self.put_path(text, open.hops);
        text.put(
            b"200424$2C$2C$ % ",
            &[
                self.config,
                open.output,
                self.output.wrapping_add(1),
                open.op,
            ],
        );
        let interval = random.among(100_000, 900_000);
        text.put(
            b"% 1 % % % %\nrun 1000\n",
            &[
                random.among(4, 4),
                interval,
                open.parameters.wrapping_add(open.size),
                interval,
                open.parameters.wrapping_add(self.small),
            ],
        );
    }

    // Data both ways on a connection.
    fn put_data(&self, random: &mut Random, text: &mut Text, open: Opening) {
        text.put(b"enter @0 % ", &[self.name, open.op]);
        text.put_bytes(random, open.size.wrapping_add(2));
        let end = self.place_of(open.hops);
        let input = self.output.wrapping_add(1);
        text.put(b"\nset @% % ", &[self.name, end, input]);
        text.put_bytes(random, self.small);
        text.put(b"\nproduce @% %\nrun 1000\n", &[self.name, end, input]);
    }

    // The connection is shown, and closed.
    fn put_close(&mut self, text: &mut Text, open: Opening) {
        let op = self.take_op();
        let name = self.name;
        text.put(b"chain @0 %\n", &[name, open.op]);
        text.put(b"close @0 % % 7 250\nrun 1000\n", &[name, op, open.op]);
    }

    // A connection over 10 to 30 hops, with data.
    fn put_connection(&mut self, random: &mut Random, text: &mut Text) {
        let open = Opening {
            word: b"open",
            op: self.take_op(),
            hops: random.among(10, 21),
            output: self.output,
            size: self.small,
            parameters: 0x4802,
        };
        self.put_open(random, text, open);
        for _ in 0..4 {
            self.put_data(random, text, open);
        }
        self.put_close(text, open);
    }

    // Long messages: a large connection with a datum, and a request.
    fn put_long(&mut self, random: &mut Random, text: &mut Text) {
        let open = Opening {
            word: b"large",
            op: self.take_op(),
            hops: random.among(8, 5),
            output: self.output.wrapping_add(2),
            size: self.large,
            parameters: 0x4800_0002,
        };
        self.put_open(random, text, open);
        self.put_data(random, text, open);
        self.put_close(text, open);
        self.put_send(text, random.among(4, 6));
        text.put(b" 1003200424$3003", &[self.output.wrapping_add(2)]);
        text.put_bytes(random, self.large);
        text.put(b"\nrun 1000\n", &[]);
    }
}

// A connection: how it is opened, and its output.
#[derive(Clone, Copy)]
struct Opening {
    word: &'static [u8],
    op: u64,
    hops: u64,
    output: u64,
    size: u64,
    parameters: u64,
}
