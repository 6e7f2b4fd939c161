//! What all results of a job come to.

use cip_console::ConsoleFault;

// The prime of the FNV hashes of 64 bits.
const PRIME: u64 = 0x0000_0100_0000_01B3;

/// How much a job played and showed, and a digest of every byte of it.
#[derive(Clone, Copy, Debug)]
pub struct Tally {
    pub scripts: u64,
    pub bytes: u64,
    pub digest: u64,
    /// How many scripts were not played to their end.
    pub faults: u64,
}

impl Tally {
    /// Nothing was played yet.
    pub fn new() -> Tally {
        Tally {
            scripts: 0,
            bytes: 0,
            digest: 0xCBF2_9CE4_8422_2325,
            faults: 0,
        }
    }

    // FNV-1a, but by words of 8 bytes; the rotation brings high bits down.
    fn word(&mut self, word: u64) {
        self.digest = (self.digest ^ word).wrapping_mul(PRIME).rotate_left(29);
    }

    /// A result, whole: its words, the bytes that are left, and how many bytes it has.
    pub fn result(&mut self, bytes: &[u8]) {
        let (words, rest) = bytes.as_chunks::<8>();
        for word in words {
            self.word(u64::from_le_bytes(*word));
        }
        for byte in rest {
            self.word(*byte as u64);
        }
        self.word(bytes.len() as u64);
        self.bytes = self.bytes.wrapping_add(bytes.len() as u64);
    }

    /// How a run ended.
    pub fn end(&mut self, ended: Result<(), ConsoleFault>) {
        self.scripts = self.scripts.wrapping_add(1);
        self.word(number_of(ended));
        if ended.is_err() {
            self.faults = self.faults.wrapping_add(1);
        }
    }
}

// A number for each way to end; of a faulty line its place.
fn number_of(ended: Result<(), ConsoleFault>) -> u64 {
    match ended {
        Ok(()) => 0,
        Err(ConsoleFault::Read) => 1,
        Err(ConsoleFault::Write) => 2,
        Err(ConsoleFault::NoMemory) => 3,
        Err(ConsoleFault::Run(_)) => 4,
        Err(ConsoleFault::New(_)) => 5,
        Err(ConsoleFault::Script(line, _)) => (line as u64).wrapping_add(6),
    }
}
