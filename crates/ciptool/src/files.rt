//! The files that the program reads, and the standard input, which a dash names.
use crate::fault::Fault;
use cip_check::{Unread, unread_by};
use std::alloc::{AllocError, Global};
use std::fs::File;
use std::io::Read;

// The most bytes of a file.
const LIMIT: usize = 1_048_576;

// How often a file is read at most: once for each byte, and once for the end.
const ASKS: usize = 1_048_577;

// Why there are no bytes.
#[derive(Clone, Copy)]
enum Halt {
    Unread(Unread),
    NoMemory,
}

impl From<AllocError> for Halt {
    fn from(_refused: AllocError) -> Halt {
        Halt::NoMemory
    }
}

/// Whether a file of this name is the standard input.
pub fn is_input(name: &str) -> bool {
    name == "-"
}

/// The name of a file, as faults have it.
pub fn told_name(name: &str) -> &str {
    if is_input(name) { "<stdin>" } else { name }
}

// What is told of a file that gives no bytes.
fn halted(alloc: Global, name: &str, halt: Halt) -> Fault {
    match halt {
        Halt::Unread(why) => match String::from_str(alloc, told_name(name)) {
            Ok(name) => Fault::Read(name, why),
            Err(_) => Fault::NoMemory,
        },
        Halt::NoMemory => Fault::NoMemory,
    }
}

// All that a file of this name gives, at most as many bytes as a file may have.
fn bytes_of<R: Read>(alloc: Global, name: &str, reader: &mut R) -> Result<Vec<u8>, Halt> {
    let mut bytes = Vec::new(alloc);
    let mut piece = [0u8; 4096];
    for _ in 0..ASKS {
        let count = match reader.read(&mut piece) {
            Ok(count) => count,
            Err(error) => return Err(Halt::Unread(unread_by(name, &error))),
        };
        if count == 0 {
            return Ok(bytes);
        }
        if bytes.len().saturating_add(count) > LIMIT {
            return Err(Halt::Unread(Unread::TooLong));
        }
        bytes.extend_from_slice(&piece[..count])?;
    }
    Err(Halt::Unread(Unread::TooLong))
}

fn bytes_in(rt: &HostRuntime, alloc: Global, name: &str) -> Result<Vec<u8>, Halt> {
    if is_input(name) {
        return bytes_of(alloc, name, &mut rt.reader());
    }
    match File::open(rt, name) {
        Ok(file) => {
            let mut file = file;
            bytes_of(alloc, name, &mut file)
        }
        Err(error) => Err(Halt::Unread(unread_by(name, &error))),
    }
}

/// All that a file of this name has, or the standard input where it is a dash. Read says why it
/// can't be read, or that it has more than 1,048,576 bytes; NoMemory where an allocation is
/// refused.
pub fn bytes_at(rt: &HostRuntime, alloc: Global, name: &str) -> Result<Vec<u8>, Fault> {
    match bytes_in(rt, alloc, name) {
        Ok(bytes) => Ok(bytes),
        Err(halt) => Err(halted(alloc, name, halt)),
    }
}
