//! The topology file.
use crate::fault::Fault;
use crate::options::Options;
use cip_base::NoMemory;
use cip_check::{NotUtf8, Unread, explain_file, text_of, unread_by};
use cip_topology::{CHASSIS, LoadFault, Topology, load};
use std::alloc::{AllocError, Global};
use std::fs::File;
use std::io::Read;

// The most bytes of a topology file.
const LIMIT: usize = 1_048_576;

// How often a file is read at most: once for each byte, and once for the end.
const ASKS: usize = 1_048_577;

// Why there are no bytes.
#[derive(Clone, Copy)]
enum Halt {
    Unread(Unread),
    NoMemory,
}

impl From<AllocError> for Halt {
    fn from(_refused: AllocError) -> Halt {
        Halt::NoMemory
    }
}

/// What is told of a file that can't be read, or is too long.
pub fn unread(alloc: Global, name: &str, why: Unread) -> Fault {
    match String::from_str(alloc, name) {
        Ok(name) => Fault::Read(name, why),
        Err(_) => Fault::NoMemory,
    }
}

// What is told of a file that gives no bytes.
fn halted(alloc: Global, name: &str, halt: Halt) -> Fault {
    match halt {
        Halt::Unread(why) => unread(alloc, name, why),
        Halt::NoMemory => Fault::NoMemory,
    }
}

// All that a file of this name gives, at most as many bytes as a topology file may have.
fn bytes_of<R: Read>(alloc: Global, name: &str, reader: &mut R) -> Result<Vec<u8>, Halt> {
    let mut bytes = Vec::new(alloc);
    let mut piece = [0u8; 4096];
    for _ in 0..ASKS {
        let count = match reader.read(&mut piece) {
            Ok(count) => count,
            Err(error) => return Err(Halt::Unread(unread_by(name, &error))),
        };
        if count == 0 {
            return Ok(bytes);
        }
        if bytes.len().saturating_add(count) > LIMIT {
            return Err(Halt::Unread(Unread::TooLong));
        }
        bytes.extend_from_slice(&piece[..count])?;
    }
    Err(Halt::Unread(Unread::TooLong))
}

fn bytes_at(rt: &HostRuntime, alloc: Global, path: &str) -> Result<Vec<u8>, Halt> {
    match File::open(rt, path) {
        Ok(file) => {
            let mut file = file;
            bytes_of(alloc, path, &mut file)
        }
        Err(error) => Err(Halt::Unread(unread_by(path, &error))),
    }
}

// What is told of a text of this name that is no topology.
fn refused(alloc: Global, name: &str, text: &str, fault: &LoadFault) -> Fault {
    match explain_file(alloc, name, text, fault) {
        Ok(told) => Fault::of_topology(told, fault),
        Err(NoMemory) => Fault::NoMemory,
    }
}

// The topology of a text of this name.
fn topology_in(alloc: Global, name: &str, text: &str) -> Result<Topology, Fault> {
    match load(alloc, text) {
        Ok(topology) => Ok(topology),
        Err(fault) => {
            let told = refused(alloc, name, text, &fault);
            // (one place to give it up is one to prove)
            drop(fault);
            Err(told)
        }
    }
}

fn not_text(alloc: Global, path: &str, fault: NotUtf8) -> Fault {
    match String::from_str(alloc, path) {
        Ok(name) => Fault::NotText(name, fault),
        Err(_) => Fault::NoMemory,
    }
}

// The topology of the bytes that a file has.
fn topology_of(alloc: Global, path: &str, bytes: &[u8]) -> Result<Topology, Fault> {
    match text_of(bytes) {
        Ok(text) => topology_in(alloc, path, text),
        Err(fault) => Err(not_text(alloc, path, fault)),
    }
}

// The topology of a file.
fn topology_at(rt: &HostRuntime, alloc: Global, path: &str) -> Result<Topology, Fault> {
    match bytes_at(rt, alloc, path) {
        Ok(bytes) => topology_of(alloc, path, bytes.as_slice()),
        Err(halt) => Err(halted(alloc, path, halt)),
    }
}

/// The topology that is asked for, or the chassis of cipbridge.
pub fn topology(rt: &HostRuntime, alloc: Global, options: &Options) -> Result<Topology, Fault> {
    match &options.topology {
        Some(path) => topology_at(rt, alloc, path.as_str()),
        None => topology_in(alloc, "the chassis", CHASSIS),
    }
}
