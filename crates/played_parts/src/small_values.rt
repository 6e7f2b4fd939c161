//! Questions about addresses, numbers from 1, triads and lists of bytes.
use crate::texts::{PairsOrCount, name as name_of, text};
use cip_base::{Address, Bytes, Ms};
use line_words::{Then, Words};
use std::alloc::Global;

// `BYTES`: the address, and once more as its copy.
fn address(words: &mut Words) -> Option<String> {
    let alloc = words.alloc;
    match Address::read(words.bytes()?.as_slice()) {
        Ok(address) => {
            let copy = address.copy();
            let address = PairsOrCount(address.as_slice());
            text(alloc, Then(address, PairsOrCount(copy.as_slice())))
        }
        Err(fault) => name_of(alloc, fault),
    }
}

// The bytes written over by others, which are as many, and whether that changed them.
fn changed(alloc: Global, mut bytes: Bytes, next: &[u8]) -> Option<String> {
    let same = Bytes::of(bytes.as_slice().to_vec(alloc).ok()?);
    if next.len() != bytes.as_slice().len() || bytes != same {
        return None;
    }
    bytes.overwrite(next);
    let differs = bytes != same;
    let bytes = bytes.into_vec();
    text(alloc, Then(PairsOrCount(bytes.as_slice()), differs))
}

// `BYTES BYTES`: the first written over by the second.
fn overwritten(words: &mut Words) -> Option<String> {
    let bytes = words.bytes()?;
    let next = words.bytes()?;
    changed(words.alloc, Bytes::of(bytes), next.as_slice())
}

/// The answer to a question of this name.
pub fn answer(name: &str, words: &mut Words) -> Option<String> {
    let alloc = words.alloc;
    match name {
        "address" => address(words),
        "shown" => name_of(alloc, words.address()?),
        "same" => text(alloc, words.address()? == words.address()?),
        "ms" => match Ms::new(words.u16()?) {
            Some(ms) => text(alloc, ms.get()),
            None => text(alloc, "none"),
        },
        "port" => match words.port() {
            Some(port) => text(alloc, port.get()),
            None => text(alloc, "none"),
        },
        "less" => text(alloc, words.triad()? < words.triad()?),
        "overwritten" => overwritten(words),
        _ => None,
    }
}
