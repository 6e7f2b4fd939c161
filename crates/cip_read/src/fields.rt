//! The words of a line, one by one.
ghost use Rattle.std.specs.Prelude.{◌≡◌, ◌<◌, ◌^◌, length, IfErr};
ghost use Rattle.cip_words.specs.Shown.{below, number_of, bytes_of};
ghost use Rattle.cip_read.specs.Fields.{Gives, nth, texts, port_of, ms_of, address_of, frame_of};
ghost use Rattle.cip_read.specs.Fields.{module_of, name_by, if_address};
ghost use Rattle.cip_read.specs.declared.fault.LineFault.TheVariants.{Word};
ghost use Rattle.cip_read.specs.declared.fault.Expected.TheVariants.{Frame};

use crate::fault::{Expected, LineFault};
use cip_base::{Address, Bytes, ModuleId, Ms, PortNumber};
use cip_chassis::Topology;
use cip_event::FrameName;
use cip_words::{bytes, halves, number, number_u16, number_u32};
use std::alloc::Global;

/// The word at this place.
pub(crate) fn nth<'a>(words: &[&'a str], k: usize) -> &'a str
    requires { k < length words.now }
    ensures { result.now ≡ nth (texts words.now) k }
{
    words[k]
}

/// A number below 2^64.
pub(crate) fn u64_at(words: &[&str], k: usize) -> Result<u64, LineFault>
    requires { k < length words.now }
    ensures { Gives result (below (2 ^ 64) (number_of (nth (texts words.now) k))) }
{
    match number(nth(words, k)) {
        Some(number) => Ok(number),
        None => Err(LineFault::Word(k, Expected::Number(u64::MAX))),
    }
}

/// A number below 2^64, as a place.
pub(crate) fn usize_at(words: &[&str], k: usize) -> Result<usize, LineFault>
    requires { k < length words.now }
    ensures { Gives result (below (2 ^ 64) (number_of (nth (texts words.now) k))) }
{
    match number(nth(words, k)) {
        Some(number) => Ok(number as usize),
        None => Err(LineFault::Word(k, Expected::Number(u64::MAX))),
    }
}

/// A number below 2^32.
pub(crate) fn u32_at(words: &[&str], k: usize) -> Result<u32, LineFault>
    requires { k < length words.now }
    ensures { Gives result (below (2 ^ 32) (number_of (nth (texts words.now) k))) }
{
    match number_u32(nth(words, k)) {
        Some(number) => Ok(number),
        None => Err(LineFault::Word(k, Expected::Number(4_294_967_295))),
    }
}

/// A number below 2^16.
pub(crate) fn u16_at(words: &[&str], k: usize) -> Result<u16, LineFault>
    requires { k < length words.now }
    ensures { Gives result (below (2 ^ 16) (number_of (nth (texts words.now) k))) }
{
    match number_u16(nth(words, k)) {
        Some(number) => Ok(number),
        None => Err(LineFault::Word(k, Expected::Number(65_535))),
    }
}

/// The number of a port.
pub(crate) fn port_at(words: &[&str], k: usize) -> Result<PortNumber, LineFault>
    requires { k < length words.now }
    ensures { Gives result (port_of (nth (texts words.now) k)) }
{
    let number = u16_at(words, k)?;
    match PortNumber::new(number) {
        Some(port) => Ok(port),
        None => Err(LineFault::Word(k, Expected::Positive(65_535))),
    }
}

/// Milliseconds, at least one.
pub(crate) fn ms_at(words: &[&str], k: usize) -> Result<Ms, LineFault>
    requires { k < length words.now }
    ensures { Gives result (ms_of (nth (texts words.now) k)) }
{
    let count = u16_at(words, k)?;
    match Ms::new(count) {
        Some(ms) => Ok(ms),
        None => Err(LineFault::Word(k, Expected::Positive(65_535))),
    }
}

/// Bytes.
pub(crate) fn bytes_at(alloc: Global, words: &[&str], k: usize) -> Result<Bytes, LineFault>
    requires { k < length words.now }
    ensures { Gives result (bytes_of (nth (texts words.now) k)) }
{
    match bytes(alloc, nth(words, k))? {
        Some(bytes) => Ok(Bytes::of(bytes)),
        None => Err(LineFault::Word(k, Expected::Bytes)),
    }
}

// The address of bytes.
fn address_in(bytes: &[u8], k: usize) -> Result<Address, LineFault>
    ensures { Gives result (if_address bytes.now) }
{
    match Address::read(bytes) {
        Ok(address) => Ok(address),
        Err(_) => Err(LineFault::Word(k, Expected::Address)),
    }
}

/// A link address.
pub(crate) fn address_at(alloc: Global, words: &[&str], k: usize) -> Result<Address, LineFault>
    requires { k < length words.now }
    ensures { Gives result (address_of (nth (texts words.now) k)) }
{
    let bytes = bytes_at(alloc, words, k)?;
    address_in(bytes.as_slice(), k)
}

// `E` and `K`.
fn frame_in(entry: &str, output: &str, k: usize) -> Result<FrameName, LineFault>
    ensures name { Gives result (name_by entry.now output.now) }
    ensures fault { IfErr result (λ fault. fault ≡ Word k Frame) }
{
    match (number(entry), number(output)) {
        (Some(entry), Some(output)) => Ok(FrameName {
            entry: entry as usize,
            output: output as usize,
        }),
        _ => Err(LineFault::Word(k, Expected::Frame)),
    }
}

/// The name of a frame, `E.K`.
pub(crate) fn frame_at(words: &[&str], k: usize) -> Result<FrameName, LineFault>
    requires { k < length words.now }
    ensures name { Gives result (frame_of (nth (texts words.now) k)) }
    ensures fault { IfErr result (λ fault. fault ≡ Word k Frame) }
{
    match halves(nth(words, k)) {
        Some((entry, output)) => frame_in(entry, output, k),
        None => Err(LineFault::Word(k, Expected::Frame)),
    }
}

/// A module by its name.
pub(crate) fn module_at(
    topology: &Topology,
    words: &[&str],
    k: usize,
) -> Result<ModuleId, LineFault>
    requires { k < length words.now }
    ensures { Gives result (module_of topology.now (nth (texts words.now) k)) }
{
    match topology.by_name(nth(words, k).as_bytes()) {
        Some(place) => Ok(place),
        None => Err(LineFault::Word(k, Expected::Module)),
    }
}
