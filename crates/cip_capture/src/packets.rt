//! The packets of a capture: Ethernet, IPv4, and TCP with EtherNet/IP or UDP with a sequenced
//! datum.
use crate::addresses::Host;
use cip_base::{NoMemory, put_double, put_word};
use std::alloc::Global;

/// The port of EtherNet/IP messages, that of the asker, and the port of data.
pub(crate) const SERVER: u16 = 44_818;

pub(crate) const CLIENT: u16 = 50_000;

const DATA: u16 = 2_222;

/// The most bytes of a message or a datum in a packet.
pub(crate) const MOST: usize = 65_000;

const TCP: u8 = 6;

const UDP: u8 = 17;

// A number of 16 bits with the highest byte first.
fn put_high_first(out: &mut Vec<u8>, number: u16) -> Result<(), NoMemory> {
    out.extend_from_slice(&number.to_be_bytes())?;
    Ok(())
}

// A length of 16 bits: none is above, since no message has more than 65,000 bytes here.
fn short(count: usize) -> u16 {
    u16::try_from(count).unwrap_or(u16::MAX)
}

// The sum of the words of bytes, each with its highest byte first, behind another sum.
fn sum_of(bytes: &[u8], before: u64) -> u64 {
    let mut sum = before;
    for (i, byte) in bytes.iter().enumerate() {
        let weight: u64 = if i % 2 == 0 { 256 } else { 1 };
        sum = sum.saturating_add(weight.saturating_mul(u64::from(*byte)));
    }
    sum
}

// The checksum of a sum: its ones' complement.
fn checksum(sum: u64) -> u16 {
    let once = sum / 65_536 + sum % 65_536;
    let twice = once / 65_536 + once % 65_536;
    let whole = twice / 65_536 + twice % 65_536;
    !u16::try_from(whole % 65_536).unwrap_or(0)
}

/// Who sends a packet, and to whom.
#[derive(Clone, Copy)]
pub(crate) struct Way {
    pub from: Host,
    pub to: Host,
}

// The Ethernet and IPv4 headers before so many bytes.
fn put_headers(out: &mut Vec<u8>, way: Way, protocol: u8, count: usize) -> Result<(), NoMemory> {
    out.extend_from_slice(&way.to.mac)?;
    out.extend_from_slice(&way.from.mac)?;
    out.extend_from_slice(&[0x08, 0x00])?;
    let [high, low] = short(count.saturating_add(20)).to_be_bytes();
    let [s0, s1, s2, s3] = way.from.ip;
    let [d0, d1, d2, d3] = way.to.ip;
    let front = [0x45, 0, high, low, 0, 0, 0x40, 0, 64, protocol];
    let back = [s0, s1, s2, s3, d0, d1, d2, d3];
    let sum = checksum(sum_of(&back, sum_of(&front, 0)));
    out.extend_from_slice(&front)?;
    put_high_first(out, sum)?;
    out.extend_from_slice(&back)?;
    Ok(())
}

// The sum of the pseudo header that TCP's checksum counts.
fn pseudo_sum(way: Way, protocol: u8, count: usize) -> u64 {
    let from = way.from.ip;
    let to = way.to.ip;
    let rest = u64::from(protocol).saturating_add(count as u64);
    sum_of(&to, sum_of(&from, rest))
}

/// The ports of a message and how far both sides of its conversation have come.
#[derive(Clone, Copy)]
pub(crate) struct Segment {
    pub source: u16,
    pub destination: u16,
    pub sequence: u32,
    pub acknowledged: u32,
}

// The TCP header without its checksum, in two parts about it.
fn tcp_front(segment: Segment) -> [u8; 16] {
    let [p0, p1] = segment.source.to_be_bytes();
    let [q0, q1] = segment.destination.to_be_bytes();
    let [s0, s1, s2, s3] = segment.sequence.to_be_bytes();
    let [a0, a1, a2, a3] = segment.acknowledged.to_be_bytes();
    [
        p0, p1, q0, q1, s0, s1, s2, s3, a0, a1, a2, a3, 0x50, 0x18, 0xFF, 0xFF,
    ]
}

/// An EtherNet/IP message that carries a request or a reply: SendRRData with the request's number
/// as its context.
pub(crate) fn message(
    alloc: Global,
    session: u32,
    number: u32,
    bytes: &[u8],
) -> Result<Vec<u8>, NoMemory> {
    let mut out = Vec::with_capacity(alloc, bytes.len().saturating_add(40))?;
    let length = short(bytes.len());
    put_word(&mut out, 0x006F)?;
    put_word(&mut out, length.saturating_add(16))?;
    put_double(&mut out, session)?;
    put_double(&mut out, 0)?;
    put_double(&mut out, number)?;
    put_double(&mut out, 0)?;
    put_double(&mut out, 0)?;
    put_double(&mut out, 0)?;
    put_word(&mut out, 0)?;
    put_word(&mut out, 2)?;
    put_double(&mut out, 0)?;
    put_word(&mut out, 0x00B2)?;
    put_word(&mut out, length)?;
    out.extend_from_slice(bytes)?;
    Ok(out)
}

/// A datum under a connection id: a sequenced address and connected data.
pub(crate) fn datum(
    alloc: Global,
    id: u32,
    sequence: u32,
    bytes: &[u8],
) -> Result<Vec<u8>, NoMemory> {
    let mut out = Vec::with_capacity(alloc, bytes.len().saturating_add(18))?;
    put_word(&mut out, 2)?;
    put_word(&mut out, 0x8002)?;
    put_word(&mut out, 8)?;
    put_double(&mut out, id)?;
    put_double(&mut out, sequence)?;
    put_word(&mut out, 0x00B1)?;
    put_word(&mut out, short(bytes.len()))?;
    out.extend_from_slice(bytes)?;
    Ok(out)
}

/// A packet of TCP.
pub(crate) fn tcp_packet(
    alloc: Global,
    way: Way,
    segment: Segment,
    payload: &[u8],
) -> Result<Vec<u8>, NoMemory> {
    let mut out = Vec::with_capacity(alloc, payload.len().saturating_add(54))?;
    let count = payload.len().saturating_add(20);
    let front = tcp_front(segment);
    let head = sum_of(&front, pseudo_sum(way, TCP, count));
    put_headers(&mut out, way, TCP, count)?;
    out.extend_from_slice(&front)?;
    put_high_first(&mut out, checksum(sum_of(payload, head)))?;
    put_high_first(&mut out, 0)?;
    out.extend_from_slice(payload)?;
    Ok(out)
}

/// A packet of UDP, without a checksum.
pub(crate) fn udp_packet(alloc: Global, way: Way, payload: &[u8]) -> Result<Vec<u8>, NoMemory> {
    let mut out = Vec::with_capacity(alloc, payload.len().saturating_add(42))?;
    let count = payload.len().saturating_add(8);
    put_headers(&mut out, way, UDP, count)?;
    put_high_first(&mut out, DATA)?;
    put_high_first(&mut out, DATA)?;
    put_high_first(&mut out, short(count))?;
    put_high_first(&mut out, 0)?;
    out.extend_from_slice(payload)?;
    Ok(out)
}
