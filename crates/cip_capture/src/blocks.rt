//! The blocks of a pcapng file. Numbers have the lowest byte first.
use crate::addresses::Hosts;
use cip_base::{ModuleId, NoMemory, put_double, put_word};
use cip_chassis::Topology;
use std::alloc::Global;

// The kinds of blocks.
const SECTION: u32 = 0x0A0D_0D0A;

const INTERFACE: u32 = 1;

const NAMES: u32 = 4;

const STATISTICS: u32 = 5;

const PACKET: u32 = 6;

/// The most bytes of a comment.
const MOST_COMMENT: usize = 60_000;

// A length, which a capture never has above 32 bits.
fn length_of(count: usize) -> u32 {
    u32::try_from(count).unwrap_or(u32::MAX)
}

// Bytes up to a multiple of four.
fn put_pad(out: &mut Vec<u8>, count: usize) -> Result<(), NoMemory> {
    match count % 4 {
        1 => out.extend_from_slice(&[0, 0, 0])?,
        2 => out.extend_from_slice(&[0, 0])?,
        3 => out.push(0)?,
        _ => {}
    }
    Ok(())
}

// A block: its kind, its length, what it holds, and its length again.
fn put_block(out: &mut Vec<u8>, kind: u32, body: &[u8]) -> Result<(), NoMemory> {
    let whole = body.len().saturating_add(3) / 4;
    let length = length_of(whole.saturating_mul(4).saturating_add(12));
    put_double(out, kind)?;
    put_double(out, length)?;
    out.extend_from_slice(body)?;
    put_pad(out, body.len())?;
    put_double(out, length)?;
    Ok(())
}

/// The block that a capture begins with.
pub(crate) fn put_section(alloc: Global, out: &mut Vec<u8>) -> Result<(), NoMemory> {
    let mut body = Vec::new(alloc);
    put_double(&mut body, 0x1A2B_3C4D)?;
    put_word(&mut body, 1)?;
    put_word(&mut body, 0)?;
    put_double(&mut body, u32::MAX)?;
    put_double(&mut body, u32::MAX)?;
    put_block(out, SECTION, body.as_slice())
}

/// The one interface: Ethernet, times in microseconds.
pub(crate) fn put_interface(alloc: Global, out: &mut Vec<u8>) -> Result<(), NoMemory> {
    let mut body = Vec::new(alloc);
    put_word(&mut body, 1)?;
    put_word(&mut body, 0)?;
    put_double(&mut body, 0)?;
    put_block(out, INTERFACE, body.as_slice())
}

// The name of a module, and a zero behind it.
fn put_name(body: &mut Vec<u8>, ip: [u8; 4], name: &[u8]) -> Result<(), NoMemory> {
    let count = name.len().saturating_add(5);
    put_word(body, 1)?;
    put_word(body, u16::try_from(count).unwrap_or(u16::MAX))?;
    body.extend_from_slice(&ip)?;
    body.extend_from_slice(name)?;
    body.push(0)?;
    put_pad(body, count)
}

/// The names of the modules.
pub(crate) fn put_names(
    alloc: Global,
    topology: &Topology,
    hosts: &Hosts,
    out: &mut Vec<u8>,
) -> Result<(), NoMemory> {
    let mut body = Vec::new(alloc);
    for (place, config) in topology.configs().iter().enumerate() {
        put_name(
            &mut body,
            hosts.ip_of(Some(ModuleId(place))),
            config.settings().name.as_slice(),
        )?;
    }
    put_double(&mut body, 0)?;
    put_block(out, NAMES, body.as_slice())
}

// The front of a comment.
fn front(comment: &[u8]) -> &[u8] {
    if comment.len() <= MOST_COMMENT {
        return comment;
    }
    let (front, _) = comment.split_at(MOST_COMMENT);
    front
}

// An option with the front of a comment, and the end of the options.
fn put_comment(body: &mut Vec<u8>, text: &[u8]) -> Result<(), NoMemory> {
    put_word(body, 1)?;
    put_word(body, u16::try_from(text.len()).unwrap_or(u16::MAX))?;
    body.extend_from_slice(text)?;
    put_pad(body, text.len())?;
    put_double(body, 0)?;
    Ok(())
}

// The interface, and a time in microseconds, its high half first.
fn put_time(body: &mut Vec<u8>, time: u64) -> Result<(), NoMemory> {
    put_double(body, 0)?;
    put_double(
        body,
        u32::try_from(time / 4_294_967_296).unwrap_or(u32::MAX),
    )?;
    put_double(
        body,
        u32::try_from(time % 4_294_967_296).unwrap_or(u32::MAX),
    )?;
    Ok(())
}

/// What is told at a time in microseconds, of a packet that stands before: the front of a comment,
/// of a block of interface statistics that has no others.
pub(crate) fn put_remark(
    alloc: Global,
    out: &mut Vec<u8>,
    time: u64,
    comment: &[u8],
) -> Result<(), NoMemory> {
    let text = front(comment);
    let mut body = Vec::with_capacity(alloc, text.len().saturating_add(24))?;
    put_time(&mut body, time)?;
    put_comment(&mut body, text)?;
    put_block(out, STATISTICS, body.as_slice())
}

/// A packet at a time in microseconds, with the front of a comment.
pub(crate) fn put_packet(
    alloc: Global,
    out: &mut Vec<u8>,
    time: u64,
    packet: &[u8],
    comment: &[u8],
) -> Result<(), NoMemory> {
    let text = front(comment);
    let count = packet.len().saturating_add(text.len());
    let mut body = Vec::with_capacity(alloc, count.saturating_add(40))?;
    put_time(&mut body, time)?;
    put_double(&mut body, length_of(packet.len()))?;
    put_double(&mut body, length_of(packet.len()))?;
    body.extend_from_slice(packet)?;
    put_pad(&mut body, packet.len())?;
    put_comment(&mut body, text)?;
    put_block(out, PACKET, body.as_slice())
}
