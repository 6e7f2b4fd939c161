//! Fields of messages as texts.
use cip_base::{Timing, Triad};
use cip_open::{ConnectionKind, OpenFields, Priority, open_params};
use std::fmt;

/// A value behind the text before it.
pub(crate) fn write_field<W: fmt::Write, T: fmt::Display + Copy>(
    before: &str,
    value: T,
    f: &mut fmt::Formatter<W>,
) -> fmt::Result {
    write!(f, "{before}{value}")
}

/// A triad as its three numbers: connection serial number, originator vendor, originator serial
/// number.
#[derive(Clone, Copy)]
pub(crate) struct TriadText(pub Triad);

impl fmt::Display for TriadText {
    fn fmt<W: fmt::Write>(&self, f: &mut fmt::Formatter<W>) -> fmt::Result {
        let Triad {
            serial,
            vendor,
            originator,
        } = self.0;
        write!(f, "triad {serial} {vendor} {originator}")
    }
}

/// The length of one time-out tick, in milliseconds.
pub fn tick_length(timing: Timing) -> u32 {
    1u32 << (timing.tick % 16)
}

/// A time-out, as so many ticks of so many milliseconds.
#[derive(Clone, Copy)]
pub(crate) struct TimingText(pub Timing);

impl fmt::Display for TimingText {
    fn fmt<W: fmt::Write>(&self, f: &mut fmt::Formatter<W>) -> fmt::Result {
        let length = tick_length(self.0);
        let ticks = self.0.ticks;
        write!(f, "time-out {ticks} ticks of {length} ms")
    }
}

/// The name of a priority.
pub fn priority_name(priority: Priority) -> &'static str {
    match priority {
        Priority::Low => "low",
        Priority::High => "high",
        Priority::Scheduled => "scheduled",
        Priority::Urgent => "urgent",
    }
}

/// The name of a connection type.
pub fn kind_name(kind: ConnectionKind) -> &'static str {
    match kind {
        ConnectionKind::Null => "null",
        ConnectionKind::Multicast => "multicast",
        ConnectionKind::PointToPoint => "point to point",
        ConnectionKind::Reserved => "reserved",
    }
}

/// The name of a trigger, bits 6 to 4 of the transport byte.
pub fn trigger_name(transport: u8) -> &'static str {
    match transport / 16 % 8 {
        0 => "cyclic",
        1 => "change of state",
        2 => "application object",
        _ => "reserved",
    }
}

/// How many intervals a connection timeout multiplier means; None for a reserved one.
pub fn intervals(multiplier: u8) -> Option<u16> {
    match multiplier {
        0 => Some(4),
        1 => Some(8),
        2 => Some(16),
        3 => Some(32),
        4 => Some(64),
        5 => Some(128),
        6 => Some(256),
        7 => Some(512),
        _ => None,
    }
}

/// One direction of a connection that is to be opened: its network connection parameters.
#[derive(Clone, Copy)]
pub(crate) struct ParamsText {
    pub large: bool,
    pub params: u32,
}

fn length_name(variable: bool) -> &'static str {
    if variable { "variable" } else { "fixed" }
}

// What stands behind the parameters of a redundant owner.
fn owner_text(redundant: bool) -> &'static str {
    if redundant { ", redundant owner" } else { "" }
}

impl fmt::Display for ParamsText {
    fn fmt<W: fmt::Write>(&self, f: &mut fmt::Formatter<W>) -> fmt::Result {
        let parts = open_params(self.large, self.params);
        let size = parts.size;
        let length = length_name(parts.variable);
        let priority = priority_name(parts.priority);
        let kind = kind_name(parts.kind);
        let owner = owner_text(parts.redundant);
        write!(f, "size {size} {length}, {priority}, {kind}{owner}")
    }
}

/// Transport class and trigger.
#[derive(Clone, Copy)]
pub(crate) struct TransportText(pub u8);

// What stands behind the transport of a server.
fn server_text(server: bool) -> &'static str {
    if server { " server" } else { "" }
}

impl fmt::Display for TransportText {
    fn fmt<W: fmt::Write>(&self, f: &mut fmt::Formatter<W>) -> fmt::Result {
        let class = self.0 % 16;
        let trigger = trigger_name(self.0);
        let server = server_text(128 <= self.0);
        write!(f, "class {class} {trigger}{server}")
    }
}

/// A connection timeout multiplier.
#[derive(Clone, Copy)]
pub(crate) struct MultiplierText(pub u8);

impl fmt::Display for MultiplierText {
    fn fmt<W: fmt::Write>(&self, f: &mut fmt::Formatter<W>) -> fmt::Result {
        let multiplier = self.0;
        match intervals(multiplier) {
            Some(count) => write!(f, "multiplier {multiplier} ({count} intervals)"),
            None => write!(f, "multiplier {multiplier} (reserved)"),
        }
    }
}

/// The fixed fields of an open behind its triad and path.
#[derive(Clone, Copy)]
pub(crate) struct OpenText<'a>(pub &'a OpenFields);

// One direction of a connection: its identifier, behind the text before it, its interval and
// parameters.
fn write_direction<W: fmt::Write>(
    before: &str,
    id: u32,
    rpi: u32,
    params: &ParamsText,
    f: &mut fmt::Formatter<W>,
) -> fmt::Result {
    write!(f, "{before}{id}, RPI {rpi} us, {params}; ")
}

impl fmt::Display for OpenText<'_> {
    fn fmt<W: fmt::Write>(&self, f: &mut fmt::Formatter<W>) -> fmt::Result {
        let fields = self.0;
        let to = ParamsText {
            large: fields.large,
            params: fields.to_params,
        };
        let ot = ParamsText {
            large: fields.large,
            params: fields.ot_params,
        };
        write_direction("O→T id ", fields.ot_id, fields.ot_rpi, &ot, f)?;
        write_direction("T→O id ", fields.to_id, fields.to_rpi, &to, f)?;
        let transport = TransportText(fields.transport);
        let multiplier = MultiplierText(fields.multiplier);
        let timing = TimingText(fields.timing);
        write!(f, "{transport}; {multiplier}; {timing}")
    }
}
