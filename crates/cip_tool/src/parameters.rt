//! Network connection parameters, from their parts.
ghost use Rattle.std.specs.Prelude.{◌≡◌, ◌<◌, ◌≤◌, ◌+◌, ◌*◌, ◌↔◌, ◌^◌, false, IfSome, IsNone};
ghost use Rattle.cip_open.specs.Params.{open_params_of};
ghost use Rattle.cip_tool.specs.Parameters.{flag, priority_bits, kind_bits, high_bits, word_of};

use cip_open::{ConnectionKind, Params, Priority, parameters_have_their_parts};
use std::fmt;

fn flag(set: bool) -> u32
    ensures { result ≡ flag set }
{
    if set { 1 } else { 0 }
}

fn priority_bits(priority: Priority) -> u32
    ensures { result ≡ priority_bits priority }
{
    match priority {
        Priority::Low => 0,
        Priority::High => 1,
        Priority::Scheduled => 2,
        Priority::Urgent => 3,
    }
}

fn kind_bits(kind: ConnectionKind) -> u32
    ensures { result ≡ kind_bits kind }
{
    match kind {
        ConnectionKind::Null => 0,
        ConnectionKind::Multicast => 1,
        ConnectionKind::PointToPoint => 2,
        ConnectionKind::Reserved => 3,
    }
}

fn high_bits(params: &Params) -> u32
    ensures value { result ≡ high_bits params.now }
    ensures small { result < 65536 }
{
    let variable = flag(params.variable);
    let priority = priority_bits(params.priority);
    let kind = kind_bits(params.kind);
    let redundant = flag(params.redundant);
    512 * variable + 1024 * priority + 8192 * kind + 32768 * redundant
}

/// The network connection parameters of these parts (Volume 1, chapter 3, network connection
/// parameters): a word, or of a Large_Forward_Open a double word. Reserved bits are 0, and it is
/// read as just these parts. None where the size needs more than the 9 bits of a word.
pub fn params_word(large: bool, params: &Params) -> Option<u32>
    ensures word { IfSome result (λ w. w ≡ word_of large params.now) }
    ensures reads { IfSome result (λ w. open_params_of large w ≡ params.now) }
    ensures fits { IfSome result (λ w. large ≡ false → w < 2 ^ 16) }
    ensures none { IsNone result ↔ ((large ≡ false) × (512 ≤ params.now.size)) }
{
    parameters_have_their_parts();
    let high = high_bits(params);
    if large {
        return Some(u32::from(params.size) + 65536 * high);
    }
    if params.size >= 512 {
        return None;
    }
    Some(u32::from(params.size) + high)
}

/// The reserved bits of network connection parameters: bit 12 of a word, of a double word bits 24
/// to 16 and 28.
pub fn reserved_bits(large: bool, word: u32) -> u32 {
    if large {
        word & 0x11FF_0000
    } else {
        word & 0x1000
    }
}

/// The name of a priority, as the options have it.
pub fn priority_name(priority: Priority) -> &'static str {
    match priority {
        Priority::Low => "low",
        Priority::High => "high",
        Priority::Scheduled => "scheduled",
        Priority::Urgent => "urgent",
    }
}

/// The priority of a name.
pub fn priority_named(name: &str) -> Option<Priority> {
    match name {
        "low" => Some(Priority::Low),
        "high" => Some(Priority::High),
        "scheduled" => Some(Priority::Scheduled),
        "urgent" => Some(Priority::Urgent),
        _ => None,
    }
}

/// The name of a connection type, as the options have it.
pub fn kind_name(kind: ConnectionKind) -> &'static str {
    match kind {
        ConnectionKind::Null => "null",
        ConnectionKind::Multicast => "multicast",
        ConnectionKind::PointToPoint => "point-to-point",
        ConnectionKind::Reserved => "reserved",
    }
}

/// The parts of network connection parameters, as the options of `ciptool params` that give them
/// back.
#[derive(Clone, Copy)]
pub struct ParamsOptions {
    pub large: bool,
    pub params: Params,
}

// An option that stands alone: its text where it is set.
fn option_text(set: bool, option: &'static str) -> &'static str {
    if set { option } else { "" }
}

impl fmt::Display for ParamsOptions {
    fn fmt<W: fmt::Write>(&self, f: &mut fmt::Formatter<W>) -> fmt::Result {
        let params = &self.params;
        let large = option_text(self.large, "--large ");
        let size = params.size;
        let kind = kind_name(params.kind);
        let priority = priority_name(params.priority);
        let variable = option_text(params.variable, " --variable");
        let redundant = option_text(params.redundant, " --redundant");
        write!(
            f,
            "{large}--size {size} --{kind} --priority {priority}{variable}{redundant}"
        )
    }
}
