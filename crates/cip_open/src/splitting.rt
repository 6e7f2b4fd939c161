//! The network connection parameters, split.
ghost use Rattle.std.specs.Prelude.{◌≡◌};
ghost use Rattle.cip_open.specs.Params.{priority_of, kind_of, sized, params_of, large_params_of};
ghost use Rattle.cip_open.specs.Params.{open_params_of};

use crate::parameters::{ConnectionKind, Params, Priority};

fn priority(bits: u32) -> Priority
    ensures { result ≡ priority_of bits }
{
    match bits {
        0 => Priority::Low,
        1 => Priority::High,
        2 => Priority::Scheduled,
        _ => Priority::Urgent,
    }
}

fn kind(bits: u32) -> ConnectionKind
    ensures { result ≡ kind_of bits }
{
    match bits {
        0 => ConnectionKind::Null,
        1 => ConnectionKind::Multicast,
        2 => ConnectionKind::PointToPoint,
        _ => ConnectionKind::Reserved,
    }
}

fn split(size: u16, word: u32) -> Params
    ensures { result ≡ sized size word }
{
    Params {
        size,
        variable: word / 512 % 2 == 1,
        priority: priority(word / 1024 % 4),
        kind: kind(word / 8192 % 4),
        redundant: word / 32768 % 2 == 1,
    }
}

/// The parts of the network connection parameters of an open, large or not (Volume 1, chapter 3,
/// network connection parameters): as `large_params` of a large one, else as `params` of the low
/// word. It takes no memory.
pub fn open_params(large: bool, word: u32) -> Params
    ensures { result ≡ open_params_of large word }
{
    if large {
        split((word % 65536) as u16, word / 65536)
    } else {
        split((word % 512) as u16, word)
    }
}

/// The parts of a word of network connection parameters: bits 8 to 0 the size, bit 9 variable, bits
/// 11 to 10 the priority, bits 14 to 13 the connection type, bit 15 redundant owner; bit 12 is
/// reserved and left out (Volume 1, chapter 3, network connection parameters). It takes no memory.
pub fn params(word: u16) -> Params
    ensures { result ≡ params_of word }
{
    open_params(false, u32::from(word))
}

/// The parts of a double word of network connection parameters, those of a Large_Forward_Open: bits
/// 15 to 0 the size, bit 25 variable, bits 27 to 26 the priority, bits 30 to 29 the connection
/// type, bit 31 redundant owner; the others are reserved and left out (Volume 1, chapter 3, network
/// connection parameters). It takes no memory.
pub fn large_params(word: u32) -> Params
    ensures { result ≡ large_params_of word }
{
    open_params(true, word)
}
