//! Number fields of messages at their places.
ghost use Rattle.std.specs.Prelude.{◌≡◌, ◌+◌, ◌<◌, ◌≤◌, ◌++◌, length, OnOk};
ghost use Rattle.cip_message.specs.Numbers.{word_in, double_in, triad_in, triad_within};
ghost use Rattle.cip_message.specs.Numbers.{triad_bytes};

use byteorder::{ByteOrder, LittleEndian};
use cip_base::{Triad, put_double, put_word};
use std::alloc::AllocError;

/// The 16-bit word from place `at`, the lowest byte first.
pub fn word_at(bytes: &[u8], at: usize) -> u16
    requires { at + 2 ≤ length bytes.now }
    ensures { result ≡ word_in bytes.now at }
{
    LittleEndian::read_u16(&bytes[at..])
}

/// The 32-bit double word from place `at`, the lowest byte first.
pub fn double_at(bytes: &[u8], at: usize) -> u32
    requires { at + 4 ≤ length bytes.now }
    ensures { result ≡ double_in bytes.now at }
{
    LittleEndian::read_u32(&bytes[at..])
}

/// The connection triad in the eight bytes from place `at` (Volume 1, chapter 3, connection triad).
pub fn triad_at(bytes: &[u8], at: usize) -> Triad
    requires { at + 8 ≤ length bytes.now }
    ensures { result ≡ triad_in bytes.now at }
{
    Triad {
        serial: word_at(bytes, at),
        vendor: word_at(bytes, at + 2),
        originator: double_at(bytes, at + 4),
    }
}

/// The connection triad in the eight bytes from place `at`; None exactly where one of them is
/// missing (Volume 1, chapter 3, connection triad).
pub fn triad_within(bytes: &[u8], at: usize) -> Option<Triad>
    requires { at < 1000 }
    ensures { result ≡ triad_within bytes.now at }
{
    if bytes.len() < at + 8 {
        None
    } else {
        Some(triad_at(bytes, at))
    }
}

/// Appends the eight bytes of a connection triad (Volume 1, chapter 3, connection triad).
pub fn put_triad(out: &mut Vec<u8>, triad: Triad) -> Result<(), AllocError>
    ensures { OnOk result (out.new.items ≡ out.old.items ++ triad_bytes triad) }
{
    put_word(out, triad.serial)?;
    put_word(out, triad.vendor)?;
    put_double(out, triad.originator)
}
