//! The bytes of a topology file as a text.
ghost use Rattle.std.specs.Prelude.{◌≡◌, MatchResult};
ghost use Rattle.std.specs.Str.{IsUtf8};
ghost use Rattle.std.specs.Str.Lossy.{utf8_valid_len};
ghost use Rattle.cip_check.specs.Bytes.{IsWhy};

use thiserror::Error;

/// Why bytes are no text.
#[derive(Clone, Copy, Debug, Error)]
pub enum NotUtf8 {
    /// They begin with a byte order mark of UTF-16.
    #[error("not UTF-8 but UTF-16: it begins with {0:02X} {1:02X}")]
    Wide(u8, u8),
    /// The first byte that continues no character, and its line, from 1.
    #[error("not UTF-8: line {line}: byte {byte:02X}")]
    Byte { line: usize, byte: u8 },
}

// The line of the byte at a place.
fn line_of(bytes: &[u8], place: usize) -> usize {
    let mut line = 1usize;
    for byte in bytes.iter().take(place) {
        if *byte == b'\n' {
            line = line.saturating_add(1);
        }
    }
    line
}

fn fault_of(bytes: &[u8], place: usize) -> NotUtf8
    ensures { IsWhy bytes.now place result }
{
    match bytes {
        [0xFF, 0xFE, ..] => NotUtf8::Wide(0xFF, 0xFE),
        [0xFE, 0xFF, ..] => NotUtf8::Wide(0xFE, 0xFF),
        _ => NotUtf8::Byte {
            line: line_of(bytes, place),
            byte: bytes.get(place).copied().unwrap_or(0),
        },
    }
}

/// The text of these bytes, or the first byte that is none.
pub fn text_of(bytes: &[u8]) -> Result<&str, NotUtf8>
    ensures { MatchResult result (λ text. (text.now ≡ bytes.now) × IsUtf8 bytes.now)
        (λ why. ¬ (IsUtf8 bytes.now) × IsWhy bytes.now (utf8_valid_len bytes.now) why) }
{
    match std::str::from_utf8(bytes) {
        Ok(text) => Ok(text),
        Err(error) => Err(fault_of(bytes, error.valid_up_to())),
    }
}
