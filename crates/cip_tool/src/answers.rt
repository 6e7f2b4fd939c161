//! What the program answers: a text for each task.

use crate::fault::{RouteFault, WordFault};
use crate::hexadecimal::{HexFault, fault_place, hex_fault};
use crate::numbers::{number_u8, number_u16, number_u32};
use crate::parameters::{ParamsOptions, params_word, reserved_bits};
use crate::route::route_path;
use crate::shown::Shown;
use crate::spelling::spell_path;
use cip_base::NoMemory;
use cip_names::{connection_status, general_status};
use cip_open::{Params, open_params};
use cip_segment::{PathFault, view_path};
use hex::FromHexError;
use std::alloc::{AllocError, Global};
use std::fmt;

/// Why there is no answer.
#[derive(Drop)]
pub enum AnswerFault {
    /// A word of a path in words, its place, and why it names nothing.
    Word(usize, String, WordFault),
    /// Bytes in hexadecimal that are none.
    Hex(HexFault),
    /// Bytes that are no path; where a byte is at fault its place.
    Path(usize, PathFault),
    /// A number that is none, or too great.
    Number(&'static str, String, u64),
    /// A size that a word has no room for.
    Size(u16),
    /// No reply has this status.
    Status(String),
    NoMemory,
}

impl From<AllocError> for AnswerFault {
    fn from(_refused: AllocError) -> AnswerFault {
        AnswerFault::NoMemory
    }
}

impl From<NoMemory> for AnswerFault {
    fn from(_refused: NoMemory) -> AnswerFault {
        AnswerFault::NoMemory
    }
}

fn show_path_fault<W: fmt::Write>(
    f: &mut fmt::Formatter<W>,
    place: usize,
    fault: PathFault,
) -> fmt::Result {
    match fault {
        PathFault::Reserved(byte) => write!(
            f,
            "byte {place} is {byte:02X}, which begins or continues no segment: see Paths in \
            docs/FORMATS.md"
        ),
        PathFault::BadPad => write!(f, "byte {place} is a pad; allowed: 00"),
        _ => fmt::Display::fmt(&fault, f),
    }
}

impl fmt::Display for AnswerFault {
    fn fmt<W: fmt::Write>(&self, f: &mut fmt::Formatter<W>) -> fmt::Result {
        match self {
            AnswerFault::Word(place, word, fault) => {
                write!(f, "word {place}: {} is {fault}", Shown(word.as_str()))
            }
            AnswerFault::Hex(fault) => {
                write!(
                    f,
                    "no path in hexadecimal: {fault}; a path in words has a , or @ or ="
                )
            }
            AnswerFault::Path(place, fault) => show_path_fault(f, *place, *fault),
            AnswerFault::Number(name, word, most) => {
                let word = Shown(word.as_str());
                write!(
                    f,
                    "{name}: {word} is no number to {most}, in decimal or behind 0x"
                )
            }
            AnswerFault::Size(size) => {
                write!(
                    f,
                    "--size: {size} is more than 511; with --large at most 65535"
                )
            }
            AnswerFault::Status(word) => write!(
                f,
                "{}: no reply has this status; see docs/STATUSES.md",
                Shown(word.as_str())
            ),
            AnswerFault::NoMemory => write!(f, "out of memory"),
        }
    }
}

// The word of this number in a path in words.
fn word_at(alloc: Global, text: &str, place: usize) -> Result<String, AllocError> {
    let word = text.split(',').nth(place.saturating_sub(1)).unwrap_or("");
    String::from_str(alloc, word)
}

fn route_fault(alloc: Global, text: &str, fault: RouteFault) -> AnswerFault {
    match fault {
        RouteFault::Word(place, fault) => match word_at(alloc, text, place) {
            Ok(word) => AnswerFault::Word(place, word, fault),
            Err(_) => AnswerFault::NoMemory,
        },
        RouteFault::TooLong => AnswerFault::Path(0, PathFault::TooLong),
        RouteFault::NoMemory => AnswerFault::NoMemory,
    }
}

// Bytes as upper-case pairs, a dash for none.
fn hex_text(alloc: Global, bytes: &[u8]) -> Result<String, AllocError> {
    if bytes.is_empty() {
        return String::from_str(alloc, "-");
    }
    hex::encode_upper(alloc, bytes)
}

fn bytes_of_words(alloc: Global, text: &str) -> Result<String, AnswerFault> {
    match route_path(alloc, text) {
        Ok(path) => Ok(hex_text(alloc, path.view().bytes())?),
        Err(fault) => Err(route_fault(alloc, text, fault)),
    }
}

fn words_of_bytes(alloc: Global, bytes: &[u8]) -> Result<String, AnswerFault> {
    let path = match view_path(bytes) {
        Ok(path) => path,
        Err(fault) => return Err(AnswerFault::Path(fault_place(bytes), fault)),
    };
    Ok(spell_path(alloc, path)?)
}

fn words_of_hex(alloc: Global, text: &str) -> Result<String, AnswerFault> {
    if let Some(fault) = hex_fault(text) {
        return Err(AnswerFault::Hex(fault));
    }
    match hex::decode(alloc, text) {
        Ok(bytes) => words_of_bytes(alloc, bytes.as_slice()),
        Err(FromHexError::OutOfMemory) => Err(AnswerFault::NoMemory),
        Err(_) => Err(AnswerFault::Hex(HexFault::Odd(text.len()))),
    }
}

fn has_words(text: &str) -> bool {
    text.contains(',') || text.contains('@') || text.contains('=')
}

/// A path in words as upper-case hexadecimal pairs, in its shortest spelling; or a path in
/// hexadecimal in words. The empty path is `-` in both.
pub fn path_answer(alloc: Global, text: &str) -> Result<String, AnswerFault> {
    if text == "-" {
        return Ok(String::from_str(alloc, "-")?);
    }
    if has_words(text) {
        bytes_of_words(alloc, text)
    } else {
        words_of_hex(alloc, text)
    }
}

fn number_fault(alloc: Global, name: &'static str, word: &str, most: u64) -> AnswerFault {
    match String::from_str(alloc, word) {
        Ok(word) => AnswerFault::Number(name, word, most),
        Err(_) => AnswerFault::NoMemory,
    }
}

// A word or a double word of parameters.
fn params_number(alloc: Global, large: bool, word: &str) -> Result<u32, AnswerFault> {
    let (found, most) = if large {
        (number_u32(word), 4_294_967_295)
    } else {
        (number_u16(word).map(u32::from), 65_535)
    };
    match found {
        Some(number) => Ok(number),
        None => Err(number_fault(alloc, "params", word, most)),
    }
}

/// Network connection parameters as the options that give them back, and a line for reserved bits
/// that are set.
pub fn params_answer(alloc: Global, large: bool, word: &str) -> Result<String, AnswerFault> {
    let number = params_number(alloc, large, word)?;
    let params = open_params(large, number);
    let mut text = String::new(alloc);
    write!(text, "{}", ParamsOptions { large, params })?;
    let reserved = reserved_bits(large, number);
    if reserved != 0 {
        write!(text, "\nreserved bits are set: 0x{reserved:X}")?;
    }
    Ok(text)
}

/// The size in a word.
pub fn size_of(alloc: Global, word: &str) -> Result<u16, AnswerFault> {
    match number_u16(word) {
        Some(size) => Ok(size),
        None => Err(number_fault(alloc, "--size", word, 65_535)),
    }
}

/// The network connection parameters of these parts, in hexadecimal.
pub fn params_of(alloc: Global, large: bool, params: &Params) -> Result<String, AnswerFault> {
    let Some(word) = params_word(large, params) else {
        return Err(AnswerFault::Size(params.size));
    };
    let mut text = String::new(alloc);
    if large {
        write!(text, "0x{word:08X}")?;
    } else {
        write!(text, "0x{word:04X}")?;
    }
    Ok(text)
}

fn status_fault(alloc: Global, word: &str) -> AnswerFault {
    match String::from_str(alloc, word) {
        Ok(word) => AnswerFault::Status(word),
        Err(_) => AnswerFault::NoMemory,
    }
}

// The name of the status of this word, if it has one.
fn named_status(
    alloc: Global,
    name: Option<&'static str>,
    word: &str,
) -> Result<String, AnswerFault> {
    match name {
        Some(name) => Ok(String::from_str(alloc, name)?),
        None => Err(status_fault(alloc, word)),
    }
}

/// The name of a status: of a general one, or of an additional one behind 01.
pub fn status_answer(
    alloc: Global,
    general: &str,
    additional: Option<&str>,
) -> Result<String, AnswerFault> {
    let Some(status) = number_u8(general) else {
        return Err(number_fault(alloc, "status", general, 255));
    };
    let Some(word) = additional else {
        return named_status(alloc, general_status(status), general);
    };
    let Some(number) = number_u16(word) else {
        return Err(number_fault(alloc, "status", word, 65_535));
    };
    // Additional statuses stand behind 01 alone.
    let name = if status == 0x01 {
        connection_status(number)
    } else {
        None
    };
    named_status(alloc, name, word)
}
