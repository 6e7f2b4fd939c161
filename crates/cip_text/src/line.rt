//! A line in the making: its parts stand one behind the other in room on the stack, so that a text
//! grows once for all of them. Each call here writes a part at a place and gives the place behind.
ghost use Rattle.std.specs.Prelude.{◌≡◌, ◌+◌, ◌*◌, ◌/◌, ◌%◌, ◌<◌, ◌≤◌, ◌++◌, ◌∷◌, []};
ghost use Rattle.std.specs.Prelude.{ℕ, length, take, decimal, IfOk, OnOk, OnErr};
ghost use Rattle.cip_text.specs.Texts.{pairs_text, four_digits};

use crate::pairs::fill_pairs;
use cip_base::NoMemory;
use itoa::Buffer;

/// How many bytes the room has.
pub const ROOM: usize = 256;

// The two digits of every number below 100.
static TENS: [u8; 200] = *b"\
    0001020304050607080910111213141516171819\
    2021222324252627282930313233343536373839\
    4041424344454647484950515253545556575859\
    6061626364656667686970717273747576777879\
    8081828384858687888990919293949596979899";

/// A byte.
#[inline(always)]
pub fn byte(room: &mut [u8; ROOM], at: usize, byte: u8) -> usize
    requires { at < 256 }
    ensures next { result ≡ at + 1 }
    ensures text { take result room.new ≡ take at room.old ++ byte ∷ [] }
{
    room[at] = byte;
    at + 1
}

/// A word.
#[inline(always)]
pub fn word(room: &mut [u8; ROOM], at: usize, word: &[u8]) -> usize
    requires { at + length word.now ≤ 256 }
    ensures next { result ≡ at + length word.now }
    ensures text { take result room.new ≡ take at room.old ++ word.now }
{
    let end = at + word.len();
    room[at..end].copy_from_slice(word);
    end
}

// A number below 100 in two digits.
#[inline(always)]
fn pair(room: &mut [u8; ROOM], at: usize, number: u64) -> usize
    requires { (number < 100) × (at + 2 ≤ 256) }
    ensures next { result ≡ at + 2 }
    ensures text { take result room.new
        ≡ take at room.old ++ (48 + number / 10) ∷ (48 + number % 10) ∷ [] }
{
    let from = 2 * number as usize;
    let (tens, ones) = (TENS[from], TENS[from + 1]);
    room[at] = tens;
    room[at + 1] = ones;
    at + 2
}

// A number of one digit or two.
#[inline(always)]
fn few(room: &mut [u8; ROOM], at: usize, number: u64) -> usize
    requires { (number < 100) × (at + 2 ≤ 256) }
    ensures most { result ≤ at + 2 }
    ensures text { take result room.new ≡ take at room.old ++ decimal number }
{
    if number < 10 {
        return byte(room, at, b'0' + number as u8);
    }
    pair(room, at, number)
}

// A number of one digit to four.
#[inline(always)]
fn short(room: &mut [u8; ROOM], at: usize, number: u64) -> usize
    requires { (number < 10000) × (at + 4 ≤ 256) }
    ensures most { result ≤ at + 4 }
    ensures text { take result room.new ≡ take at room.old ++ decimal number }
{
    if number < 100 {
        return few(room, at, number);
    }
    let next = few(room, at, number / 100);
    pair(room, next, number % 100)
}

// A number below 10,000 in four digits.
#[inline(always)]
fn four(room: &mut [u8; ROOM], at: usize, number: u64) -> usize
    requires { (number < 10000) × (at + 4 ≤ 256) }
    ensures next { result ≡ at + 4 }
    ensures text { take result room.new ≡ take at room.old ++ four_digits number }
{
    let last = pair(room, at, number / 100);
    pair(room, last, number % 100)
}

// A number of five digits to eight.
#[inline(always)]
fn long(room: &mut [u8; ROOM], at: usize, number: u64) -> usize
    requires { (10000 ≤ number) × (number < 100000000) × (at + 8 ≤ 256) }
    ensures most { result ≤ at + 8 }
    ensures text { take result room.new ≡ take at room.old ++ decimal number }
{
    let next = short(room, at, number / 10_000);
    four(room, next, number % 10_000)
}

// A number of nine digits or ten.
#[inline(always)]
fn wide(room: &mut [u8; ROOM], at: usize, number: u64) -> usize
    requires { (100000000 ≤ number) × (number < 10000000000) × (at + 10 ≤ 256) }
    ensures most { result ≤ at + 10 }
    ensures text { take result room.new ≡ take at room.old ++ decimal number }
{
    let next = few(room, at, number / 100_000_000);
    let low = number % 100_000_000;
    let last = four(room, next, low / 10_000);
    four(room, last, low % 10_000)
}

/// A number in decimal digits, of which there are 20 at most.
pub fn number(room: &mut [u8; ROOM], at: usize, number: u64) -> usize
    requires { at + 20 ≤ 256 }
    ensures most { result ≤ at + 20 }
    ensures text { take result room.new ≡ take at room.old ++ decimal number }
{
    if number < 10_000 {
        return short(room, at, number);
    }
    if number < 100_000_000 {
        return long(room, at, number);
    }
    if number < 10_000_000_000 {
        return wide(room, at, number);
    }
    let mut buffer = Buffer::new();
    word(room, at, buffer.format(number).as_bytes())
}

/// A number, and a byte after it.
#[inline(always)]
pub fn number_then(room: &mut [u8; ROOM], at: usize, digits: u64, then: u8) -> usize
    requires { at + 21 ≤ 256 }
    ensures most { result ≤ at + 21 }
    ensures text { take result room.new ≡ take at room.old ++ decimal digits ++ then ∷ [] }
{
    let next = number(room, at, digits);
    byte(room, next, then)
}

/// Bytes as upper-case pairs, a dash for none.
pub fn pairs(room: &mut [u8; ROOM], at: usize, bytes: &[u8]) -> usize
    requires { at + 1 + 2 * length bytes.now ≤ 256 }
    ensures most { result ≤ at + 1 + 2 * length bytes.now }
    ensures text { take result room.new ≡ take at room.old ++ pairs_text bytes.now }
{
    if bytes.is_empty() {
        return byte(room, at, b'-');
    }
    let end = at + 2 * bytes.len();
    fill_pairs(bytes, &mut room[at..end]);
    end
}

// Puts bytes behind a text one by one: after NoMemory those stand there that had room.
fn put_each(text: &mut Vec<u8>, bytes: &[u8]) -> Result<(), NoMemory>
    ensures ok { OnOk result (text.new.items ≡ text.old.items ++ bytes.now) }
    ensures err { OnErr result
        ((count : ℕ) × (text.new.items ≡ text.old.items ++ take count bytes.now)) }
{
    'bytes: for i in 0..bytes.len() {
        text.push(bytes[i])?;
    }
    Ok(())
}

/// Puts a line in the making behind a text. NoMemory where an allocation is refused: then as much
/// of its front stands there as had room.
pub fn put_front(text: &mut Vec<u8>, bytes: &[u8]) -> Result<(), NoMemory>
    ensures ok { OnOk result (text.new.items ≡ text.old.items ++ bytes.now) }
    ensures err { OnErr result
        ((count : ℕ) × (text.new.items ≡ text.old.items ++ take count bytes.now)) }
{
    if text.extend_from_slice(bytes).is_ok() {
        return Ok(());
    }
    put_each(text, bytes)
}

/// Room for so many bytes more: where what stands there leaves less, it goes into the text.
/// NoMemory where an allocation is refused: the text then has its beginning.
#[inline(always)]
pub fn room_for(
    text: &mut Vec<u8>,
    room: &[u8; ROOM],
    at: usize,
    count: usize,
) -> Result<usize, NoMemory>
    requires { (at ≤ 256) × (count ≤ 256) }
    ensures most { IfOk result (λ next. next + count ≤ 256) }
    ensures text { IfOk result (λ next.
        text.new.items ++ take next room.now ≡ text.old.items ++ take at room.now) }
    ensures err { OnErr result
        ((put : ℕ) × (text.new.items ≡ text.old.items ++ take put (take at room.now))) }
{
    if count <= ROOM - at {
        return Ok(at);
    }
    put_front(text, &room[..at])?;
    Ok(0)
}
