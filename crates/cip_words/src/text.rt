//! The lines of a text.
ghost use Rattle.std.specs.Prelude.{◌≡◌, ◌≤◌, ◌<◌, ◌∷◌, length, take, map, IfOk, IfSome, IfNone};
ghost use Rattle.std.specs.Prelude.{slice_index, true};
ghost use Rattle.std.specs.List.{slice_split};
ghost use Rattle.std.specs.Str.{IsAscii};
ghost use Rattle.std.specs.Str.Lines.{lines, strip_carriage_return};
ghost use Rattle.cip_words.specs.Shown.{is_newline, HasNoNewline};

use std::alloc::{AllocError, Global};

/// Where the first line of a text ends: the place of its first newline.
pub fn line_end(text: &[u8]) -> Option<usize>
    ensures within { IfSome result (λ end. end < length text.now) }
    ensures newline { IfSome result (λ end. is_newline (slice_index text.now end) ≡ true) }
    ensures first { IfSome result (λ end. HasNoNewline text.now end) }
    ensures none { IfNone result (HasNoNewline text.now (length text.now)) }
{
    for (i, byte) in text.iter().enumerate() {
        if *byte == b'\n' {
            return Some(i);
        }
    }
    None
}

// The line without the one carriage return at its end.
fn without_return(line: &[u8]) -> &[u8]
    ensures { result.now ≡ strip_carriage_return line.now }
{
    match line.strip_suffix(b"\r") {
        Some(rest) => rest,
        None => line,
    }
}

// The parts between newlines.
fn parts_of(alloc: Global, text: &[u8]) -> Result<Vec<&[u8]>, AllocError>
    ensures { IfOk result (λ v. map (λ part. part.now) v.items
        ≡ slice_split is_newline text.now) }
{
    text.split(|byte| *byte == b'\n').collect(alloc)
}

/// The lines of a text, each without the one carriage return at its end. AllocError where an
/// allocation is refused.
pub fn lines(alloc: Global, text: &[u8]) -> Result<Vec<&[u8]>, AllocError>
    ensures { IfOk result (λ v. map (λ line. line.now) v.items ≡ lines text.now) }
{
    let parts = parts_of(alloc, text)?;
    let mut found = Vec::new(alloc);
    for (i, part) in parts.iter().enumerate() {
        if i + 1 < parts.len() {
            found.push(without_return(part))?;
        } else if !part.is_empty() {
            found.push(*part)?;
        }
    }
    Ok(found)
}

// The line that ends at this newline, without the one carriage return at its end.
fn line_before(text: &str, newline: usize) -> &str
    requires text { IsAscii text.now }
    requires within { newline ≤ length text.now }
    ensures { result.now ≡ strip_carriage_return (take newline text.now) }
{
    if newline != 0 && text.as_bytes()[newline - 1] == b'\r' {
        &text[..newline - 1]
    } else {
        &text[..newline]
    }
}

/// The first line of a text that is ASCII and not empty, without the one carriage return at its
/// end, and what is left behind it.
pub fn first_line(text: &str) -> (&str, &str)
    requires text { IsAscii text.now }
    requires some { 0 < length text.now }
    ensures text { IsAscii result.0.now × IsAscii result.1.now }
    ensures less { length result.1.now < length text.now }
    ensures lines { lines text.now ≡ result.0.now ∷ lines result.1.now }
{
    match line_end(text.as_bytes()) {
        Some(newline) => (line_before(text, newline), &text[newline + 1..]),
        None => (text, ""),
    }
}
