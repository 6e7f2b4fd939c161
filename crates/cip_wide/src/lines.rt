//! The lines of a wide script.

use std::alloc::{AllocError, Global};

/// A line that is not blank: its number, from 1, its text, and its words. A comment has none.
#[derive(Drop)]
pub(crate) struct Line<'a> {
    pub(crate) number: usize,
    pub(crate) text: &'a str,
    pub(crate) words: Vec<&'a str>,
}

fn words_of(alloc: Global, line: &str) -> Result<Vec<&str>, AllocError> {
    let mut words = Vec::new(alloc);
    if line.starts_with('#') {
        return Ok(words);
    }
    for word in line.split(' ') {
        if !word.is_empty() {
            words.push(word)?;
        }
    }
    Ok(words)
}

/// The lines of a text that say something, and its comments.
pub(crate) fn lines_of(alloc: Global, text: &str) -> Result<Vec<Line<'_>>, AllocError> {
    let mut lines = Vec::new(alloc);
    for (i, text) in text.lines().enumerate() {
        let words = words_of(alloc, text)?;
        if !words.is_empty() || text.starts_with('#') {
            let number = i.saturating_add(1);
            lines.push(Line {
                number,
                text,
                words,
            })?;
        }
    }
    Ok(lines)
}

/// The first line that is no ASCII, from 1.
pub(crate) fn first_not_ascii(text: &[u8]) -> Option<usize> {
    let mut line = 1usize;
    for byte in text {
        if !byte.is_ascii() {
            return Some(line);
        }
        if *byte == b'\n' {
            line = line.saturating_add(1);
        }
    }
    None
}
