//! The words of a path in words, one after the other.
ghost use Rattle.std.specs.Prelude.{◌≡◌, ◌+◌, ◌<◌, ◌^◌, MatchResult, length, ◌++◌, ◌∷◌, [], All};
ghost use Rattle.std.specs.Prelude.{IfOk, OnOk, Some, None, drop};
ghost use Rattle.std.specs.Prelude.{if◌then◌else◌, option_map};
ghost use Rattle.cip_segment.specs.declared.segment.Segment.TheVariants.{Port};
ghost use Rattle.cip_segment.specs.Short.{IsWritable};
ghost use Rattle.cip_tool.specs.Words.{texts, GivesBy, port_of};
ghost use Rattle.cip_tool.specs.Routes.{is_object, is_segment, segments_of, named_by, placed};
ghost use Rattle.cip_tool.specs.Routes.{hop_at, lone_by, words_from, Routes, RouteFails, Places};
ghost use Rattle.cip_tool.specs.Routes.{IsTaken};

use crate::fault::{RouteFault, WordError, WordFault};
use crate::words::{address_of, named_of, object_of, parts_of, port_of};
use cip_base::{Address, PortNumber};
use cip_segment::Segment;
use std::alloc::{AllocError, Global};

// What stands behind @, where that stands first.
fn behind_at(word: &str) -> Option<&str>
    ensures { option_map (λ rest. rest.now) result
        ≡ (if is_object word.now then Some (drop 1 word.now) else None) }
{
    word.strip_prefix("@")
}

// Whether a word begins with @.
fn is_object(word: &str) -> bool
    ensures { result ≡ is_object word.now }
{
    behind_at(word).is_some()
}

// Whether a word names segments by itself, and no port.
fn is_segment(word: &str) -> bool
    ensures { result ≡ is_segment word.now }
{
    is_object(word) || word.as_bytes().contains(&b'=')
}

// What a NAME=VALUE names.
fn named_by(alloc: Global, parts: &[&str]) -> Result<Vec<Segment>, WordError>
    ensures gives { GivesBy (λ v. v.items) result (named_by (texts parts.now)) }
    ensures writable { IfOk result (λ v. All IsWritable v.items) }
{
    match parts {
        [name, text] => {
            let mut found = Vec::new(alloc);
            found.push(named_of(alloc, name, text)?)?;
            Ok(found)
        }
        _ => Err(WordError::Fault(WordFault::Name)),
    }
}

// What the text behind @ names, or a NAME=VALUE.
fn segments_of(alloc: Global, word: &str) -> Result<Vec<Segment>, WordError>
    ensures gives { GivesBy (λ v. v.items) result (segments_of word.now) }
    ensures writable { IfOk result (λ v. All IsWritable v.items) }
{
    if let Some(text) = behind_at(word) {
        return object_of(alloc, text);
    }
    let parts = parts_of(alloc, word, '=')?;
    named_by(alloc, parts.as_slice())
}

// A fault of the word of this number.
fn placed(place: usize, error: WordError) -> RouteFault
    ensures { Places place error result }
{
    match error {
        WordError::Fault(fault) => RouteFault::Word(place, fault),
        WordError::NoMemory => RouteFault::NoMemory,
    }
}

// The segments of the word of this number.
fn word_at(alloc: Global, place: usize, word: &str) -> Result<Vec<Segment>, RouteFault>
    ensures gives { Routes (λ v. v.items) result (placed place (segments_of word.now)) }
    ensures writable { IfOk result (λ v. All IsWritable v.items) }
{
    match segments_of(alloc, word) {
        Ok(found) => Ok(found),
        Err(error) => Err(placed(place, error)),
    }
}

fn hop(alloc: Global, port: PortNumber, address: Address) -> Result<Vec<Segment>, AllocError>
    ensures gives { IfOk result (λ v. v.items ≡ Port port address ∷ []) }
    ensures writable { IfOk result (λ v. All IsWritable v.items) }
{
    let mut found = Vec::new(alloc);
    found.push(Segment::Port(port, address))?;
    Ok(found)
}

// The hop of two words, of which the first has this number.
fn hop_at(
    alloc: Global,
    place: usize,
    port: &str,
    address: &str,
) -> Result<Vec<Segment>, RouteFault>
    requires { place + 1 < 2 ^ 64 }
    ensures gives { Routes (λ v. v.items) result (hop_at place port.now address.now) }
    ensures writable { IfOk result (λ v. All IsWritable v.items) }
{
    let port = match port_of(port) {
        Ok(port) => port,
        Err(error) => return Err(placed(place, error)),
    };
    match address_of(alloc, address) {
        Ok(address) => Ok(hop(alloc, port, address)?),
        Err(error) => Err(placed(place + 1, error)),
    }
}

// A port that ends the text.
fn lone(place: usize, port: &str) -> RouteFault
    ensures { RouteFails result (lone_by place (port_of port.now)) }
{
    match port_of(port) {
        Ok(_) => RouteFault::Word(place, WordFault::NoAddress),
        Err(error) => placed(place, error),
    }
}

// Puts segments behind those that were found, and answers how many words they were.
fn add(found: &mut Vec<Segment>, more: Vec<Segment>, count: usize) -> Result<usize, RouteFault>
    requires { All IsWritable more.items }
    ensures writable { OnOk result (All IsWritable found.old.items
        → All IsWritable found.new.items) }
    ensures added { MatchResult result
        (λ n. (n ≡ count) × (found.new.items ≡ found.old.items ++ more.items))
        (λ e. e ≡ RouteFault.NoMemory) }
{
    let mut more = more;
    match found.append(&mut more) {
        Ok(()) => Ok(count),
        Err(_) => Err(RouteFault::NoMemory),
    }
}

// Puts the segments of the first word, of this number, behind those that were found, or those of
// the first two; how many words they were.
fn take_first(
    alloc: Global,
    place: usize,
    words: &[&str],
    found: &mut Vec<Segment>,
) -> Result<usize, RouteFault>
    requires some { 0 < length words.now }
    requires fits { place + length words.now < 2 ^ 64 }
    ensures writable { OnOk result (All IsWritable found.old.items
        → All IsWritable found.new.items) }
    ensures taken { MatchResult result
        (λ count. IsTaken place words.now count found.old.items found.new.items)
        (λ e. RouteFails e (words_from place (texts words.now))) }
{
    let Some((word, after)) = words.split_first() else {
        unreachable!()
    };
    if is_segment(word) {
        return match word_at(alloc, place, word) {
            Ok(more) => add(found, more, 1),
            Err(fault) => Err(fault),
        };
    }
    let Some((address, _)) = after.split_first() else {
        return Err(lone(place, word));
    };
    match hop_at(alloc, place, word, address) {
        Ok(more) => add(found, more, 2),
        Err(fault) => Err(fault),
    }
}

/// The segments of words.
pub(crate) fn read_words(alloc: Global, words: &[&str]) -> Result<Vec<Segment>, RouteFault>
    ensures gives { Routes (λ v. v.items) result (words_from 1 (texts words.now)) }
    ensures writable { IfOk result (λ v. All IsWritable v.items) }
{
    let mut found = Vec::new(alloc);
    let mut at = 0;
    'reading: while at < words.len() {
        match take_first(alloc, at + 1, &words[at..], &mut found) {
            Ok(count) => at += count,
            Err(fault) => return Err(fault),
        }
    }
    Ok(found)
}
