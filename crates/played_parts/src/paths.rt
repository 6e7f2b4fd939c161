//! Questions about paths: what they are read as, and how segments are written.
use crate::texts::{PairsOrCount, name as name_of, text};
use cip_base::{Bytes, KeyFields};
use cip_segment::{
    FirstHop, Path, PathFault, Segment, SegmentView, first_hop, read_path, rest, segment_ok,
    segments, split_first, view_path, write_path,
};
use line_words::{Then, Words};
use std::alloc::Global;
use std::fmt;
use std::fmt::Write;

/// A key as its five numbers.
#[derive(Clone, Copy)]
struct Key(KeyFields);

impl fmt::Display for Key {
    fn fmt<W: fmt::Write>(&self, f: &mut fmt::Formatter<W>) -> fmt::Result {
        let KeyFields {
            vendor,
            device_type,
            product,
            major,
            minor,
        } = self.0;
        let revision = Then(major, minor);
        let kind = Then(vendor, Then(device_type, product));
        fmt::Display::fmt(&Then("key", Then(kind, revision)), f)
    }
}

#[derive(Clone, Copy)]
struct Shown<'a>(SegmentView<'a>);

impl fmt::Display for Shown<'_> {
    fn fmt<W: fmt::Write>(&self, f: &mut fmt::Formatter<W>) -> fmt::Result {
        match self.0 {
            SegmentView::Port(port, address) => {
                let hop = Then(port.get(), PairsOrCount(address));
                fmt::Display::fmt(&Then("port", hop), f)
            }
            SegmentView::Class(class) => fmt::Display::fmt(&Then("class", class), f),
            SegmentView::Instance(instance) => fmt::Display::fmt(&Then("instance", instance), f),
            SegmentView::Member(member) => fmt::Display::fmt(&Then("member", member), f),
            SegmentView::Point(point) => fmt::Display::fmt(&Then("point", point), f),
            SegmentView::Attribute(attribute) => fmt::Display::fmt(
                &Then("attribute", attribute),
                f,
            ),
            SegmentView::Key(key) => fmt::Display::fmt(&Key(key), f),
            SegmentView::Words(words) => fmt::Display::fmt(&Then("words", PairsOrCount(words)), f),
            SegmentView::Symbol(name) => fmt::Display::fmt(&Then("symbol", PairsOrCount(name)), f),
            SegmentView::Inhibit(time) => fmt::Display::fmt(&Then("inhibit", time), f),
        }
    }
}

// The segment, borrowed.
fn seen(segment: &Segment) -> SegmentView<'_> {
    match segment {
        Segment::Port(port, address) => SegmentView::Port(*port, address.as_slice()),
        Segment::Class(class) => SegmentView::Class(*class),
        Segment::Instance(instance) => SegmentView::Instance(*instance),
        Segment::Member(member) => SegmentView::Member(*member),
        Segment::Point(point) => SegmentView::Point(*point),
        Segment::Attribute(attribute) => SegmentView::Attribute(*attribute),
        Segment::Key(key) => SegmentView::Key(*key),
        Segment::Words(words) => SegmentView::Words(words.as_slice()),
        Segment::Symbol(symbol) => SegmentView::Symbol(symbol.as_slice()),
        Segment::Inhibit(time) => SegmentView::Inhibit(*time),
    }
}

fn listed(alloc: Global, list: &[Segment]) -> Option<String> {
    let mut text = String::new(alloc);
    for segment in list {
        write!(text, "[{}]", Shown(seen(segment))).ok()?;
    }
    Some(text)
}

// The bytes of a path that a guarded call gave, or its fault.
fn given(words: &mut Words, found: Result<Path, PathFault>) -> Option<String> {
    let alloc = words.alloc;
    words.close(matches!(found, Err(PathFault::NoMemory)));
    match found {
        Ok(path) => text(alloc, PairsOrCount(path.view().bytes())),
        Err(fault) => name_of(alloc, fault),
    }
}

// The bytes of these segments, each of which can be written, or why they are not written.
fn spelled(words: &mut Words, list: Option<Vec<Segment>>) -> Option<String> {
    let list = list?;
    let list = list.as_slice();
    let alloc = words.alloc;
    let before = listed(alloc, list)?;
    if !list.iter().all(|segment| segment_ok(segment)) {
        return None;
    }
    words.open();
    let written = write_path(alloc, list);
    let answer = given(words, written)?;
    if words.is_refused {
        words.same = Some(listed(alloc, list)?.as_str() == before.as_str());
    }
    Some(answer)
}

// So many segments of a class of one byte.
fn classes(alloc: Global, count: u16) -> Option<Vec<Segment>> {
    let mut list = Vec::new(alloc);
    for _ in 0..count {
        list.push(Segment::Class(1)).ok()?;
    }
    Some(list)
}

// A segment of this data.
fn of_data(alloc: Global, bytes: &[u8]) -> Option<Vec<Segment>> {
    let data_ = Bytes::of(bytes.to_vec(alloc).ok()?);
    let mut list = Vec::new(alloc);
    list.push(Segment::Words(data_)).ok()?;
    Some(list)
}

// Whether each front of the bytes ends within a segment.
fn is_truncated_where_cut(bytes: &[u8]) -> bool {
    for len in 1..bytes.len() {
        if view_path(&bytes[..len]).err() != Some(PathFault::Truncated) {
            return false;
        }
    }
    true
}

// `TIMES`: the words of a path of 255 segments, which is read so often, each time with another
// class in front.
fn read_often(times: u32) -> Option<u8> {
    let mut bytes = [0x20; 510];
    for turn in 0..times {
        bytes[1] = (turn % 256) as u8;
        if view_path(&bytes).ok()?.words() != 255 {
            return None;
        }
    }
    Some(255)
}

// `PATH`: the words of its copy and whether it is the same, or its fault.
fn copied(words: &mut Words, bytes: &[u8]) -> Option<String> {
    let alloc = words.alloc;
    match read_path(alloc, bytes) {
        Ok(path) => {
            words.open();
            let copy = words.had(path.copy(alloc));
            if copy.is_none() {
                words.same = Some(path.view().bytes() == bytes);
            }
            let copy = copy?;
            let is_same = Then("words", copy == path);
            text(alloc, Then(copy.view().words(), is_same))
        }
        Err(fault) => name_of(alloc, fault),
    }
}

// `PATH`: its words, the hop that it begins with, and the path that is left.
fn hop(alloc: Global, bytes: &[u8]) -> Option<String> {
    let path = view_path(bytes).ok()?;
    let words = path.words();
    match first_hop(path) {
        FirstHop::Hop {
            key,
            port,
            address,
            rest_words,
        } => {
            let behind = rest(path);
            let left = Then("rest", Then(rest_words, PairsOrCount(behind.bytes())));
            let next = Then(port.get(), PairsOrCount(address.as_slice()));
            let way = Then("port", Then(next, left));
            match key {
                Some(key) => text(alloc, Then(words, Then("words", Then(Key(key), way)))),
                None => text(alloc, Then(words, Then("words", way))),
            }
        }
        FirstHop::End => text(alloc, Then(words, "words no hop")),
    }
}

// A question about bytes: what they are as a path.
fn viewed(name: &str, words: &mut Words, bytes: &[u8]) -> Option<String> {
    let alloc = words.alloc;
    match name {
        // its words, or its fault
        "view" => match view_path(bytes) {
            Ok(path) => text(alloc, Then(path.words(), "words")),
            Err(fault) => name_of(alloc, fault),
        },
        // their fault, where their last byte is the one that cannot continue a path
        "fault" if is_truncated_where_cut(bytes) => name_of(alloc, view_path(bytes).err()?),
        // the text of their fault
        "text" => text(alloc, view_path(bytes).err()?),
        // its first segment, and what follows it
        "first" => match split_first(view_path(bytes).ok()?) {
            Some((first, behind)) => {
                format!(in alloc; "{} before {}", Shown(first), PairsOrCount(behind.bytes())).ok()
            }
            None => text(alloc, "none"),
        },
        "hop" => hop(alloc, bytes),
        _ => None,
    }
}

// A question about bytes whose answer has memory of its own.
fn made(name: &str, words: &mut Words, bytes: &[u8]) -> Option<String> {
    let alloc = words.alloc;
    match name {
        "copy" => copied(words, bytes),
        "read_path" => {
            words.open();
            let path = read_path(alloc, bytes);
            given(words, path)
        }
        "PathView::to_path" => {
            let path = view_path(bytes).ok()?;
            words.open();
            let path = words.had(path.to_path(alloc))?;
            text(alloc, PairsOrCount(path.view().bytes()))
        }
        // its segments
        "segments" => {
            let path = view_path(bytes).ok()?;
            words.open();
            let list = words.had(segments(alloc, path))?;
            listed(alloc, list.as_slice())
        }
        // the shortest spelling of one segment: each front of it ends within it
        "spelled" if bytes.is_empty() || !is_truncated_where_cut(bytes) => None,
        // its shortest spelling
        "written" | "spelled" => {
            let path = view_path(bytes).ok()?;
            spelled(words, segments(alloc, path).ok())
        }
        // a segment of this data
        "data" => spelled(words, of_data(alloc, bytes)),
        _ => None,
    }
}

/// The answer to a question of this name: `classes N`, `read_often TIMES`, or about bytes.
pub fn answer(name: &str, words: &mut Words) -> Option<String> {
    let alloc = words.alloc;
    match name {
        "classes" => {
            let list = classes(alloc, words.u16()?);
            return spelled(words, list);
        }
        "read_often" => return text(alloc, Then(read_often(words.u32()?)?, "words")),
        _ => {}
    }
    let bytes = words.bytes()?;
    let before = bytes.as_slice().to_vec(alloc).ok()?;
    let answer = match name {
        "view" | "fault" | "text" | "first" | "hop" => viewed(name, words, bytes.as_slice()),
        _ => made(name, words, bytes.as_slice()),
    };
    if words.is_refused {
        words.same = Some(words.same != Some(false) && bytes.as_slice() == before.as_slice());
    }
    answer
}
