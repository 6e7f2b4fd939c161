//! A transcript as JSON: one object for each entry, on a line of its own, and one for each other
//! line. Members stand in alphabetical order.
ghost use Rattle.std.specs.Prelude.{◌≡◌, [], string_bytes};

use crate::note_json::put_note;
use cip_base::{Address, ModuleId, NoMemory, PortNumber, Triad};
use cip_book::{
    Book, Ending, Known, NameText, Past, Sent, View, drop_word, put_label, refusal_word,
};
use cip_chassis::Topology;
use cip_decode::{
    Attributes, AttributesView, answered_attributes, decode_reply, decode_request,
    put_attributes_json, put_reply_json, put_request_json, put_triad_json, set_instance,
};
use cip_event::{Body, Output};
use cip_read::{CommandWord, FrameName, Given, Line, Note};
use cip_text::Draft;
use std::alloc::Global;
use std::fmt;

// Bytes as pairs between what stands before them and behind them, with the quotation marks.
fn put_bytes(text: &mut Draft, before: &str, bytes: &[u8], behind: &str) -> Result<(), NoMemory> {
    text.put(before)?;
    text.put_pairs(bytes)?;
    text.put(behind)
}

// A word as a JSON string behind what stands before it.
fn put_word(text: &mut Draft, before: &str, word: &str) -> Result<(), NoMemory> {
    text.put(before)?;
    text.put_quoted(word)
}

// An object with the fault of what can't be read.
fn put_fault<T: fmt::Display + Drop>(text: &mut Draft, fault: T) -> Result<(), NoMemory> {
    let alloc = text.allocator();
    let told = format!(in alloc; "{fault}")?;
    put_word(text, "{\"unreadable\":", told.as_str())?;
    text.put("}")
}

fn put_frame(text: &mut Draft, before: &str, frame: FrameName) -> Result<(), NoMemory> {
    text.put(before)?;
    text.put_count("{\"entry\":", frame.entry as u64)?;
    text.put_count(",\"output\":", frame.output as u64)?;
    text.put("}")
}

// A request decoded, or why it can't be.
fn put_request(text: &mut Draft, bytes: &[u8]) -> Result<(), NoMemory> {
    match decode_request(bytes) {
        Ok(request) => put_request_json(text, &request),
        Err(fault) => put_fault(text, fault),
    }
}

// A reply decoded, or why it can't be.
fn put_reply(text: &mut Draft, bytes: &[u8]) -> Result<(), NoMemory> {
    match decode_reply(bytes) {
        Ok(reply) => put_reply_json(text, &reply),
        Err(fault) => put_fault(text, fault),
    }
}

// What attributes say, as a member.
fn put_attributes(text: &mut Draft, view: &AttributesView<'_>) -> Result<(), NoMemory> {
    text.put("\"attributes\":")?;
    put_attributes_json(text, view)?;
    text.put(",")
}

// What a reply says of the attributes that were asked for.
fn put_answered(text: &mut Draft, asked: Option<Attributes>, bytes: &[u8]) -> Result<(), NoMemory> {
    let Some(asked) = asked else {
        return Ok(());
    };
    if let Ok(reply) = decode_reply(bytes) {
        if let Some(view) = answered_attributes(asked, &reply) {
            put_attributes(text, &view)?;
        }
    }
    Ok(())
}

// The data that a request sets an assembly to likewise.
fn put_set(text: &mut Draft, bytes: &[u8]) -> Result<(), NoMemory> {
    if let Ok(request) = decode_request(bytes) {
        if let Some(instance) = set_instance(&request) {
            let view = AttributesView::Assembly(instance, request.view.data_);
            put_attributes(text, &view)?;
        }
    }
    Ok(())
}

// The attributes that what a frame holds has.
fn put_held_attributes(
    text: &mut Draft,
    asked: Option<Attributes>,
    body: &Body,
) -> Result<(), NoMemory> {
    match body {
        Body::Request { bytes, .. } => put_set(text, bytes.as_slice()),
        Body::Reply { bytes, .. } => put_answered(text, asked, bytes.as_slice()),
        Body::Data { .. } => Ok(()),
    }
}

// A datum: its connection where it is known, its sequence count where it has one.
fn put_datum(text: &mut Draft, known: Known, bytes: &[u8]) -> Result<(), NoMemory> {
    let rest = match (known.class_, bytes) {
        (Some(1), [low, high, rest @ ..]) => {
            let count = u16::from_le_bytes([*low, *high]);
            text.put_count("{\"count\":", u64::from(count))?;
            rest
        }
        _ => {
            text.put("{\"count\":null")?;
            bytes
        }
    };
    put_bytes(text, ",\"data\":\"", rest, "\",\"triad\":")?;
    match known.triad {
        Some(triad) => {
            put_triad_json(text, triad)?;
            text.put("}")
        }
        None => text.put("null}"),
    }
}

// What stands before the number of a command.
fn command_front(word: CommandWord) -> &'static str {
    match word {
        CommandWord::Send => "{\"command\":\"send\",\"op\":",
        CommandWord::Open => "{\"command\":\"open\",\"op\":",
        CommandWord::Large => "{\"command\":\"large\",\"op\":",
        CommandWord::Close => "{\"command\":\"close\",\"op\":",
        CommandWord::Enter => "{\"command\":\"enter\",\"of\":",
        CommandWord::Set => "{\"command\":\"set\",\"instance\":",
        CommandWord::Produce => "{\"command\":\"produce\",\"instance\":",
    }
}

fn put_given(text: &mut Draft, given: Given) -> Result<(), NoMemory> {
    match given {
        Given::Command(word, number) => {
            text.put_count(command_front(word), u64::from(number))?;
        }
        Given::Tick(ms) => text.put_count("{\"tick_ms\":", u64::from(ms))?,
        Given::Frame(frame) => put_frame(text, "{\"frame\":", frame)?,
    }
    text.put("}")
}

// A module's name, of ASCII characters.
fn put_name(text: &mut Draft, name: &[u8]) -> Result<(), NoMemory> {
    match std::str::from_utf8(name) {
        Ok(name) if name.is_ascii() => text.put_quoted(name),
        _ => {
            let alloc = text.allocator();
            let shown = format!(in alloc; "{}", NameText(name))?;
            text.put_quoted(shown.as_str())
        }
    }
}

// A module by its name, or null.
fn put_module(
    text: &mut Draft,
    before: &str,
    book: &Book<'_>,
    id: Option<ModuleId>,
) -> Result<(), NoMemory> {
    text.put(before)?;
    match id {
        Some(id) => put_name(text, book.name(id)),
        None => text.put("null"),
    }
}

// The frame that a step was given, or that was lost.
fn put_arrived(text: &mut Draft, book: &Book<'_>, sent: Option<Sent>) -> Result<(), NoMemory> {
    match sent {
        Some(sent) => {
            put_module(
                text,
                "{\"entry\":{\"arrived\":{\"from\":",
                book,
                Some(sent.from),
            )?;
            text.put(",\"label\":\"")?;
            put_label(text, sent.label)?;
            text.put("\"}")
        }
        None => text.put("{\"entry\":{\"arrived\":null"),
    }
}

// The number of an entry, and the outputs begin.
fn put_entry_number(text: &mut Draft, entry: usize) -> Result<(), NoMemory> {
    text.put_count(",\"number\":", entry as u64)?;
    text.put("},\"outputs\":[")
}

// The entry of a step, up to its outputs.
fn put_step(
    text: &mut Draft,
    book: &Book<'_>,
    entry: usize,
    at: ModuleId,
    given: Given,
) -> Result<(), NoMemory> {
    put_arrived(text, book, book.arrived())?;
    text.put(",\"given\":")?;
    put_given(text, given)?;
    put_module(text, ",\"module\":", book, Some(at))?;
    put_entry_number(text, entry)
}

// The entry of a loss, up to its outputs.
fn put_lost(
    text: &mut Draft,
    book: &Book<'_>,
    sent: Option<Sent>,
    entry: usize,
    frame: FrameName,
) -> Result<(), NoMemory> {
    put_arrived(text, book, sent)?;
    put_frame(text, ",\"lost\":", frame)?;
    put_entry_number(text, entry)
}

// The bytes of what a frame holds, and its number or id.
fn put_held(text: &mut Draft, bytes: &[u8], behind: &str, number: u32) -> Result<(), NoMemory> {
    put_bytes(text, "\"holds\":{\"bytes\":\"", bytes, behind)?;
    text.put_number(u64::from(number))?;
    text.put(",\"says\":")
}

// What a frame holds that goes to a module.
fn put_body(
    text: &mut Draft,
    book: &Book<'_>,
    to: Option<ModuleId>,
    body: &Body,
) -> Result<(), NoMemory> {
    match body {
        Body::Request { number, bytes } => {
            put_held(text, bytes.as_slice(), "\",\"request\":", *number)?;
            put_request(text, bytes.as_slice())?;
        }
        Body::Reply { number, bytes } => {
            put_held(text, bytes.as_slice(), "\",\"reply\":", *number)?;
            put_reply(text, bytes.as_slice())?;
        }
        Body::Data { id, bytes } => {
            put_held(text, bytes.as_slice(), "\",\"data\":", *id)?;
            put_datum(text, book.of_id(to, *id), bytes.as_slice())?;
        }
    }
    text.put("}")
}

fn put_consumed(
    text: &mut Draft,
    book: &mut Book<'_>,
    triad: Triad,
    instance: u32,
    bytes: &[u8],
) -> Result<(), NoMemory> {
    let is_repeated = book.consume(triad, bytes)?;
    put_bytes(
        text,
        "{\"consumed\":{\"bytes\":\"",
        bytes,
        "\",\"instance\":",
    )?;
    text.put_number(u64::from(instance))?;
    if is_repeated {
        text.put(",\"repeated\":true")?;
    }
    text.put(",\"says\":")?;
    put_datum(text, book.of_triad(triad), bytes)?;
    text.put("}}")
}

fn put_arrived_datum(
    text: &mut Draft,
    book: &Book<'_>,
    op: u32,
    bytes: &[u8],
) -> Result<(), NoMemory> {
    put_bytes(text, "{\"arrived\":{\"bytes\":\"", bytes, "\",\"op\":")?;
    text.put_number(u64::from(op))?;
    text.put(",\"says\":")?;
    put_datum(text, book.of_op(op), bytes)?;
    text.put("}}")
}

// The end of an op: with which reply, and who made the failure that it tells of.
fn put_done(text: &mut Draft, book: &Book<'_>, op: u32, reply: &[u8]) -> Result<(), NoMemory> {
    let made_at = match decode_reply(reply) {
        Ok(reply) if reply.view.general != 0 => book.made_at(),
        _ => None,
    };
    text.put("{\"done\":{")?;
    put_answered(text, book.answered(), reply)?;
    put_bytes(text, "\"bytes\":\"", reply, "\"")?;
    text.put_count(",\"op\":", u64::from(op))?;
    put_module(text, ",\"refused_at\":", book, made_at)?;
    text.put(",\"says\":")?;
    put_reply(text, reply)?;
    text.put("}}")
}

// An object with one word.
fn put_named(text: &mut Draft, before: &str, word: &str) -> Result<(), NoMemory> {
    put_word(text, before, word)?;
    text.put("}")
}

fn put_expired(text: &mut Draft, triad: Triad) -> Result<(), NoMemory> {
    text.put("{\"expired\":")?;
    put_triad_json(text, triad)?;
    text.put("}")
}

// The ops that have not ended.
fn put_ops(text: &mut Draft, book: &Book<'_>) -> Result<(), NoMemory> {
    let mut is_first = true;
    for ((place, op), _) in book.ops() {
        if !is_first {
            text.put(",")?;
        }
        is_first = false;
        put_module(text, "{\"module\":", book, Some(ModuleId(*place)))?;
        text.put_count(",\"op\":", u64::from(*op))?;
        text.put("}")?;
    }
    Ok(())
}

// How the transcript ends.
fn put_end(text: &mut Draft, book: &Book<'_>, ending: Ending) -> Result<(), NoMemory> {
    if ending.is_cut {
        text.put("{\"end\":{\"cut\":true")?;
    } else {
        text.put("{\"end\":{\"cut\":false")?;
    }
    text.put_count(",\"lines\":", ending.lines as u64)?;
    text.put(",\"open\":[")?;
    put_ops(text, book)?;
    text.put_count("],\"waiting\":", book.waiting() as u64)?;
    text.put("}}")
}

// An object on a line of its own. Its memory is asked for at once, and that of the line's end
// after it: where this is refused, the object stands alone.
fn put_line(out: &mut String, object: &Draft, behind: &str) -> Result<(), NoMemory> {
    out.reserve(object.len().saturating_add(behind.len()))?;
    out.push_str(object.as_str())?;
    out.push_str(behind)?;
    out.push_str("\n")?;
    Ok(())
}

/// The entries as JSON.
pub struct JsonView<'a> {
    book: Book<'a>,
    past: Past<'a>,
    out: String,
    // the entry under way, without its end: nothing where none is
    entry: Draft,
    // whether it has an output
    has_output: bool,
    // what is put next, and goes behind the others when it is whole
    part: Draft,
}

// (A derive would be written, and proved, anew in each crate above.)
impl Drop for JsonView<'_> {
    fn drop(self) {
        let JsonView {
            book: _,
            past: _,
            out: _,
            entry: _,
            has_output: _,
            part: _,
        } = self;
    }
}

impl<'a> JsonView<'a> {
    /// A view of a run over this topology.
    pub fn new(alloc: Global, topology: &'a Topology) -> JsonView<'a>
        ensures { string_bytes result.out ≡ [] }
    {
        JsonView {
            book: Book::new(alloc, topology),
            past: Past::new(alloc, topology),
            out: String::new(alloc),
            entry: Draft::new(alloc),
            has_output: false,
            part: Draft::new(alloc),
        }
    }

    // The entry under way is whole. Where its memory is refused it is lost, and no other takes its
    // place.
    fn put_entry(&mut self) -> Result<(), NoMemory> {
        if self.entry.is_empty() {
            return Ok(());
        }
        let result = put_line(&mut self.out, &self.entry, "]}");
        self.entry.clear();
        self.has_output = false;
        result
    }

    fn take_step(&mut self, entry: usize, at: ModuleId, given: Given) -> Result<(), NoMemory> {
        self.put_entry()?;
        self.past.step(entry, at, given)?;
        self.book.begin(entry, at, given)?;
        self.part.clear();
        put_step(&mut self.part, &self.book, entry, at, given)?;
        self.entry.put(self.part.as_str())
    }

    fn take_lost(&mut self, entry: usize, frame: FrameName) -> Result<(), NoMemory> {
        self.put_entry()?;
        self.past.loss(entry)?;
        let sent = self.book.lose(frame);
        self.part.clear();
        put_lost(&mut self.part, &self.book, sent, entry, frame)?;
        self.entry.put(self.part.as_str())
    }

    // A frame that goes out.
    fn put_send(
        &mut self,
        index: usize,
        port: PortNumber,
        to: &Address,
        body: &Body,
    ) -> Result<(), NoMemory> {
        let sent = self.book.send(index, port, to, body)?;
        let (node, made_at, asked) = match sent {
            Some(sent) => (sent.to, sent.made_at, sent.asked),
            None => (None, None, None),
        };
        let (text, book) = (&mut self.part, &self.book);
        put_bytes(text, "{\"send\":{\"address\":\"", to.as_slice(), "\",")?;
        put_held_attributes(text, asked, body)?;
        put_body(text, book, node, body)?;
        text.put_count(",\"port\":", u64::from(port.get()))?;
        put_module(text, ",\"refused_at\":", book, made_at)?;
        put_module(text, ",\"to\":", book, node)?;
        text.put("}}")
    }

    // What an output says.
    fn put_output(&mut self, index: usize, output: &Output) -> Result<(), NoMemory> {
        match output {
            Output::Send { port, to, body } => self.put_send(index, *port, to, body),
            Output::Done { op, reply } => {
                self.book.done(*op);
                put_done(&mut self.part, &self.book, *op, reply.as_slice())
            }
            Output::Refused(fault) => {
                self.book.refused();
                put_named(&mut self.part, "{\"refused\":", refusal_word(*fault))
            }
            Output::Consumed {
                triad,
                instance,
                bytes,
            } => {
                put_consumed(
                    &mut self.part,
                    &mut self.book,
                    *triad,
                    *instance,
                    bytes.as_slice(),
                )
            }
            Output::Arrived { op, bytes } => {
                put_arrived_datum(&mut self.part, &self.book, *op, bytes.as_slice())
            }
            Output::Expired { triad } => put_expired(&mut self.part, *triad),
            Output::Ended { op } => {
                self.book.done(*op);
                self.part.put_count("{\"ended\":{\"op\":", u64::from(*op))?;
                self.part.put("}}")
            }
            Output::Dropped(reason) => {
                put_named(&mut self.part, "{\"dropped\":", drop_word(*reason))
            }
        }
    }

    // What stands before an output of the entry under way.
    fn front(&self) -> &'static str {
        if self.entry.is_empty() {
            return "{\"entry\":null,\"outputs\":[";
        }
        if self.has_output { "," } else { "" }
    }

    fn take_output(
        &mut self,
        alloc: Global,
        index: usize,
        output: &Output,
    ) -> Result<(), NoMemory> {
        self.past.output(alloc, output)?;
        self.part.clear();
        let front = self.front();
        self.part.put(front)?;
        self.put_output(index, output)?;
        self.entry.put(self.part.as_str())?;
        self.has_output = true;
        Ok(())
    }

    fn take_note(&mut self, alloc: Global, text: &[u8], note: Note) -> Result<(), NoMemory> {
        self.put_entry()?;
        self.part.clear();
        put_note(alloc, &mut self.part, &self.book, &self.past, text, note)?;
        put_line(&mut self.out, &self.part, "")
    }

    fn take_end(&mut self, ending: Ending) -> Result<(), NoMemory> {
        self.put_entry()?;
        self.part.clear();
        put_end(&mut self.part, &self.book, ending)?;
        put_line(&mut self.out, &self.part, "")
    }
}

impl View for JsonView<'_> {
    ghost gathered = { λ s. string_bytes s.out };

    fn line(&mut self, alloc: Global, text: &[u8], line: Line) -> Result<(), NoMemory> {
        match line {
            Line::Step { entry, at, given } => self.take_step(entry, at, given),
            Line::Lost { entry, frame } => self.take_lost(entry, frame),
            Line::Output { index, output } => self.take_output(alloc, index, &output),
            Line::Note(note) => self.take_note(alloc, text, note),
        }
    }

    fn end(&mut self, alloc: Global, _rest: &[u8], ending: Ending) -> Result<(), NoMemory> {
        let _ = alloc;
        self.take_end(ending)
    }

    fn written(&self) -> &[u8] {
        self.out.as_bytes()
    }

    fn clear(&mut self) {
        self.out.clear();
    }
}
