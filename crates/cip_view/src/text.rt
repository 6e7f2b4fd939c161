//! A transcript with what each message says on a line of its own below the entry.
ghost use Rattle.std.specs.Prelude.{◌≡◌, [], string_bytes};

use crate::note_text::put_meaning;
use cip_base::{Address, ModuleId, NoMemory, PortNumber, Triad};
use cip_book::{
    BodyText, Book, DatumText, Ending, Known, NameText, OfText, Past, ReplyText, Sent, View,
    command_word, drop_reason, refusal_reason,
};
use cip_chassis::Topology;
use cip_decode::{
    Attributes, AttributesView, Pairs, Reply, answered_attributes, decode_reply, decode_request,
    set_instance,
};
use cip_event::{Body, Output};
use cip_read::{FrameName, Given, Line};
use std::alloc::Global;

/// The transcript as it is, and below each line of an output what its message says.
pub struct TextView<'a> {
    book: Book<'a>,
    past: Past<'a>,
    out: String,
}

// (A derive would be written, and proved, anew in each crate above.)
impl Drop for TextView<'_> {
    fn drop(self) {
        let TextView {
            book: _,
            past: _,
            out: _,
        } = self;
    }
}

impl<'a> TextView<'a> {
    /// A view of a run over this topology.
    pub fn new(alloc: Global, topology: &'a Topology) -> TextView<'a>
        ensures { string_bytes result.out ≡ [] }
    {
        TextView {
            book: Book::new(alloc, topology),
            past: Past::new(alloc, topology),
            out: String::new(alloc),
        }
    }

    // The line as it is.
    fn copy(&mut self, text: &[u8]) -> Result<(), NoMemory> {
        match std::str::from_utf8(text) {
            Ok(text) => self.out.push_str(text)?,
            Err(_) => write!(self.out, "{}", Pairs(text))?,
        }
        self.out.push_str("\n")?;
        Ok(())
    }

    // Where a failure was made.
    fn put_maker(&mut self, made_at: Option<ModuleId>) -> Result<(), NoMemory> {
        if let Some(id) = made_at {
            let name = NameText(self.book.name(id));
            write!(self.out, "; refused at {name}")?;
        }
        Ok(())
    }

    // That no module has the address.
    fn put_nobody(&mut self, port: PortNumber, to: &Address) -> Result<(), NoMemory> {
        let number = port.get();
        let address = Pairs(to.as_slice());
        write!(self.out, "; to port {number} address {address}: no module")?;
        Ok(())
    }

    fn put_body(&mut self, body: &Body, to: Option<ModuleId>) -> Result<(), NoMemory> {
        let known = self.book.of_body(to, body);
        write!(self.out, "{}", BodyText { body, known })?;
        Ok(())
    }

    // What a reply says of the attributes that were asked for, on a line of its own.
    fn put_attributes(
        &mut self,
        asked: Option<Attributes>,
        reply: &Reply<'_>,
    ) -> Result<(), NoMemory> {
        if let Some(asked) = asked {
            if let Some(view) = answered_attributes(asked, reply) {
                writeln!(self.out, "    {view}")?;
            }
        }
        Ok(())
    }

    // The data that a request sets an assembly to likewise.
    fn put_set(&mut self, bytes: &[u8]) -> Result<(), NoMemory> {
        if let Ok(request) = decode_request(bytes) {
            if let Some(instance) = set_instance(&request) {
                let view = AttributesView::Assembly(instance, request.view.data_);
                writeln!(self.out, "    {view}")?;
            }
        }
        Ok(())
    }

    // The attributes that what a frame holds has.
    fn put_held_attributes(
        &mut self,
        asked: Option<Attributes>,
        body: &Body,
    ) -> Result<(), NoMemory> {
        match body {
            Body::Request { bytes, .. } => self.put_set(bytes.as_slice()),
            Body::Reply { bytes, .. } => match decode_reply(bytes.as_slice()) {
                Ok(reply) => self.put_attributes(asked, &reply),
                Err(_) => Ok(()),
            },
            Body::Data { .. } => Ok(()),
        }
    }

    // What a frame holds that goes out.
    fn put_send(
        &mut self,
        index: usize,
        port: PortNumber,
        to: &Address,
        body: &Body,
    ) -> Result<(), NoMemory> {
        let sent = self.book.send(index, port, to, body)?;
        self.out.push_str("    ")?;
        match sent {
            Some(sent) => {
                self.put_body(body, sent.to)?;
                self.put_maker(sent.made_at)?;
                if sent.to.is_none() {
                    self.put_nobody(port, to)?;
                }
            }
            None => self.put_body(body, None)?,
        }
        self.out.push_str("\n")?;
        let asked = match sent {
            Some(sent) => sent.asked,
            None => None,
        };
        self.put_held_attributes(asked, body)
    }

    // The reply with which an op came to its end.
    fn put_done(&mut self, op: u32, reply: &[u8]) -> Result<(), NoMemory> {
        self.book.done(op);
        write!(self.out, "    {}", ReplyText(reply))?;
        match decode_reply(reply) {
            Ok(reply) => {
                if reply.view.general != 0 {
                    let made_at = self.book.made_at();
                    self.put_maker(made_at)?;
                }
                self.out.push_str("\n")?;
                let asked = self.book.answered();
                self.put_attributes(asked, &reply)
            }
            Err(_) => {
                self.out.push_str("\n")?;
                Ok(())
            }
        }
    }

    fn put_datum(&mut self, known: Known, bytes: &[u8], behind: &str) -> Result<(), NoMemory> {
        let datum = DatumText { known, bytes };
        writeln!(self.out, "    datum{}: {datum}{behind}", OfText(known))?;
        Ok(())
    }

    // A datum came to its target.
    fn put_consumed(&mut self, triad: Triad, bytes: &[u8]) -> Result<(), NoMemory> {
        let is_repeated = self.book.consume(triad, bytes)?;
        let known = self.book.of_triad(triad);
        let behind = if is_repeated {
            "; repeated: not written"
        } else {
            ""
        };
        self.put_datum(known, bytes, behind)
    }

    // What an output says.
    fn put_output(&mut self, index: usize, output: &Output) -> Result<(), NoMemory> {
        match output {
            Output::Send { port, to, body } => self.put_send(index, *port, to, body),
            Output::Done { op, reply } => self.put_done(*op, reply.as_slice()),
            Output::Refused(fault) => {
                self.book.refused();
                writeln!(self.out, "    {}", refusal_reason(*fault))?;
                Ok(())
            }
            Output::Consumed { triad, bytes, .. } => { self.put_consumed(*triad, bytes.as_slice()) }
            Output::Arrived { op, bytes } => {
                let known = self.book.of_op(*op);
                self.put_datum(known, bytes.as_slice(), "")
            }
            Output::Expired { .. } => {
                self.out.push_str("    the connection was silent for too long, and is gone\n")?;
                Ok(())
            }
            Output::Ended { op } => {
                self.book.done(*op);
                self.out.push_str("    the module was reset: the op and all it opened are gone\n")?;
                Ok(())
            }
            Output::Dropped(reason) => {
                writeln!(self.out, "    {}", drop_reason(*reason))?;
                Ok(())
            }
        }
    }

    fn take_output(
        &mut self,
        alloc: Global,
        index: usize,
        output: &Output,
    ) -> Result<(), NoMemory> {
        self.past.output(alloc, output)?;
        self.put_output(index, output)
    }

    // Which frame arrives or is lost.
    fn put_sent(&mut self, sent: Option<Sent>) -> Result<(), NoMemory> {
        if let Some(sent) = sent {
            let from = NameText(self.book.name(sent.from));
            writeln!(self.out, "    {} from {from}", sent.label)?;
        }
        Ok(())
    }

    fn put_step(&mut self, entry: usize, at: ModuleId, given: Given) -> Result<(), NoMemory> {
        self.past.step(entry, at, given)?;
        self.book.begin(entry, at, given)?;
        let arrived = self.book.arrived();
        self.put_sent(arrived)
    }

    fn put_lost(&mut self, entry: usize, frame: FrameName) -> Result<(), NoMemory> {
        self.past.loss(entry)?;
        let sent = self.book.lose(frame);
        self.put_sent(sent)
    }

    // The ops that have not ended.
    fn put_ops(&mut self) -> Result<(), NoMemory> {
        for ((place, op), word) in self.book.ops() {
            let name = NameText(self.book.name(ModuleId(*place)));
            let word = command_word(*word);
            writeln!(self.out, "# still open at the end: {name} {word} {op}")?;
        }
        Ok(())
    }
}

impl View for TextView<'_> {
    ghost gathered = { λ s. string_bytes s.out };

    fn line(&mut self, alloc: Global, text: &[u8], line: Line) -> Result<(), NoMemory> {
        self.copy(text)?;
        match line {
            Line::Step { entry, at, given } => self.put_step(entry, at, given),
            Line::Lost { entry, frame } => self.put_lost(entry, frame),
            Line::Output { index, output } => self.take_output(alloc, index, &output),
            Line::Note(note) => {
                put_meaning(alloc, &mut self.out, &self.book, &self.past, text, note)
            }
        }
    }

    fn end(&mut self, _alloc: Global, rest: &[u8], ending: Ending) -> Result<(), NoMemory> {
        if ending.is_cut {
            self.copy(rest)?;
            let line = ending.lines.saturating_add(1);
            writeln!(self.out, "# the transcript is cut within line {line}")?;
        }
        self.put_ops()?;
        let waiting = self.book.waiting();
        if waiting > 0 {
            writeln!(
                self.out,
                "# frames that have not arrived at the end: {waiting}"
            )?;
        }
        Ok(())
    }

    fn written(&self) -> &[u8] {
        self.out.as_bytes()
    }

    fn clear(&mut self) {
        self.out.clear();
    }
}
