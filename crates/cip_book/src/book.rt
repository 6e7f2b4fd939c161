//! What is known of a run while its transcript is read: the frames on their way, the connections
//! that were opened, and the ops that have not ended.
ghost use Rattle.std.specs.Prelude.{◌≡◌, Some, None, IfOk, option_map, unwrap_or, slice_get, codes};
ghost use Rattle.cip_book.specs.Books.{at_of, arrived_of, made_at, count_of, is_repeated, Knows};
ghost use Rattle.cip_book.specs.Books.{answered_under, answered, AsksBy};

use crate::label::{Kind, Label, label_of};
use cip_base::{Address, ModuleId, NoMemory, PortNumber, Triad};
use cip_chassis::Topology;
use cip_decode::{Answer, Attributes, Meaning, asked_attributes, decode_reply, decode_request};
use cip_event::Body;
use cip_read::{CommandWord, FrameName, Given};
use std::alloc::Global;
use std::collections::BTreeMap;

/// A frame on its way: who sent it, where it goes, what it holds in short, and of a failure the
/// module that made it.
#[derive(Clone, Copy)]
pub struct Sent {
    pub from: ModuleId,
    /// None where no module has the address.
    pub to: Option<ModuleId>,
    pub label: Label,
    /// Of a reply that tells of a failure, the module that made it, where that is known.
    pub made_at: Option<ModuleId>,
    /// The attributes that a request asks for, or that were asked for by the one which a reply
    /// answers, where that is known.
    pub asked: Option<Attributes>,
}

/// What is known of the datum of a connection.
#[derive(Clone, Copy)]
pub struct Known {
    pub triad: Option<Triad>,
    /// The transport class, bits 3 to 0 of the transport byte.
    pub class_: Option<u8>,
}

/// The step that is under way.
#[derive(Clone, Copy)]
struct Step {
    entry: usize,
    at: ModuleId,
    given: Given,
    arrived: Option<Sent>,
}

/// What is known of a run.
pub struct Book<'a> {
    topology: &'a Topology,
    frames: BTreeMap<FrameName, Sent>,
    // the transport class of each connection
    classes: BTreeMap<Triad, u8>,
    // the connection under an id, at the module that chose the id
    ids: BTreeMap<(usize, u32), Triad>,
    // the connection that an op of a module opened
    opened: BTreeMap<(usize, u32), Triad>,
    // the sequence count of the last datum of a connection that a module consumed
    counts: BTreeMap<(usize, Triad), u16>,
    // the ops that have not ended
    ops: BTreeMap<(usize, u32), CommandWord>,
    step: Option<Step>,
}

// (A derive would be written, and proved, anew in each crate above.)
impl Drop for Book<'_> {
    fn drop(self) {
        let Book {
            topology: _,
            frames: _,
            classes: _,
            ids: _,
            opened: _,
            counts: _,
            ops: _,
            step: _,
        } = self;
    }
}

// The sequence count of a datum, where its connection has the transport class 1.
fn count_of(class: Option<u8>, bytes: &[u8]) -> Option<u16>
    ensures { result ≡ count_of class bytes.now }
{
    match (class, bytes) {
        (Some(1), [low, high, ..]) => Some(u16::from_le_bytes([*low, *high])),
        _ => None,
    }
}

// Whether a datum's sequence count is that of the last one.
fn is_repeated(last: Option<u16>, count: Option<u16>) -> bool
    ensures { result ≡ is_repeated last count }
{
    match (last, count) {
        (Some(last), Some(count)) => last == count,
        _ => false,
    }
}

// Whether a command's number is an op of its own.
fn is_op(word: CommandWord) -> bool {
    match word {
        CommandWord::Send | CommandWord::Open | CommandWord::Large | CommandWord::Close => true,
        CommandWord::Enter | CommandWord::Set | CommandWord::Produce => false,
    }
}

impl<'a> Book<'a> {
    /// Nothing is known yet of a run over this topology.
    pub fn new(alloc: Global, topology: &'a Topology) -> Book<'a>
        ensures over { result.topology.now ≡ topology.now }
        ensures none { result.step ≡ None }
    {
        Book {
            topology,
            frames: BTreeMap::new(alloc),
            classes: BTreeMap::new(alloc),
            ids: BTreeMap::new(alloc),
            opened: BTreeMap::new(alloc),
            counts: BTreeMap::new(alloc),
            ops: BTreeMap::new(alloc),
            step: None,
        }
    }

    /// The name of a module.
    pub fn name(&self, id: ModuleId) -> &[u8]
        ensures { result.now ≡ unwrap_or
            (option_map (λ c. c.name) (slice_get self.now.topology.now.modules id.0)) (codes "?") }
    {
        match self.topology.name_of(id) {
            Some(name) => name,
            None => b"?",
        }
    }

    /// The module that takes the step under way.
    pub fn at(&self) -> Option<ModuleId>
        ensures { result ≡ at_of self.now.step }
    {
        match self.step {
            Some(step) => Some(step.at),
            None => None,
        }
    }

    /// The frame that the step under way was given, where it is known.
    pub fn arrived(&self) -> Option<Sent>
        ensures { result ≡ arrived_of self.now.step }
    {
        match self.step {
            Some(step) => step.arrived,
            None => None,
        }
    }

    /// The frames that are still on their way to a module.
    pub fn waiting(&self) -> usize {
        self.frames.len()
    }

    /// The ops that have not ended: the place of the module, the op, and its command.
    pub fn ops(&self) -> &BTreeMap<(usize, u32), CommandWord> {
        &self.ops
    }

    /// A module takes a step.
    pub fn begin(&mut self, entry: usize, at: ModuleId, given: Given) -> Result<(), NoMemory>
        ensures over { self.new.topology ≡ self.old.topology }
        ensures at { IfOk result (λ _. at_of self.new.step ≡ Some at) }
    {
        let arrived = match given {
            Given::Frame(name) => self.frames.remove(&name),
            _ => None,
        };
        self.step = Some(Step {
            entry,
            at,
            given,
            arrived,
        });
        if let Given::Command(word, op) = given {
            if is_op(word) && !self.ops.contains_key(&(at.0, op)) {
                self.ops.insert((at.0, op), word)?;
            }
        }
        Ok(())
    }

    /// A frame is lost: what is known of it.
    pub fn lose(&mut self, frame: FrameName) -> Option<Sent>
        ensures over { self.new.topology ≡ self.old.topology }
        ensures none { self.new.step ≡ None }
    {
        self.step = None;
        self.frames.remove(&frame)
    }

    // The connection that a request opens.
    fn open(&mut self, at: ModuleId, triad: Triad, to_id: u32, class: u8) -> Result<(), NoMemory>
        ensures over { self.new.topology ≡ self.old.topology }
        ensures step { self.new.step ≡ self.old.step }
    {
        self.classes.insert(triad, class)?;
        self.ids.insert((at.0, to_id), triad)?;
        if let Some(step) = self.step {
            if let Given::Command(_, op) = step.given {
                self.opened.insert((at.0, op), triad)?;
            }
        }
        Ok(())
    }

    // What a request that goes out tells of connections, and which attributes it asks for.
    fn learn_request(&mut self, at: ModuleId, bytes: &[u8]) -> Result<Option<Attributes>, NoMemory>
        ensures over { self.new.topology ≡ self.old.topology }
        ensures step { self.new.step ≡ self.old.step }
    {
        match decode_request(bytes) {
            Ok(request) => {
                if let Meaning::Open(view) = request.meaning {
                    let fields = view.fields;
                    self.open(at, fields.triad, fields.to_id, fields.transport % 16)?;
                }
                Ok(asked_attributes(&request))
            }
            Err(_) => Ok(None),
        }
    }

    // What a reply that goes out tells of connections.
    fn learn_reply(&mut self, at: ModuleId, bytes: &[u8]) -> Result<(), NoMemory>
        ensures over { self.new.topology ≡ self.old.topology }
        ensures step { self.new.step ≡ self.old.step }
    {
        if let Ok(reply) = decode_reply(bytes) {
            if let Answer::Opened(opened) = reply.answer {
                self.ids.insert((at.0, opened.ot_id), opened.triad)?;
                self.counts.remove(&(at.0, opened.triad));
            }
        }
        Ok(())
    }

    // The attributes that were asked for by the request which a reply under this number answers:
    // the request that the step under way was given under it, or that of the reply it was given.
    fn answered_under(&self, number: u32) -> Option<Attributes>
        ensures { result ≡ answered_under number (arrived_of self.now.step) }
    {
        let sent = self.arrived()?;
        match sent.label.kind {
            Kind::Reply => sent.asked,
            Kind::Request if sent.label.number == number => sent.asked,
            _ => None,
        }
    }

    /// The attributes that were asked for by the request which the reply answers that the step
    /// under way was given, where that is known.
    pub fn answered(&self) -> Option<Attributes>
        ensures { result ≡ answered (arrived_of self.now.step) }
    {
        match self.arrived() {
            Some(sent) if sent.label.kind == Kind::Reply => sent.asked,
            _ => None,
        }
    }

    // What a frame that goes out tells of connections, and which attributes it asks for or has.
    fn learn(&mut self, at: ModuleId, body: &Body) -> Result<Option<Attributes>, NoMemory>
        ensures over { self.new.topology ≡ self.old.topology }
        ensures step { self.new.step ≡ self.old.step }
        ensures asked { IfOk result (AsksBy (arrived_of self.old.step) body.now) }
    {
        match body {
            Body::Request { bytes, .. } => self.learn_request(at, bytes.as_slice()),
            Body::Reply { number, bytes } => {
                self.learn_reply(at, bytes.as_slice())?;
                Ok(self.answered_under(*number))
            }
            Body::Data { .. } => Ok(None),
        }
    }

    /// The module that made a failure which the step under way passes on or makes: that of the
    /// reply which it was given, or else its own.
    pub fn made_at(&self) -> Option<ModuleId>
        ensures { result ≡ made_at self.now.step }
    {
        let step = self.step?;
        match step.arrived {
            Some(sent) if sent.label.kind == Kind::Reply => sent.made_at,
            Some(_) => Some(step.at),
            None => match step.given {
                Given::Frame(_) => None,
                _ => Some(step.at),
            },
        }
    }

    /// A frame goes out of the module of the step under way: what is known of it. None where the
    /// step is not known.
    pub fn send(
        &mut self,
        index: usize,
        port: PortNumber,
        to: &Address,
        body: &Body,
    ) -> Result<Option<Sent>, NoMemory>
        ensures knows { IfOk result
            (Knows self.old.topology.now self.old.step port to.now body.now) }
        ensures over { self.new.topology ≡ self.old.topology }
        ensures step { self.new.step ≡ self.old.step }
    {
        let Some(step) = self.step else {
            return Ok(None);
        };
        let asked = self.learn(step.at, body)?;
        let label = label_of(body);
        let made_at = if label.is_failure() {
            self.made_at()
        } else {
            None
        };
        let sent = Sent {
            from: step.at,
            to: self.topology.node_at(step.at, port, to),
            label,
            made_at,
            asked,
        };
        if sent.to.is_some() {
            let name = FrameName {
                entry: step.entry,
                output: index,
            };
            self.frames.insert(name, sent)?;
        }
        Ok(Some(sent))
    }

    /// An op of the module of the step under way came to its end.
    pub fn done(&mut self, op: u32)
        ensures over { self.new.topology ≡ self.old.topology }
        ensures step { self.new.step ≡ self.old.step }
    {
        if let Some(step) = self.step {
            self.ops.remove(&(step.at.0, op));
        }
    }

    // The count of the last datum of a connection that this module consumed, and from now on this.
    fn note_count(
        &mut self,
        at: ModuleId,
        triad: Triad,
        count: u16,
    ) -> Result<Option<u16>, NoMemory>
        ensures over { self.new.topology ≡ self.old.topology }
        ensures step { self.new.step ≡ self.old.step }
    {
        let last = self.counts.get(&(at.0, triad)).copied();
        self.counts.insert((at.0, triad), count)?;
        Ok(last)
    }

    /// The module of the step under way consumed a datum: whether its sequence count repeats that
    /// of the last one, so that it is not written (Volume 1, chapter 3, transport class 1).
    pub fn consume(&mut self, triad: Triad, bytes: &[u8]) -> Result<bool, NoMemory>
        ensures over { self.new.topology ≡ self.old.topology }
        ensures step { self.new.step ≡ self.old.step }
    {
        let class = self.classes.get(&triad).copied();
        match (self.step, count_of(class, bytes)) {
            (Some(step), Some(count)) => {
                let last = self.note_count(step.at, triad, count)?;
                Ok(is_repeated(last, Some(count)))
            }
            _ => Ok(false),
        }
    }

    /// The command of the step under way was refused.
    pub fn refused(&mut self)
        ensures over { self.new.topology ≡ self.old.topology }
        ensures step { self.new.step ≡ self.old.step }
    {
        if let Some(step) = self.step {
            if let Given::Command(word, op) = step.given {
                if is_op(word) {
                    self.ops.remove(&(step.at.0, op));
                }
            }
        }
    }

    /// What is known of a connection.
    pub fn of_triad(&self, triad: Triad) -> Known
        ensures { result.triad ≡ Some triad }
    {
        Known {
            triad: Some(triad),
            class_: self.classes.get(&triad).copied(),
        }
    }

    fn of_found(&self, found: Option<Triad>) -> Known
        ensures { result.triad ≡ found }
    {
        match found {
            Some(triad) => self.of_triad(triad),
            None => Known {
                triad: None,
                class_: None,
            },
        }
    }

    /// What is known of the connection under an id at the module that a frame goes to.
    pub fn of_id(&self, to: Option<ModuleId>, id: u32) -> Known {
        let found = match to {
            Some(to) => self.ids.get(&(to.0, id)).copied(),
            None => None,
        };
        self.of_found(found)
    }

    /// What is known of the connection that an op of the module of the step under way opened.
    pub fn of_op(&self, op: u32) -> Known {
        let found = match self.step {
            Some(step) => self.opened.get(&(step.at.0, op)).copied(),
            None => None,
        };
        self.of_found(found)
    }

    /// What is known of the connection of what a frame holds that goes to a module.
    pub fn of_body(&self, to: Option<ModuleId>, body: &Body) -> Known {
        match body {
            Body::Data { id, .. } => self.of_id(to, *id),
            _ => self.of_found(None),
        }
    }
}
