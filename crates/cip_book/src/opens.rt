//! The connections that ops of modules open, as far as the transcript tells: each from the request
//! that its op sends, until the op fails or the connection is gone where it began.
ghost use Rattle.std.specs.Prelude.{◌≡◌};
ghost use Rattle.cip_message.specs.ReplyAt.{reply_at};
ghost use Rattle.cip_book.specs.Opens.{is_success, only_op, is_by};

use cip_base::{Address, ModuleId, NoMemory, PortNumber, Triad};
use cip_chassis::Topology;
use cip_decode::{Meaning, decode_reply, decode_request};
use cip_event::{Body, Output};
use cip_read::{CommandWord, Given};
use cip_segment::{PathView, SegmentView, split_first};
use std::alloc::Global;
use std::collections::BTreeMap;

/// How many ops are told at most of a connection that may be of several.
pub const MAX_TOLD: usize = 8;

/// Where a connection begins and ends: the places of the modules, and the instances O→T and T→O.
#[derive(Clone, Copy, PartialEq, Eq, PartialOrd, Ord)]
struct Ends {
    first: usize,
    last: usize,
    ot_instance: u32,
    to_instance: u32,
}

/// A connection of an op: its triad, and where it begins and ends.
#[derive(Clone, Copy)]
struct Opened {
    triad: Triad,
    ends: Ends,
}

/// The way of a connection: the places of its modules, and the instances at its end.
#[derive(Drop)]
struct Way {
    modules: Vec<usize>,
    ot_instance: u32,
    to_instance: u32,
    /// Whether its op came to its end with success.
    is_open: bool,
}

/// The connections that are open or opening, over a topology.
#[derive(Drop)]
pub struct Opens<'a> {
    topology: &'a Topology,
    // the connection of an op, by the place of its module
    opened: BTreeMap<(usize, u32), Opened>,
    // the op of a connection, by the place of its module
    ops: BTreeMap<(usize, Triad), u32>,
    // the way of an op's connection, by where it begins and ends
    ways: BTreeMap<(Ends, u32), Way>,
    // the module that takes the step under way, and what it was given
    step: Option<(ModuleId, Given)>,
}

// Whether an op came to its end with success.
fn is_success(reply: &[u8]) -> bool
    ensures { result ≡ is_success (reply_at reply.now) }
{
    match decode_reply(reply) {
        Ok(reply) => reply.view.general == 0,
        Err(_) => false,
    }
}

/// The op, where there is one alone.
pub fn only_op(ops: &[u32]) -> Option<u32>
    ensures { result ≡ only_op ops.now }
{
    match ops {
        [op] => Some(*op),
        _ => None,
    }
}

// Where a connection by these modules begins and ends.
fn ends_of(modules: &[usize], ot_instance: u32, to_instance: u32) -> Ends {
    Ends {
        first: modules.first().copied().unwrap_or(0),
        last: modules.last().copied().unwrap_or(0),
        ot_instance,
        to_instance,
    }
}

impl Way {
    // A way that begins at a module.
    fn from(alloc: Global, at: ModuleId) -> Result<Way, NoMemory> {
        let mut modules = Vec::new(alloc);
        modules.push(at.0)?;
        Ok(Way {
            modules,
            ot_instance: 0,
            to_instance: 0,
            is_open: false,
        })
    }

    // It goes on by a port to an address.
    fn go_on(
        &mut self,
        topology: &Topology,
        port: PortNumber,
        to: &Address,
    ) -> Result<(), NoMemory> {
        if let Some(last) = self.modules.last() {
            if let Some(next) = topology.node_at(ModuleId(*last), port, to) {
                self.modules.push(next.0)?;
            }
        }
        Ok(())
    }

    // A point of the path: the last two of an application path are the instances O→T and T→O.
    fn point(&mut self, number: u32)
        ensures ot { self.new.ot_instance ≡ self.old.to_instance }
        ensures to { self.new.to_instance ≡ number }
    {
        self.ot_instance = self.to_instance;
        self.to_instance = number;
    }

    // It goes on by a port to an address, as a path spells it.
    fn go_to(
        &mut self,
        topology: &Topology,
        port: PortNumber,
        address: &[u8],
    ) -> Result<(), NoMemory> {
        match Address::read(address) {
            Ok(to) => self.go_on(topology, port, &to),
            Err(_) => Ok(()),
        }
    }

    // It goes along a path. (No other segment leads on or is a point where the open succeeds.)
    fn follow(&mut self, topology: &Topology, path: PathView<'_>) -> Result<(), NoMemory> {
        let mut left = path;
        while let Some((first, rest)) = split_first(left) {
            match first {
                SegmentView::Port(port, address) => self.go_to(topology, port, address)?,
                SegmentView::Instance(number) => self.point(number),
                SegmentView::Point(number) => self.point(number),
                _ => {}
            }
            left = rest;
        }
        Ok(())
    }

    // Whether the connection is open and goes by these modules.
    fn is_by(&self, modules: &[usize]) -> bool
        ensures { result ≡ is_by self.now modules.now }
    {
        self.is_open && self.modules.as_slice() == modules
    }
}

impl<'a> Opens<'a> {
    /// Nothing was opened yet in a run over this topology.
    pub fn new(alloc: Global, topology: &'a Topology) -> Opens<'a> {
        Opens {
            topology,
            opened: BTreeMap::new(alloc),
            ops: BTreeMap::new(alloc),
            ways: BTreeMap::new(alloc),
            step: None,
        }
    }

    /// A module takes a step.
    pub fn begin(&mut self, at: ModuleId, given: Given) {
        self.step = Some((at, given));
    }

    /// A frame is lost.
    pub fn lose(&mut self) {
        self.step = None;
    }

    // An op of a module has no connection, or no longer.
    fn forget(&mut self, at: ModuleId, op: u32) {
        if let Some(opened) = self.opened.remove(&(at.0, op)) {
            self.ops.remove(&(at.0, opened.triad));
            self.ways.remove(&(opened.ends, op));
        }
    }

    // A module has no connection of this triad any more.
    fn forget_triad(&mut self, at: ModuleId, triad: Triad) {
        if let Some(op) = self.ops.get(&(at.0, triad)).copied() {
            self.forget(at, op);
        }
    }

    // An op opens a connection by this way.
    fn keep(&mut self, at: ModuleId, op: u32, triad: Triad, way: Way) -> Result<(), NoMemory> {
        let ends = ends_of(way.modules.as_slice(), way.ot_instance, way.to_instance);
        self.opened.insert((at.0, op), Opened { triad, ends })?;
        self.ops.insert((at.0, triad), op)?;
        self.ways.insert((ends, op), way)?;
        Ok(())
    }

    // The request that an open sends.
    fn send_open(
        &mut self,
        alloc: Global,
        at: ModuleId,
        op: u32,
        port: PortNumber,
        to: &Address,
        bytes: &[u8],
    ) -> Result<(), NoMemory> {
        let Ok(request) = decode_request(bytes) else {
            return Ok(());
        };
        if let Meaning::Open(view) = request.meaning {
            let mut way = Way::from(alloc, at)?;
            way.go_on(self.topology, port, to)?;
            way.follow(self.topology, view.path)?;
            self.forget(at, op);
            self.keep(at, op, view.fields.triad, way)?;
        }
        Ok(())
    }

    // The request that a close sends: the connection is gone where it began.
    fn send_close(&mut self, at: ModuleId, bytes: &[u8]) {
        if let Ok(request) = decode_request(bytes) {
            if let Meaning::Close(view) = request.meaning {
                self.forget_triad(at, view.fields.triad);
            }
        }
    }

    // A frame goes out in a step.
    fn send(
        &mut self,
        alloc: Global,
        at: ModuleId,
        given: Given,
        port: PortNumber,
        to: &Address,
        body: &Body,
    ) -> Result<(), NoMemory> {
        let Body::Request { bytes, .. } = body else {
            return Ok(());
        };
        match given {
            Given::Command(CommandWord::Open | CommandWord::Large, op) => {
                self.send_open(alloc, at, op, port, to, bytes.as_slice())
            }
            Given::Command(CommandWord::Close, _) => {
                self.send_close(at, bytes.as_slice());
                Ok(())
            }
            _ => Ok(()),
        }
    }

    // The connection of an op is open.
    fn open(&mut self, opened: Opened, op: u32) {
        if let Some(way) = self.ways.get_mut(&(opened.ends, op)) {
            way.is_open = true;
        }
    }

    // An op came to its end with this reply.
    fn done(&mut self, at: ModuleId, op: u32, reply: &[u8]) {
        if let Some(opened) = self.opened.get(&(at.0, op)).copied() {
            if is_success(reply) {
                self.open(opened, op);
            } else {
                self.forget(at, op);
            }
        }
    }

    /// An output of the step under way. NoMemory where an allocation is refused.
    pub fn output(&mut self, alloc: Global, output: &Output) -> Result<(), NoMemory> {
        let Some((at, given)) = self.step else {
            return Ok(());
        };
        match output {
            Output::Send { port, to, body } => {
                return self.send(alloc, at, given, *port, to, body);
            }
            Output::Done { op, reply } => self.done(at, *op, reply.as_slice()),
            Output::Expired { triad } => self.forget_triad(at, *triad),
            Output::Ended { op } => self.forget(at, *op),
            _ => {}
        }
        Ok(())
    }

    /// The ops whose connection is open, goes by the modules at these places, and ends at these
    /// instances, in rising order: the first ones, one more at most than are told. NoMemory where
    /// an allocation is refused.
    pub fn by(
        &self,
        alloc: Global,
        modules: &[usize],
        ot_instance: u32,
        to_instance: u32,
    ) -> Result<Vec<u32>, NoMemory> {
        let ends = ends_of(modules, ot_instance, to_instance);
        let mut found = Vec::new(alloc);
        for ((place, op), way) in self.ways.range((ends, 0)..) {
            if *place != ends || MAX_TOLD < found.len() {
                break;
            }
            if way.is_by(modules) {
                found.push(*op)?;
            }
        }
        Ok(found)
    }
}
