//! The capture of a transcript, packet by packet.
ghost use Rattle.std.specs.Prelude.{◌≡◌, [], IfOk};

use crate::addresses::Hosts;
use crate::blocks::{put_interface, put_names, put_packet, put_remark, put_section};
use crate::packets::{CLIENT, MOST, SERVER, Segment, Way, datum, message, tcp_packet, udp_packet};
use cip_base::{ModuleId, NoMemory, Triad};
use cip_book::{Book, Ending, Kind, Sent, View};
use cip_chassis::Topology;
use cip_event::{Body, Output};
use cip_read::{FrameName, Given, Line};
use std::alloc::Global;
use std::collections::BTreeMap;

/// How many bytes each side of a conversation has sent.
#[derive(Clone, Copy)]
struct Flow {
    asked: u32,
    answered: u32,
}

/// The packets of a run.
pub struct CaptureView<'a> {
    book: Book<'a>,
    hosts: Hosts,
    out: Vec<u8>,
    // the number of the entry under way, and its line
    entry: usize,
    head: Vec<u8>,
    // the time in microseconds, and that of each module that ticked
    now: u64,
    times: BTreeMap<usize, u64>,
    // of an asker and the one that it asks
    flows: BTreeMap<(usize, usize), Flow>,
    // how many data a module sent under an id
    counts: BTreeMap<(usize, u32), u32>,
    // how many packets were put, and those of the frames on their way
    packets: u64,
    waiting: BTreeMap<FrameName, u64>,
    // the packet of the frame that the step under way was given
    given: Option<u64>,
}

// (A derive would be written, and proved, anew in each crate above.)
impl Drop for CaptureView<'_> {
    fn drop(self) {
        let CaptureView {
            book: _,
            hosts: _,
            out: _,
            entry: _,
            head: _,
            now: _,
            times: _,
            flows: _,
            counts: _,
            packets: _,
            waiting: _,
            given: _,
        } = self;
    }
}

// The front of bytes, as many as a packet carries.
fn front(bytes: &[u8]) -> &[u8] {
    if bytes.len() <= MOST {
        return bytes;
    }
    let (front, _) = bytes.split_at(MOST);
    front
}

// The session of an asker and the one that it asks.
fn session_of(asker: usize, asked: usize) -> u32 {
    let [high, low] = [(asker % 256) as u8, (asked % 256) as u8];
    u32::from(high) * 256 + u32::from(low) + 1
}

// The place of a module; the address that no module has is behind all.
fn place_of(id: Option<ModuleId>) -> usize {
    match id {
        Some(id) => id.0,
        None => usize::MAX,
    }
}

impl<'a> CaptureView<'a> {
    /// The capture of a run over this topology; NoMemory where an allocation is refused.
    pub fn new(alloc: Global, topology: &'a Topology) -> Result<CaptureView<'a>, NoMemory>
        ensures { IfOk result
            (λ made. (made.now ≡ 0) × (made.head.items ≡ []) × (made.packets ≡ 0)) }
    {
        let mut out = Vec::new(alloc);
        put_section(alloc, &mut out)?;
        put_interface(alloc, &mut out)?;
        let hosts = Hosts::new(alloc, topology)?;
        put_names(alloc, topology, &hosts, &mut out)?;
        Ok(CaptureView {
            book: Book::new(alloc, topology),
            hosts,
            out,
            entry: 0,
            head: Vec::new(alloc),
            now: 0,
            times: BTreeMap::new(alloc),
            flows: BTreeMap::new(alloc),
            counts: BTreeMap::new(alloc),
            packets: 0,
            waiting: BTreeMap::new(alloc),
            given: None,
        })
    }

    // The line of the entry that begins, a microsecond behind the one before.
    fn begin(&mut self, entry: usize, text: &[u8]) -> Result<(), NoMemory> {
        self.entry = entry;
        self.head.clear();
        self.head.extend_from_slice(text)?;
        self.now = self.now.saturating_add(1);
        Ok(())
    }

    // The time is at least that of each module.
    fn tick(&mut self, at: ModuleId, ms: u16) -> Result<(), NoMemory> {
        let before = self.times.get(&at.0).copied().unwrap_or(0);
        let time = before.saturating_add(u64::from(ms) * 1000);
        self.times.insert(at.0, time)?;
        self.now = self.now.max(time);
        Ok(())
    }

    fn take_step(&mut self, entry: usize, at: ModuleId, given: Given) -> Result<(), NoMemory> {
        self.given = None;
        match given {
            Given::Tick(ms) => self.tick(at, ms)?,
            Given::Frame(name) => self.given = self.waiting.remove(&name),
            Given::Command(..) => {}
        }
        self.book.begin(entry, at, given)
    }

    // What became of a packet, behind its number, and the line that tells of it.
    fn remark(
        &mut self,
        alloc: Global,
        packet: u64,
        what: &str,
        line: &[u8],
    ) -> Result<(), NoMemory> {
        let front = format!(in alloc; "packet {packet} {what}")?;
        let mut comment = Vec::from_slice(alloc, front.as_bytes())?;
        comment.push(b'\n')?;
        comment.extend_from_slice(line)?;
        put_remark(alloc, &mut self.out, self.now, comment.as_slice())
    }

    // A frame is lost whose packet stands before.
    fn take_lost(&mut self, alloc: Global, frame: FrameName, line: &[u8]) -> Result<(), NoMemory> {
        self.given = None;
        let _ = self.book.lose(frame);
        match self.waiting.remove(&frame) {
            Some(packet) => self.remark(alloc, packet, "is lost", line),
            None => Ok(()),
        }
    }

    // A datum came to its end, in a packet that stands before.
    fn take_consumed(
        &mut self,
        alloc: Global,
        triad: Triad,
        bytes: &[u8],
        line: &[u8],
    ) -> Result<(), NoMemory> {
        let is_repeated = self.book.consume(triad, bytes)?;
        match self.given {
            Some(packet) if is_repeated => {
                self.remark(
                    alloc,
                    packet,
                    "repeats its sequence count: not written",
                    line,
                )
            }
            _ => Ok(()),
        }
    }

    // The packet of a frame, with the lines of its entry and its own as comment.
    fn put(&mut self, alloc: Global, packet: &[u8], text: &[u8]) -> Result<(), NoMemory> {
        let count = self.head.len().saturating_add(text.len());
        let mut comment = Vec::with_capacity(alloc, count.saturating_add(1))?;
        comment.extend_from_slice(self.head.as_slice())?;
        comment.push(b'\n')?;
        comment.extend_from_slice(text)?;
        put_packet(alloc, &mut self.out, self.now, packet, comment.as_slice())?;
        self.packets = self.packets.saturating_add(1);
        Ok(())
    }

    // The segment of a message of so many bytes, which moves its conversation on.
    fn segment(&mut self, sent: &Sent, count: u32) -> Result<(u32, Segment), NoMemory> {
        let is_request = sent.label.kind == Kind::Request;
        let (asker, asked) = if is_request {
            (sent.from.0, place_of(sent.to))
        } else {
            (place_of(sent.to), sent.from.0)
        };
        let flow = match self.flows.get(&(asker, asked)) {
            Some(flow) => *flow,
            None => Flow {
                asked: 1,
                answered: 1,
            },
        };
        let mut next = flow;
        let segment = if is_request {
            next.asked = flow.asked.wrapping_add(count);
            Segment {
                source: CLIENT,
                destination: SERVER,
                sequence: flow.asked,
                acknowledged: flow.answered,
            }
        } else {
            next.answered = flow.answered.wrapping_add(count);
            Segment {
                source: SERVER,
                destination: CLIENT,
                sequence: flow.answered,
                acknowledged: flow.asked,
            }
        };
        self.flows.insert((asker, asked), next)?;
        let session = session_of(asker, asked);
        Ok((session, segment))
    }

    fn put_message(
        &mut self,
        alloc: Global,
        sent: &Sent,
        bytes: &[u8],
        text: &[u8],
    ) -> Result<(), NoMemory> {
        let bytes = front(bytes);
        let count = u32::try_from(bytes.len()).unwrap_or(0).saturating_add(40);
        let (session, segment) = self.segment(sent, count)?;
        let payload = message(alloc, session, sent.label.number, bytes)?;
        let way = Way {
            from: self.hosts.of(Some(sent.from)),
            to: self.hosts.of(sent.to),
        };
        let packet = tcp_packet(alloc, way, segment, payload.as_slice())?;
        self.put(alloc, packet.as_slice(), text)
    }

    fn put_datum(
        &mut self,
        alloc: Global,
        sent: &Sent,
        bytes: &[u8],
        text: &[u8],
    ) -> Result<(), NoMemory> {
        let id = sent.label.number;
        let before = self.counts.get(&(sent.from.0, id)).copied().unwrap_or(0);
        let count = before.wrapping_add(1);
        self.counts.insert((sent.from.0, id), count)?;
        let payload = datum(alloc, id, count, front(bytes))?;
        let way = Way {
            from: self.hosts.of(Some(sent.from)),
            to: self.hosts.of(sent.to),
        };
        let packet = udp_packet(alloc, way, payload.as_slice())?;
        self.put(alloc, packet.as_slice(), text)
    }

    // The packet of a frame that goes out, which stands last, is on its way.
    fn keep(&mut self, index: usize, sent: &Sent) -> Result<(), NoMemory> {
        if sent.to.is_some() {
            let name = FrameName {
                entry: self.entry,
                output: index,
            };
            self.waiting.insert(name, self.packets)?;
        }
        Ok(())
    }

    fn take_send(
        &mut self,
        alloc: Global,
        sent: &Sent,
        body: &Body,
        text: &[u8],
    ) -> Result<(), NoMemory> {
        match body {
            Body::Request { bytes, .. } => self.put_message(alloc, sent, bytes.as_slice(), text),
            Body::Reply { bytes, .. } => self.put_message(alloc, sent, bytes.as_slice(), text),
            Body::Data { bytes, .. } => self.put_datum(alloc, sent, bytes.as_slice(), text),
        }
    }

    fn take_output(
        &mut self,
        alloc: Global,
        index: usize,
        output: &Output,
        text: &[u8],
    ) -> Result<(), NoMemory> {
        match output {
            Output::Send { port, to, body } => {
                match self.book.send(index, *port, to, body)? {
                    Some(sent) => {
                        self.take_send(alloc, &sent, body, text)?;
                        self.keep(index, &sent)
                    }
                    None => Ok(()),
                }
            }
            Output::Consumed { triad, bytes, .. } => {
                self.take_consumed(alloc, *triad, bytes.as_slice(), text)
            }
            _ => Ok(()),
        }
    }
}

impl View for CaptureView<'_> {
    ghost gathered = { λ s. s.out.items };

    fn line(&mut self, alloc: Global, text: &[u8], line: Line) -> Result<(), NoMemory> {
        match line {
            Line::Step { entry, at, given } => {
                self.begin(entry, text)?;
                self.take_step(entry, at, given)
            }
            Line::Lost { entry, frame } => {
                self.begin(entry, text)?;
                self.take_lost(alloc, frame, text)
            }
            Line::Output { index, output } => self.take_output(alloc, index, &output, text),
            Line::Note(_) => Ok(()),
        }
    }

    fn end(&mut self, _alloc: Global, _rest: &[u8], _ending: Ending) -> Result<(), NoMemory> {
        Ok(())
    }

    fn written(&self) -> &[u8] {
        self.out.as_slice()
    }

    fn clear(&mut self) {
        self.out.clear();
    }
}
