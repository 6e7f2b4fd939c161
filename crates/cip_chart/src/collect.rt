//! The chart of a transcript, gathered line by line.
ghost use Rattle.std.specs.Prelude.{◌≡◌, [], IfOk, string_bytes};

use crate::cut::Cut;
use crate::fold::fold;
use crate::marks::mark_of;
use crate::resets::{ends_in_reset, is_reset};
use crate::ticks::{Round, Together, join};
use cip_base::{ModuleId, NoMemory};
use cip_book::{BodyText, Book, Ending, Kind, Sent, View};
use cip_chassis::Topology;
use cip_drawing::{Arrow, Cause, Chart, Fate, Look, Mark, Row, put_page, put_svg};
use cip_event::{Body, Output};
use cip_read::{CommandWord, FrameName, Given, Line};
use cip_text::Draft;
use std::alloc::Global;
use std::collections::BTreeMap;

/// The chart of a run, or of a part of it.
pub struct ChartView<'a> {
    chart: Chart<'a>,
    book: Book<'a>,
    cut: Cut,
    is_page: bool,
    // the arrows of the frames that are on their way
    flying: BTreeMap<FrameName, usize>,
    // the time of each module that ticked, in milliseconds
    times: BTreeMap<usize, u64>,
    // the ticks of all modules that are under way, and the rows of those that came
    round: Round,
    together: Vec<Together>,
    // the entry under way, and its row where it is shown
    entry: usize,
    row: Option<usize>,
    // what a message says, before it is copied
    room: Draft,
    out: String,
}

// (A derive would be written, and proved, anew in each crate above.)
impl Drop for ChartView<'_> {
    fn drop(self) {
        let ChartView {
            chart: _,
            book: _,
            cut: _,
            is_page: _,
            flying: _,
            times: _,
            round: _,
            together: _,
            entry: _,
            row: _,
            room: _,
            out: _,
        } = self;
    }
}

impl<'a> ChartView<'a> {
    /// The chart of a part of a run over this topology, as SVG or as a page.
    pub fn new(
        alloc: Global,
        topology: &'a Topology,
        cut: Cut,
        is_page: bool,
    ) -> Result<ChartView<'a>, NoMemory>
        ensures { IfOk result (λ made. string_bytes made.out ≡ []) }
    {
        let columns = cut.columns(alloc, topology.configs().len())?;
        Ok(ChartView {
            chart: Chart::new(alloc, topology, columns),
            book: Book::new(alloc, topology),
            cut,
            is_page,
            flying: BTreeMap::new(alloc),
            times: BTreeMap::new(alloc),
            round: Round::none(),
            together: Vec::new(alloc),
            entry: 0,
            row: None,
            room: Draft::new(alloc),
            out: String::new(alloc),
        })
    }

    // A row more.
    fn put_row(&mut self, row: Row) -> Result<usize, NoMemory> {
        let place = self.chart.rows.len();
        self.chart.rows.push(row)?;
        self.row = Some(place);
        Ok(place)
    }

    // The time of a module after a tick.
    fn tick(&mut self, at: ModuleId, by: u64) -> Result<u64, NoMemory> {
        let before = self.times.get(&at.0).copied().unwrap_or(0);
        let now = before.saturating_add(by);
        self.times.insert(at.0, now)?;
        Ok(now)
    }

    // The ticks of all modules go on with this step, begin anew or end with it.
    fn join_tick(&mut self, at: ModuleId, given: Given) -> Result<(), NoMemory> {
        self.round = match given {
            Given::Tick(ms) => self.round.ticked(at.0, ms, self.row.is_some()),
            _ => Round::none(),
        };
        let Round { modules, rows, .. } = self.round;
        if modules == self.chart.topology.configs().len() && 2 <= rows {
            self.together.push(Together {
                first: self.chart.rows.len().saturating_sub(rows),
                count: rows,
            })?;
        }
        Ok(())
    }

    // How the row of an entry looks that may move data, or of a tick.
    fn look_of(&self, entry: usize, column: usize, given: Given) -> Option<Look> {
        let (cause, number) = match given {
            Given::Command(CommandWord::Enter | CommandWord::Produce, number) => {
                (Cause::Command, u64::from(number))
            }
            Given::Frame(name) => match self.book.arrived() {
                Some(sent) if sent.label.kind == Kind::Data => {
                    (Cause::Frame, entry.saturating_sub(name.entry) as u64)
                }
                _ => return None,
            },
            Given::Tick(ms) => (Cause::Tick, u64::from(ms)),
            _ => return None,
        };
        Some(Look {
            column,
            cause,
            number,
            id: 0,
            outputs: 0,
        })
    }

    // The frame arrives that the entry under way was given.
    fn land(&mut self, name: FrameName, row: Option<usize>) -> Result<(), NoMemory> {
        if let Some(place) = self.flying.remove(&name) {
            if let Some(arrow) = self.chart.arrows.get_mut(place) {
                arrow.fate = Fate::Arrived(row);
            }
            return Ok(());
        }
        match (self.book.arrived(), row) {
            (Some(sent), Some(_)) => self.put_arrow(name, None, sent, Fate::Arrived(row), None),
            _ => Ok(()),
        }
    }

    // An arrow more.
    fn put_arrow(
        &mut self,
        name: FrameName,
        row: Option<usize>,
        sent: Sent,
        fate: Fate,
        says: Option<String>,
    ) -> Result<(), NoMemory> {
        let alloc = *self.chart.arrows.allocator();
        let to = match sent.to {
            Some(to) => self.chart.column(to),
            None => None,
        };
        let says = match says {
            Some(says) => says,
            None => String::new(alloc),
        };
        let arrow = Arrow {
            name,
            sent: row,
            from: self.chart.column(sent.from),
            to,
            label: sent.label,
            fate,
            says,
        };
        self.chart.arrows.push(arrow)?;
        Ok(())
    }

    fn take_step(&mut self, entry: usize, at: ModuleId, given: Given) -> Result<(), NoMemory> {
        self.book.begin(entry, at, given)?;
        self.entry = entry;
        self.row = None;
        let time = match given {
            Given::Tick(ms) => Some(self.tick(at, u64::from(ms))?),
            _ => None,
        };
        let column = self.chart.column(at);
        if let Some(column) = column {
            if self.cut.has_entry(entry) {
                let look = self.look_of(entry, column, given);
                self.put_row(Row {
                    time,
                    look,
                    ..Row::new(entry, Some(column), Some(given))
                })?;
            }
        }
        self.join_tick(at, given)?;
        match given {
            Given::Frame(name) => self.land(name, self.row),
            _ => Ok(()),
        }
    }

    fn take_lost(&mut self, entry: usize, frame: FrameName) -> Result<(), NoMemory> {
        let _ = self.book.lose(frame);
        self.entry = entry;
        self.row = None;
        self.round = Round::none();
        let Some(place) = self.flying.remove(&frame) else {
            return Ok(());
        };
        if self.cut.has_entry(entry) {
            self.put_row(Row::new(entry, None, None))?;
        }
        if let Some(arrow) = self.chart.arrows.get_mut(place) {
            arrow.fate = Fate::Lost(self.row);
        }
        self.row = None;
        Ok(())
    }

    // The row under way has an output that changes how it looks.
    fn change_look(&mut self, body: Option<&Body>) {
        let Some(place) = self.row else {
            return;
        };
        if let Some(row) = self.chart.rows.get_mut(place) {
            row.look = match (row.look, body) {
                (Some(look), Some(Body::Data { id, .. })) => Some(Look {
                    id: *id,
                    outputs: look.outputs.saturating_add(1),
                    ..look
                }),
                (Some(look), None) => Some(Look {
                    outputs: look.outputs.saturating_add(1),
                    ..look
                }),
                _ => None,
            };
        }
    }

    fn take_send(&mut self, index: usize, output: &Output) -> Result<(), NoMemory> {
        let Output::Send { port, to, body } = output else {
            return Ok(());
        };
        let Some(sent) = self.book.send(index, *port, to, body)? else {
            return Ok(());
        };
        self.change_look(Some(body));
        if is_reset(&sent.label) && self.is_asked() {
            self.put_reset()?;
        }
        if self.row.is_none() && !self.is_seen(&sent) {
            return Ok(());
        }
        let known = self.book.of_body(sent.to, body);
        self.room.clear();
        write!(self.room, "{}", BodyText { body, known })?;
        let says = self.room.copied()?;
        let name = FrameName {
            entry: self.entry,
            output: index,
        };
        let fate = match sent.to {
            Some(_) => Fate::Waits,
            None => Fate::Nobody,
        };
        let place = self.chart.arrows.len();
        self.put_arrow(name, self.row, sent, fate, Some(says))?;
        if sent.to.is_some() {
            self.flying.insert(name, place)?;
        }
        Ok(())
    }

    // Whether the entry under way was given a request, so that a reply is the module's own.
    fn is_asked(&self) -> bool {
        match self.book.arrived() {
            Some(sent) => sent.label.kind == Kind::Request,
            None => false,
        }
    }

    // Whether the entry under way was given a command, so that its end is the module's own.
    fn is_told(&self) -> bool {
        match self.row.and_then(|place| self.chart.rows.get(place)) {
            Some(row) => matches!(row.given, Some(Given::Command(..))),
            None => false,
        }
    }

    // The module of the entry under way was reset.
    fn put_reset(&mut self) -> Result<(), NoMemory> {
        let alloc = *self.chart.marks.allocator();
        let text = String::from_str(alloc, "reset")?;
        self.put_mark(text, true, true)
    }

    // Whether a frame of an entry that is not shown may come to a module that is.
    fn is_seen(&self, sent: &Sent) -> bool {
        match sent.to {
            Some(to) => self.chart.column(to).is_some() && self.entry <= self.cut.to,
            None => false,
        }
    }

    fn put_mark(&mut self, text: String, is_bad: bool, is_reset: bool) -> Result<(), NoMemory> {
        let Some(place) = self.row else {
            return Ok(());
        };
        self.chart.marks.push(Mark {
            row: place,
            text,
            is_bad,
            is_reset,
        })?;
        if let Some(row) = self.chart.rows.get_mut(place) {
            row.marks = row.marks.saturating_add(1);
        }
        Ok(())
    }

    // Whether a datum is consumed that repeats the one before.
    fn is_repeated(&mut self, output: &Output) -> Result<bool, NoMemory> {
        match output {
            Output::Consumed { triad, bytes, .. } => self.book.consume(*triad, bytes.as_slice()),
            _ => Ok(false),
        }
    }

    fn take_output(
        &mut self,
        alloc: Global,
        index: usize,
        output: &Output,
    ) -> Result<(), NoMemory> {
        match output {
            Output::Send { .. } => return self.take_send(index, output),
            Output::Done { op, .. } => self.book.done(*op),
            Output::Ended { op } => self.book.done(*op),
            Output::Refused(_) => self.book.refused(),
            _ => {}
        }
        let is_repeated = self.is_repeated(output)?;
        match output {
            Output::Consumed { .. } | Output::Arrived { .. } if !is_repeated => {
                self.change_look(None)
            }
            _ => {
                if let Some(place) = self.row {
                    if let Some(row) = self.chart.rows.get_mut(place) {
                        row.look = None;
                    }
                }
            }
        }
        if let Some((text, is_bad)) = mark_of(alloc, output, is_repeated)? {
            self.put_mark(text, is_bad, false)?;
        }
        match output {
            Output::Done { reply, .. } if self.is_told() && ends_in_reset(reply.as_slice()) => {
                self.put_reset()
            }
            _ => Ok(()),
        }
    }

    // What is said below the chart.
    fn put_notes(&mut self, alloc: Global, ending: Ending) -> Result<(), NoMemory> {
        if ending.is_cut {
            let line = ending.lines.saturating_add(1);
            let note = format!(in alloc; "the transcript is cut within line {line}")?;
            self.chart.notes.push(note)?;
        }
        for ((place, op), word) in self.book.ops() {
            let name = cip_book::NameText(self.book.name(ModuleId(*place)));
            let word = cip_book::command_word(*word);
            let note = format!(in alloc; "still open at the end: {name} {word} {op}")?;
            self.chart.notes.push(note)?;
        }
        Ok(())
    }
}

impl View for ChartView<'_> {
    ghost gathered = { λ s. string_bytes s.out };

    fn line(&mut self, alloc: Global, _text: &[u8], line: Line) -> Result<(), NoMemory> {
        match line {
            Line::Step { entry, at, given } => self.take_step(entry, at, given),
            Line::Lost { entry, frame } => self.take_lost(entry, frame),
            Line::Output { index, output } => self.take_output(alloc, index, &output),
            Line::Note(_) => Ok(()),
        }
    }

    fn end(&mut self, alloc: Global, _rest: &[u8], ending: Ending) -> Result<(), NoMemory> {
        self.put_notes(alloc, ending)?;
        fold(&mut self.chart.rows);
        join(&mut self.chart.rows, self.together.as_slice());
        let mut out = Draft::new(alloc);
        if self.is_page {
            put_page(alloc, &self.chart, &mut out)?;
        } else {
            put_svg(alloc, &self.chart, false, &mut out)?;
        }
        self.out = out.into_string();
        Ok(())
    }

    fn written(&self) -> &[u8] {
        self.out.as_bytes()
    }

    fn clear(&mut self) {
        self.out.clear();
    }
}
