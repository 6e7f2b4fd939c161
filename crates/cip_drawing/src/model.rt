//! What a chart has: columns, rows, arrows and marks.
use cip_base::ModuleId;
use cip_book::Label;
use cip_chassis::Topology;
use cip_read::{FrameName, Given};
use std::alloc::Global;

/// What the module of a row was given that may be folded.
#[derive(Clone, Copy, PartialEq, Eq)]
pub enum Cause {
    Command,
    Frame,
    Tick,
}

/// How the row of a tick or of cyclic data looks, but for its bytes: rows of one look may be
/// folded.
#[derive(Clone, Copy, PartialEq, Eq)]
pub struct Look {
    pub column: usize,
    pub cause: Cause,
    /// The number of the command; of a frame how many entries before this one sent it; of a tick
    /// its milliseconds.
    pub number: u64,
    /// The connection id of the datum that goes out, or 0.
    pub id: u32,
    /// How many outputs there are.
    pub outputs: usize,
}

/// A cycle of rows that stands there more often than it is shown.
#[derive(Clone, Copy)]
pub struct Fold {
    /// How many rows it has.
    pub rows: usize,
    /// How often it stands there more.
    pub times: usize,
    pub has_ticks: bool,
}

/// An entry.
#[derive(Clone, Copy)]
pub struct Row {
    pub entry: usize,
    /// None where a frame was lost.
    pub column: Option<usize>,
    pub given: Option<Given>,
    /// How many marks stand beside the lifeline.
    pub marks: usize,
    /// The time of the module after a tick, in milliseconds.
    pub time: Option<u64>,
    /// Of an entry that moves data, or of a tick, where nothing else comes of it.
    pub look: Option<Look>,
    /// The row stands in one that is shown in its place.
    pub is_folded: bool,
    /// The cycle of rows that ends here and is shown once.
    pub fold: Option<Fold>,
    /// How many rows behind this one stand at its height.
    pub joined: usize,
    /// The row stands at the height of one before it.
    pub is_joined: bool,
}

impl Row {
    /// The row of an entry, so far.
    pub fn new(entry: usize, column: Option<usize>, given: Option<Given>) -> Row {
        Row {
            entry,
            column,
            given,
            marks: 0,
            time: None,
            look: None,
            is_folded: false,
            fold: None,
            joined: 0,
            is_joined: false,
        }
    }
}

/// How a frame ended.
#[derive(Clone, Copy, PartialEq, Eq)]
pub enum Fate {
    /// It is on its way.
    Waits,
    /// It arrived, in this row where that is shown.
    Arrived(Option<usize>),
    /// It was lost, in this row where that is shown.
    Lost(Option<usize>),
    /// No module has its address.
    Nobody,
}

/// A frame.
#[derive(Drop)]
pub struct Arrow {
    pub name: FrameName,
    /// The row of the entry that sent it, where that is shown.
    pub sent: Option<usize>,
    pub from: Option<usize>,
    pub to: Option<usize>,
    pub label: Label,
    pub fate: Fate,
    /// What the message says.
    pub says: String,
}

/// What stands beside a lifeline.
#[derive(Drop)]
pub struct Mark {
    pub row: usize,
    pub text: String,
    pub is_bad: bool,
    /// The module was reset: bars stand across its lifeline.
    pub is_reset: bool,
}

/// A chart: the modules of a topology, each with its column where it is shown, the rows, arrows and
/// marks between their lifelines, and what is said below.
pub struct Chart<'a> {
    pub topology: &'a Topology,
    /// By the place of the module.
    pub columns: Vec<Option<usize>>,
    pub rows: Vec<Row>,
    pub arrows: Vec<Arrow>,
    pub marks: Vec<Mark>,
    pub notes: Vec<String>,
}

// (A derive would be written, and proved, anew in each crate above.)
impl Drop for Chart<'_> {
    fn drop(self) {
        let Chart {
            topology: _,
            columns: _,
            rows: _,
            arrows: _,
            marks: _,
            notes: _,
        } = self;
    }
}

impl<'a> Chart<'a> {
    /// Lifelines alone, of the modules that have a column.
    pub fn new(alloc: Global, topology: &'a Topology, columns: Vec<Option<usize>>) -> Chart<'a> {
        Chart {
            topology,
            columns,
            rows: Vec::new(alloc),
            arrows: Vec::new(alloc),
            marks: Vec::new(alloc),
            notes: Vec::new(alloc),
        }
    }

    /// The column of a module, where it is shown.
    pub fn column(&self, id: ModuleId) -> Option<usize> {
        self.columns.get(id.0).copied().flatten()
    }
}
