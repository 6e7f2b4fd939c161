//! The state of a module as it is shown.
ghost use Rattle.std.specs.Prelude.{◌≡◌, find};
ghost use Rattle.cip_routing.specs.Views.{is_row_by_op, is_row_by_up};

use cip_base::{Address, Bytes, PortNumber, Triad};
use cip_hops::{HopDown, HopUp, OwnIds};
use cip_pending::Entry;
use cip_segment::Path;
use std::marker::Model;

/// A request that waits, under its number.
#[derive(Drop)]
pub struct PendingRow {
    pub number: u32,
    pub entry: Entry,
}

/// The requests that wait, in rising number.
pub struct PendingRows {
    rows: Vec<PendingRow>,
}

// (A derive would be written, and proved, anew in each crate above.)
impl Drop for PendingRows {
    fn drop(self) {
        let PendingRows { rows: _ } = self;
    }
}

impl Model for PendingRows {
    ghost use Rattle.std.specs.Prelude.{List};
    ghost use Rattle.cip_routing.specs.declared.tables.PendingRow.{PendingRow};

    ghost Value = { List PendingRow };

    ghost view = { λ p. p.rows.items };
}

impl PendingRows {
    /// The rows of the vector.
    pub fn of(rows: Vec<PendingRow>) -> PendingRows
        ensures { result ≡ rows.items }
    {
        PendingRows { rows }
    }

    /// The rows, borrowed.
    pub fn as_slice(&self) -> &[PendingRow]
        ensures { result.now ≡ self.now }
    {
        self.rows.as_slice()
    }
}

/// Ops, rising.
#[derive(Drop)]
pub struct Ops {
    ops: Vec<u32>,
}

impl Model for Ops {
    ghost use Rattle.std.specs.Prelude.{List, ℕ};

    ghost Value = { List ℕ };

    ghost view = { λ o. o.ops.items };
}

impl Ops {
    /// The ops of the vector.
    pub fn of(ops: Vec<u32>) -> Ops
        ensures { result ≡ ops.items }
    {
        Ops { ops }
    }

    /// The ops, borrowed.
    pub fn as_slice(&self) -> &[u32]
        ensures { result.now ≡ self.now }
    {
        self.ops.as_slice()
    }
}

/// A connection that is open, as it is shown.
#[derive(Drop)]
pub struct HopRow {
    pub triad: Triad,
    pub up: HopUp,
    pub down: HopDown,
    pub ids: OwnIds,
    /// The O to T id of the device below; None at an end.
    pub their_id: Option<u32>,
    /// The path as it was received.
    pub path: Path,
    /// The sizes of a datum in bytes.
    pub ot_size: u16,
    pub to_size: u16,
    /// The requested packet intervals in microseconds, O to T and T to O.
    pub ot_rpi: u32,
    pub to_rpi: u32,
    /// The transport class: the data of class 1 begin with a sequence count.
    pub class: u8,
    /// The times in microseconds at which each side has been silent for too long; None where the
    /// side is no link.
    pub up_deadline: Option<u64>,
    pub down_deadline: Option<u64>,
}

/// The connections that are open, in rising triad.
pub struct HopRows {
    rows: Vec<HopRow>,
}

// (A derive would be written, and proved, anew in each crate above.)
impl Drop for HopRows {
    fn drop(self) {
        let HopRows { rows: _ } = self;
    }
}

impl Model for HopRows {
    ghost use Rattle.std.specs.Prelude.{List};
    ghost use Rattle.cip_routing.specs.declared.tables.HopRow.{HopRow};

    ghost Value = { List HopRow };

    ghost view = { λ p. p.rows.items };
}

// Whether a command of this op opened the connection.
fn is_by_op(row: &HopRow, op: u32) -> bool
    ensures { result ≡ is_row_by_op op row.now }
{
    match &row.up {
        HopUp::Local { op: own } => *own == op,
        HopUp::Link { .. } => false,
    }
}

// Whether this is the connection's own id towards the originator, on the link by this port to this
// address.
fn is_by_up(row: &HopRow, id: u32, port: PortNumber, address: &Address) -> bool
    ensures { result ≡ is_row_by_up id port address.now row.now }
{
    match &row.up {
        HopUp::Local { .. } => false,
        HopUp::Link {
            port: own,
            address: to,
            ..
        } => row.ids.up == Some(id) && *own == port && to == address,
    }
}

impl HopRows {
    /// The rows of the vector.
    pub fn of(rows: Vec<HopRow>) -> HopRows
        ensures { result ≡ rows.items }
    {
        HopRows { rows }
    }

    /// The rows, borrowed.
    pub fn as_slice(&self) -> &[HopRow]
        ensures { result.now ≡ self.now }
    {
        self.rows.as_slice()
    }

    /// The row of the connection that a command of this op opened.
    pub fn by_op(self, op: u32) -> Option<HopRow>
        ensures { result ≡ find (is_row_by_op op) self }
    {
        let HopRows { rows } = self;
        rows.into_iter().find(|row| is_by_op(row, op))
    }

    /// The row of the connection of which this is the own id towards the originator, on the link by
    /// this port to this address.
    pub fn by_up(self, id: u32, port: PortNumber, address: &Address) -> Option<HopRow>
        ensures { result ≡ find (is_row_by_up id port address.now) self }
    {
        let HopRows { rows } = self;
        rows.into_iter()
            .find(|row| is_by_up(row, id, port, address))
    }
}

/// An assembly, under its instance.
#[derive(Drop, PartialEq, Eq)]
pub struct AssemblyRow {
    pub instance: u16,
    pub bytes: Bytes,
}

/// The assemblies, in rising instance.
pub struct AssemblyRows {
    rows: Vec<AssemblyRow>,
}

// (A derive would be written, and proved, anew in each crate above.)
impl Drop for AssemblyRows {
    fn drop(self) {
        let AssemblyRows { rows: _ } = self;
    }
}

impl Model for AssemblyRows {
    ghost use Rattle.std.specs.Prelude.{List};
    ghost use Rattle.cip_routing.specs.declared.tables.AssemblyRow.{AssemblyRow};

    ghost Value = { List AssemblyRow };

    ghost view = { λ p. p.rows.items };
}

impl AssemblyRows {
    /// The rows of the vector.
    pub fn of(rows: Vec<AssemblyRow>) -> AssemblyRows
        ensures { result ≡ rows.items }
    {
        AssemblyRows { rows }
    }

    /// The rows, borrowed.
    pub fn as_slice(&self) -> &[AssemblyRow]
        ensures { result.now ≡ self.now }
    {
        self.rows.as_slice()
    }
}

/// The state of a module: its time in microseconds, the last connection id and the last pending
/// number (one less than the next), the requests that wait, the connections that are open, the
/// assemblies and the ops that were used, each list in rising key.
#[derive(Drop)]
pub struct Tables {
    pub now: u64,
    pub last_id: u32,
    pub last_number: u32,
    pub pendings: PendingRows,
    pub hops: HopRows,
    pub assemblies: AssemblyRows,
    pub ops: Ops,
}
