//! The tables of a module as lines of a transcript.
ghost use Rattle.std.specs.Prelude.{◌≡◌, ◌++◌, OnOk};
ghost use Rattle.cip_transcript.specs.TablesText.{kind_text, pending_line, up_text, down_text};
ghost use Rattle.cip_transcript.specs.TablesText.{watch_text, hop_line, assembly_line};
ghost use Rattle.cip_transcript.specs.TablesText.{pendings_text, hops_text, assemblies_text};
ghost use Rattle.cip_transcript.specs.TablesText.{counts_text, tables_text};

use crate::pieces::{put, put_bytes, put_number, put_optional};
use crate::show::put_triad;
use cip_base::{Address, NoMemory, PortNumber};
use cip_hops::{HopDown, HopUp};
use cip_pending::Kind;
use cip_routing::{AssemblyRow, HopRow, PendingRow, Tables};

fn put_kind(text: &mut Vec<u8>, kind: &Kind) -> Result<(), NoMemory>
    ensures { OnOk result (text.new.items ≡ text.old.items ++ kind_text kind.now) }
{
    match kind {
        Kind::Unconnected => put(text, b"unconnected"),
        Kind::Opening(triad) => {
            put(text, b"opening ")?;
            put_triad(text, triad)
        }
        Kind::OpeningLarge(triad) => {
            put(text, b"large ")?;
            put_triad(text, triad)
        }
        Kind::Closing(triad) => {
            put(text, b"closing ")?;
            put_triad(text, triad)
        }
    }
}

// A request that waits.
fn put_pending(text: &mut Vec<u8>, row: &PendingRow) -> Result<(), NoMemory>
    ensures { OnOk result (text.new.items ≡ text.old.items ++ pending_line row.now) }
{
    put(text, b"  pending ")?;
    put_number(text, u64::from(row.number))?;
    put(text, b" ")?;
    put_number(text, u64::from(row.entry.port.get()))?;
    put(text, b" ")?;
    put_bytes(text, row.entry.address.as_slice())?;
    put(text, b" due ")?;
    put_number(text, row.entry.deadline)?;
    put(text, b" words ")?;
    put_number(text, u64::from(row.entry.words))?;
    put(text, b" ")?;
    put_kind(text, &row.entry.kind)?;
    put(text, b"\n")
}

fn wide(number: Option<u32>) -> Option<u64>
    ensures { result ≡ number }
{
    match number {
        Some(number) => Some(u64::from(number)),
        None => None,
    }
}

// A link above, with both ids.
fn put_link_up(
    text: &mut Vec<u8>,
    port: PortNumber,
    address: &Address,
    own: Option<u32>,
    their: u32,
) -> Result<(), NoMemory>
    ensures { OnOk result (text.new.items
        ≡ text.old.items ++ up_text (HopUp.Link port address.now their) own) }
{
    put(text, b" up ")?;
    put_number(text, u64::from(port.get()))?;
    put(text, b" ")?;
    put_bytes(text, address.as_slice())?;
    put(text, b" own ")?;
    put_optional(text, wide(own))?;
    put(text, b" their ")?;
    put_number(text, u64::from(their))
}

// Where a connection comes from.
fn put_up(text: &mut Vec<u8>, up: &HopUp, own: Option<u32>) -> Result<(), NoMemory>
    ensures { OnOk result (text.new.items ≡ text.old.items ++ up_text up.now own) }
{
    match up {
        HopUp::Link {
            port,
            address,
            their_id,
        } => put_link_up(text, *port, address, own, *their_id),
        HopUp::Local { op } => {
            put(text, b" up op ")?;
            put_number(text, u64::from(*op))
        }
    }
}

// A link below, with both ids.
fn put_link_down(
    text: &mut Vec<u8>,
    port: PortNumber,
    address: &Address,
    their: Option<u32>,
    own: Option<u32>,
) -> Result<(), NoMemory>
    ensures { OnOk result (text.new.items
        ≡ text.old.items ++ down_text (HopDown.Link port address.now) their own) }
{
    put(text, b" down ")?;
    put_number(text, u64::from(port.get()))?;
    put(text, b" ")?;
    put_bytes(text, address.as_slice())?;
    put(text, b" their ")?;
    put_optional(text, wide(their))?;
    put(text, b" own ")?;
    put_optional(text, wide(own))
}

// Where it goes to.
fn put_down(
    text: &mut Vec<u8>,
    down: &HopDown,
    their: Option<u32>,
    own: Option<u32>,
) -> Result<(), NoMemory>
    ensures { OnOk result (text.new.items ≡ text.old.items ++ down_text down.now their own) }
{
    match down {
        HopDown::Link { port, address } => put_link_down(text, *port, address, their, own),
        HopDown::End {
            config,
            consume,
            produce,
        } => {
            put(text, b" down end ")?;
            put_number(text, u64::from(*config))?;
            put(text, b" ")?;
            put_number(text, u64::from(*consume))?;
            put(text, b" ")?;
            put_number(text, u64::from(*produce))
        }
    }
}

// The deadlines of both sides.
fn put_watch(text: &mut Vec<u8>, up: Option<u64>, down: Option<u64>) -> Result<(), NoMemory>
    ensures { OnOk result (text.new.items ≡ text.old.items ++ watch_text up down) }
{
    put(text, b" watch ")?;
    put_optional(text, up)?;
    put(text, b" ")?;
    put_optional(text, down)
}

// A connection.
fn put_hop(text: &mut Vec<u8>, row: &HopRow) -> Result<(), NoMemory>
    ensures { OnOk result (text.new.items ≡ text.old.items ++ hop_line row.now) }
{
    put(text, b"  hop ")?;
    put_triad(text, &row.triad)?;
    put_up(text, &row.up, row.ids.up)?;
    put_down(text, &row.down, row.their_id, row.ids.down)?;
    put_watch(text, row.up_deadline, row.down_deadline)?;
    put(text, b"\n")
}

fn put_assembly(text: &mut Vec<u8>, row: &AssemblyRow) -> Result<(), NoMemory>
    ensures { OnOk result (text.new.items ≡ text.old.items ++ assembly_line row.now) }
{
    put(text, b"  assembly ")?;
    put_number(text, u64::from(row.instance))?;
    put(text, b" ")?;
    put_bytes(text, row.bytes.as_slice())?;
    put(text, b"\n")
}

fn put_pendings(text: &mut Vec<u8>, rows: &[PendingRow]) -> Result<(), NoMemory>
    ensures { OnOk result (text.new.items ≡ text.old.items ++ pendings_text rows.now) }
{
    for row in rows {
        put_pending(text, row)?;
    }
    Ok(())
}

fn put_hops(text: &mut Vec<u8>, rows: &[HopRow]) -> Result<(), NoMemory>
    ensures { OnOk result (text.new.items ≡ text.old.items ++ hops_text rows.now) }
{
    for row in rows {
        put_hop(text, row)?;
    }
    Ok(())
}

fn put_assemblies(text: &mut Vec<u8>, rows: &[AssemblyRow]) -> Result<(), NoMemory>
    ensures { OnOk result (text.new.items ≡ text.old.items ++ assemblies_text rows.now) }
{
    for row in rows {
        put_assembly(text, row)?;
    }
    Ok(())
}

fn put_counts(text: &mut Vec<u8>, name: &[u8], tables: &Tables) -> Result<(), NoMemory>
    ensures { OnOk result (text.new.items
        ≡ text.old.items ++ counts_text name.now tables.entry.now) }
{
    put(text, b"tables ")?;
    put(text, name)?;
    put(text, b" now ")?;
    put_number(text, tables.now)?;
    put(text, b" id ")?;
    put_number(text, u64::from(tables.last_id))?;
    put(text, b" number ")?;
    put_number(text, u64::from(tables.last_number))?;
    put(text, b"\n")
}

/// Puts the tables of a module behind a text: its counts, and then a line for each request that
/// waits, each connection that is open, and each assembly. NoMemory where an allocation is refused:
/// then a part may stand there.
pub fn put_tables(text: &mut Vec<u8>, name: &[u8], tables: &Tables) -> Result<(), NoMemory>
    ensures { OnOk result (text.new.items
        ≡ text.old.items ++ tables_text name.now tables.entry.now) }
{
    put_counts(text, name, tables)?;
    put_pendings(text, tables.pendings.as_slice())?;
    put_hops(text, tables.hops.as_slice())?;
    put_assemblies(text, tables.assemblies.as_slice())
}
