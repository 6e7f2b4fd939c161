//! A topology file that is refused, in a line.

use crate::escaped::Escaped;
use crate::explaining::explain_load;
use crate::lines::fault_line;
use crate::report::Report;
use crate::strangers::strange_keys;
use cip_base::NoMemory;
use cip_topology::LoadFault;
use std::alloc::Global;
use toml::Table;

// The first key of a document that means nothing.
fn tell_first_stranger(alloc: Global, document: &Table, told: &mut String) -> Result<(), NoMemory> {
    let mut report = Report::new(alloc);
    strange_keys(alloc, document, &mut report)?;
    if let Some(first) = report.lines().first() {
        write!(told, "; besides, {first}")?;
    }
    Ok(())
}

// The same of a text. Where a key is missing, those that mean nothing there were told.
fn tell_stranger(
    alloc: Global,
    text: &str,
    fault: &LoadFault,
    told: &mut String,
) -> Result<(), NoMemory> {
    if let LoadFault::Missing { .. } = fault {
        return Ok(());
    }
    match toml::table_from_str(alloc, text) {
        Ok(document) => tell_first_stranger(alloc, &document, told),
        Err(error) if error.is_memory() => Err(NoMemory),
        Err(_) => Ok(()),
    }
}

fn put_told(
    alloc: Global,
    name: &str,
    text: &str,
    fault: &LoadFault,
    told: &mut String,
) -> Result<(), NoMemory> {
    let name = Escaped(name);
    let explained = explain_load(alloc, text, fault)?;
    match fault_line(alloc, text, fault)? {
        Some(line) => write!(told, "{name}:{line}: {explained}")?,
        None => write!(told, "{name}: {explained}")?,
    }
    tell_stranger(alloc, text, fault, told)
}

/// What is told of a topology file of this name and text that has this fault: the name, the line of
/// the fault (`fault_line`), the fault with what else the text says of it (`explain_load`), and the
/// first key that means nothing, where the fault is about none that is missing. NoMemory where an
/// allocation is refused.
pub fn explain_file(
    alloc: Global,
    name: &str,
    text: &str,
    fault: &LoadFault,
) -> Result<String, NoMemory> {
    let mut told = String::new(alloc);
    put_told(alloc, name, text, fault, &mut told)?;
    Ok(told)
}
