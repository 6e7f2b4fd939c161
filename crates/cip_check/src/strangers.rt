//! Keys that mean nothing.

ghost use Rattle.std.specs.Prelude.{◌≤◌};

use crate::report::Report;
use crate::tables::{entries_of, name_of};
use cip_topology::Place;
use std::alloc::{AllocError, Global};
use strsim::levenshtein;
use toml::{Table, Value};

static FILE: [&str; 2] = ["link", "module"];

static LINK: [&str; 5] = ["name", "kind", "first", "last", "longest"];

static MODULE: [&str; 17] = [
    "name",
    "kind",
    "vendor",
    "device_type",
    "product",
    "major",
    "minor",
    "status",
    "serial",
    "product_name",
    "clock",
    "first_id",
    "first_number",
    "pending_room",
    "hop_room",
    "port",
    "assembly",
];

static PORT: [&str; 3] = ["number", "link", "address"];

static ASSEMBLY: [&str; 2] = ["instance", "size"];

// The most edits from a key to the nearest one that is told.
const NEAR: usize = 3;

// A key that a table does not have, the table that has it, or else the nearest that this one has.
fn told(
    alloc: Global,
    place: &Place,
    key: &str,
    home: Option<&'static str>,
    nearest: Option<&'static str>,
) -> Result<String, AllocError> {
    match (home, nearest) {
        (Some(home), _) => {
            format!(in alloc; "{place}: unknown key {key:?}, which stands in {home}")
        }
        (None, Some(nearest)) => {
            format!(in alloc; "{place}: unknown key {key:?}; the nearest is `{nearest}`")
        }
        (None, None) => format!(in alloc; "{place}: unknown key {key:?}"),
    }
}

fn is_known(known: &[&'static str], key: &str) -> bool {
    for other in known {
        if *other == key {
            return true;
        }
    }
    false
}

// The tables that have a key.
fn home_of(key: &str) -> Option<&'static str> {
    if is_known(&PORT, key) {
        Some("[[module.port]]")
    } else if is_known(&ASSEMBLY, key) {
        Some("[[module.assembly]]")
    } else if is_known(&FILE, key) {
        Some("the file itself")
    } else if is_known(&MODULE, key) {
        Some("[[module]]")
    } else if is_known(&LINK, key) {
        Some("[[link]]")
    } else {
        None
    }
}

// The nearest of the keys, if one is near.
fn nearest_of(
    alloc: Global,
    key: &str,
    known: &[&'static str],
) -> Result<Option<&'static str>, AllocError> {
    let mut nearest = None;
    let mut least = NEAR + 1;
    for other in known {
        let edits = levenshtein(alloc, key, other)?;
        if edits < least {
            least = edits;
            nearest = Some(*other);
        }
    }
    Ok(nearest)
}

fn keys_of(
    alloc: Global,
    table: &Table,
    place: &Place,
    known: &[&'static str],
    report: &mut Report,
) -> Result<(), AllocError>
    ensures { report.old.faults ≤ report.new.faults }
{
    'keys: for key in table.keys() {
        if !is_known(known, key.as_str()) {
            let nearest = nearest_of(alloc, key.as_str(), known)?;
            let home = home_of(key.as_str());
            report.fault(alloc, &told(alloc, place, key.as_str(), home, nearest)?)?;
        }
    }
    Ok(())
}

/// The keys that a table at this place has.
pub(crate) fn known_at(place: &Place) -> &'static [&'static str] {
    match place {
        Place::File => &FILE,
        Place::Link { .. } => &LINK,
        Place::Module { .. } => &MODULE,
        Place::Port { .. } => &PORT,
        Place::Assembly { .. } => &ASSEMBLY,
    }
}

/// Of the keys that mean nothing in a table, the nearest to one that is missing, if one is near.
pub(crate) fn nearest_stranger<'a>(
    alloc: Global,
    table: &'a Table,
    known: &[&'static str],
    missing: &str,
) -> Result<Option<&'a str>, AllocError> {
    let mut nearest = None;
    let mut least = NEAR + 1;
    for key in table.keys() {
        if !is_known(known, key.as_str()) {
            let edits = levenshtein(alloc, key.as_str(), missing)?;
            if edits < least {
                least = edits;
                nearest = Some(key.as_str());
            }
        }
    }
    Ok(nearest)
}

fn strange_links(alloc: Global, document: &Table, report: &mut Report) -> Result<(), AllocError>
    ensures { report.old.faults ≤ report.new.faults }
{
    'links: for (i, entry) in entries_of(document, "link").iter().enumerate() {
        if let Value::Table(table) = entry {
            let place = Place::Link {
                number: i.saturating_add(1),
                name: name_of(table),
            };
            keys_of(alloc, table, &place, &LINK, report)?;
        }
    }
    Ok(())
}

fn strange_ports(
    alloc: Global,
    number: usize,
    module_: &Table,
    report: &mut Report,
) -> Result<(), AllocError>
    ensures { report.old.faults ≤ report.new.faults }
{
    'ports: for (i, entry) in entries_of(module_, "port").iter().enumerate() {
        if let Value::Table(table) = entry {
            let place = Place::Port {
                number,
                name: name_of(module_),
                port: i.saturating_add(1),
            };
            keys_of(alloc, table, &place, &PORT, report)?;
        }
    }
    Ok(())
}

fn strange_assemblies(
    alloc: Global,
    number: usize,
    module_: &Table,
    report: &mut Report,
) -> Result<(), AllocError>
    ensures { report.old.faults ≤ report.new.faults }
{
    'assemblies: for (i, entry) in entries_of(module_, "assembly").iter().enumerate() {
        if let Value::Table(table) = entry {
            let place = Place::Assembly {
                number,
                name: name_of(module_),
                assembly: i.saturating_add(1),
            };
            keys_of(alloc, table, &place, &ASSEMBLY, report)?;
        }
    }
    Ok(())
}

fn strange_module(
    alloc: Global,
    number: usize,
    module_: &Table,
    report: &mut Report,
) -> Result<(), AllocError>
    ensures { report.old.faults ≤ report.new.faults }
{
    let place = Place::Module {
        number,
        name: name_of(module_),
    };
    keys_of(alloc, module_, &place, &MODULE, report)?;
    strange_ports(alloc, number, module_, report)?;
    strange_assemblies(alloc, number, module_, report)
}

fn strange_modules(alloc: Global, document: &Table, report: &mut Report) -> Result<(), AllocError>
    ensures { report.old.faults ≤ report.new.faults }
{
    'modules: for (i, entry) in entries_of(document, "module").iter().enumerate() {
        if let Value::Table(table) = entry {
            strange_module(alloc, i.saturating_add(1), table, report)?;
        }
    }
    Ok(())
}

/// Reports each key that its table does not have.
pub(crate) fn strange_keys(
    alloc: Global,
    document: &Table,
    report: &mut Report,
) -> Result<(), AllocError>
    ensures { report.old.faults ≤ report.new.faults }
{
    keys_of(alloc, document, &Place::File, &FILE, report)?;
    strange_links(alloc, document, report)?;
    strange_modules(alloc, document, report)
}
