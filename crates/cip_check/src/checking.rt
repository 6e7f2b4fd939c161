//! Every fault of a topology file.

ghost use Rattle.std.specs.Prelude.{◌≡◌, ◌≤◌, IfOk};
ghost use Rattle.cip_check.specs.Taken.{IsTaken, IsTold};

use crate::explaining::explain_load;
use crate::reached::unreached;
use crate::repairing::repair;
use crate::report::Report;
use crate::slots::decimal_addresses;
use crate::strangers::strange_keys;
use cip_base::NoMemory;
use cip_topology::{LoadFault, load};
use std::alloc::Global;
use std::mem;
use toml::Table;

// The most faults that are told.
const MOST: usize = 1_000;

// A line that tells a fault of a document, and what else the document says of it.
fn tell_fault(
    alloc: Global,
    text: &str,
    fault: &LoadFault,
    report: &mut Report,
) -> Result<(), NoMemory>
    ensures told { IfOk result (λ _. 1 ≤ report.new.faults) }
    ensures more { report.old.faults ≤ report.new.faults }
{
    let line = explain_load(alloc, text, fault)?;
    report.fault(alloc, &line)?;
    Ok(())
}

// The fault of a text takes the place of the one that was found before; None where it has none.
fn find(
    alloc: Global,
    text: &str,
    report: &mut Report,
    found: &mut Option<LoadFault>,
) -> Result<(), NoMemory>
    ensures told { IfOk result (λ _. IsTold text.now report.new.faults found.new) }
    ensures more { report.old.faults ≤ report.new.faults }
{
    match load(alloc, text) {
        Ok(topology) => {
            drop(found.take());
            let warned = unreached(alloc, &topology, report);
            drop(topology);
            Ok(warned?)
        }
        Err(LoadFault::NoMemory) => Err(NoMemory),
        Err(fault) => {
            let told = tell_fault(alloc, text, &fault, report);
            // (one place to give it up is one to prove)
            drop(mem::replace(found, Some(fault)));
            told
        }
    }
}

// The rule that a document breaks is mended, and the next one is sought.
fn mend(
    alloc: Global,
    document: &mut Table,
    fault: &LoadFault,
    turn: usize,
) -> Result<String, NoMemory> {
    repair(alloc, document, fault, turn)?;
    // A date that was read can be written: memory alone can fail.
    match toml::table_to_string(alloc, document) {
        Ok(text) => Ok(text),
        Err(_) => Err(NoMemory),
    }
}

// The rules that a document breaks behind the one that was found, one after the other: each is
// mended before the next is sought.
fn broken_rules(
    alloc: Global,
    document: &mut Table,
    report: &mut Report,
    found: &mut Option<LoadFault>,
) -> Result<(), NoMemory>
    ensures { report.old.faults ≤ report.new.faults }
{
    'rules: for turn in 0..MOST {
        let Some(fault) = found.as_ref() else {
            return Ok(());
        };
        let text = mend(alloc, document, fault, turn)?;
        find(alloc, text.as_str(), report, found)?;
    }
    Ok(())
}

// What a document tells beside the fault that was found, and which rules it breaks behind that one.
fn tell_document(
    alloc: Global,
    document: &mut Table,
    report: &mut Report,
    found: &mut Option<LoadFault>,
) -> Result<(), NoMemory>
    ensures { report.old.faults ≤ report.new.faults }
{
    strange_keys(alloc, document, report)?;
    decimal_addresses(alloc, document, report)?;
    broken_rules(alloc, document, report, found)
}

// All that is told of a text.
fn tell_all(
    alloc: Global,
    text: &str,
    report: &mut Report,
    found: &mut Option<LoadFault>,
) -> Result<(), NoMemory>
    ensures { IfOk result (λ _. report.new.faults ≡ 0 → IsTaken text.now) }
{
    find(alloc, text, report, found)?;
    match toml::table_from_str(alloc, text) {
        Ok(document) => {
            let mut document = document;
            tell_document(alloc, &mut document, report, found)
        }
        Err(error) if error.is_memory() => Err(NoMemory),
        Err(_) => Ok(()),
    }
}

/// Every rule that the text of a topology file breaks, in the order of `docs/TOPOLOGY.md`, each in
/// the words of `explain_load`; each key that means nothing, with the nearest that does; and, as
/// warnings, each module that no path reaches, and each address of one byte that reads as another
/// number in decimal. What is no TOML is one fault. NoMemory where an allocation is refused.
///
/// To find the next fault the file is mended where the last one was: a name that is missing gets
/// one, and a port that stands nowhere stands on a link of its own.
pub fn check(alloc: Global, text: &str) -> Result<Report, NoMemory>
    // A text of which no fault is told is TOML, and breaks no rule.
    ensures { IfOk result (λ report. report.faults ≡ 0 → IsTaken text.now) }
{
    let mut report = Report::new(alloc);
    let mut found = None;
    let told = tell_all(alloc, text, &mut report, &mut found);
    drop(found);
    match told {
        Ok(()) => Ok(report),
        Err(NoMemory) => Err(NoMemory),
    }
}
