//! Loading a topology.
ghost use Rattle.std.specs.Prelude.{◌≡◌, ◌≤◌, length, None, IfOk, IfSome, []};
ghost use Rattle.toml.specs.Parse.{parse_document};
ghost use Rattle.toml.specs.View.{view, items_view, table_view};
ghost use Rattle.cip_topology.specs.declared.place.Place.TheVariants.{File as TheFile};
ghost use Rattle.cip_topology.specs.Calls.{Gives};
ghost use Rattle.cip_topology.specs.Files.{some_items, tables_at, plan_with, topology_of};
ghost use Rattle.cip_topology.specs.Files.{IsRefusal};

use crate::fault::{LoadFault, Syntax};
use crate::key::Key;
use crate::link_tables::links;
use crate::module_tables::modules;
use crate::place::Place;
use crate::port_tables::at_most;
use crate::values::{array_of, value};
use cip_chassis::{MAX_LINKS, MAX_MODULES, Topology};
use std::alloc::Global;
use toml::{Table, Value};

#[tactic(auto, using(crate::proofs::Entries::counts))]
fn some_items<'a>(key: Key, entries: &'a [Value]) -> Result<&'a [Value], LoadFault>
    ensures is { Gives (λ s. items_view s.now) result
        (some_items key (items_view entries.now)) }
    ensures some { IfOk result (λ s. 1 ≤ length s.now) }
{
    if entries.len() == 0 {
        return Err(LoadFault::Missing {
            key,
            place: Place::File,
        });
    }
    Ok(entries)
}

// The tables of a kind, of which there is one at least.
fn tables<'a>(document: &'a Table, key: Key) -> Result<&'a [Value], LoadFault>
    ensures is { Gives (λ s. items_view s.now) result
        (tables_at key (table_view document.now)) }
    ensures some { IfOk result (λ s. 1 ≤ length s.now) }
{
    let value = value(document, &Place::File, key)?;
    let entries = array_of(value, &Place::File, key)?;
    some_items(key, entries)
}

fn plan(
    alloc: Global,
    link_entries: &[Value],
    module_entries: &[Value],
) -> Result<Topology, LoadFault>
    requires some_links { 1 ≤ length link_entries.now }
    requires few_links { length link_entries.now ≤ 32 }
    requires some_modules { 1 ≤ length module_entries.now }
    requires few_modules { length module_entries.now ≤ 64 }
    ensures { Gives (λ t. t) result
        (plan_with (items_view link_entries.now) (items_view module_entries.now)) }
{
    let links = links(alloc, link_entries)?;
    let (modules, seats) = modules(alloc, links.as_slice(), module_entries)?;
    Ok(Topology::of(links, modules, seats))
}

fn topology_of(alloc: Global, document: &Table) -> Result<Topology, LoadFault>
    ensures { Gives (λ t. t) result (topology_of (table_view document.now)) }
{
    let links = tables(document, Key::Link)?;
    let modules = tables(document, Key::Module)?;
    let links = at_most(&Place::File, Key::Link, MAX_LINKS, links)?;
    let modules = at_most(&Place::File, Key::Module, MAX_MODULES, modules)?;
    plan(alloc, links, modules)
}

/// The topology of a text. A fault is the first rule that the text breaks, in the order of
/// `docs/TOPOLOGY.md`; NotToml where the text is no TOML.
pub fn load(alloc: Global, text: &str) -> Result<Topology, LoadFault>
    // The topology that the document says, or the first rule that it breaks.
    ensures read { IfSome (parse_document text.now)
        (λ document. Gives (λ t. t) result (topology_of document)) }
    ensures refused { parse_document text.now ≡ None → IsRefusal result }
{
    match toml::table_from_str(alloc, text) {
        Ok(document) => topology_of(alloc, &document),
        Err(error) if error.is_memory() => Err(LoadFault::NoMemory),
        Err(error) => Err(LoadFault::NotToml(Syntax::of(text, error))),
    }
}
