//! The `[[link]]` tables.
ghost use Rattle.std.specs.Prelude.{◌≡◌, None, Some, []};
ghost use Rattle.toml.specs.View.{view, items_view, table_view};
ghost use Rattle.cip_topology.specs.declared.place.Place.TheVariants.{Link as LinkPlace};
ghost use Rattle.cip_topology.specs.LinkTables.{bytes_at, text_bytes_at, legal_at, is_linked};
ghost use Rattle.cip_topology.specs.LinkTables.{link_of_table, link_of, links_after};
ghost use Rattle.cip_topology.specs.Calls.{Gives};

use crate::fault::LoadFault;
use crate::key::Key;
use crate::place::Place;
use crate::values::{name, number, out_of_range, table_of, value};
use cip_chassis::{Link, Name};
use cip_config::LegalAddresses;
use std::alloc::Global;
use toml::{Table, Value};

fn bytes(table: &Table, place: &Place) -> Result<LegalAddresses, LoadFault>
    ensures { Gives (λ l. l) result (bytes_at place.now (table_view table.now)) }
{
    let first = number(table, place, Key::First, 0, 255)?;
    let last = number(table, place, Key::Last, first, 255)?;
    Ok(LegalAddresses::Byte {
        first: first as u8,
        last: last as u8,
    })
}

fn text_bytes(table: &Table, place: &Place) -> Result<LegalAddresses, LoadFault>
    ensures { Gives (λ l. l) result (text_bytes_at place.now (table_view table.now)) }
{
    let longest = number(table, place, Key::Longest, 1, 16)?;
    Ok(LegalAddresses::Text {
        longest: longest as u8,
    })
}

// By the link's kind.
fn legal(table: &Table, place: &Place) -> Result<LegalAddresses, LoadFault>
    ensures { Gives (λ l. l) result (legal_at place.now (table_view table.now)) }
{
    let kind = value(table, place, Key::Kind)?;
    match kind.as_str() {
        Some("byte") => bytes(table, place),
        Some("text") => text_bytes(table, place),
        _ => Err(out_of_range(place, Key::Kind, kind)),
    }
}

// Whether a link of this name is there.
fn is_linked(name: &Name, links: &[Link]) -> bool
    ensures { result ≡ is_linked name.now links.now }
{
    links.iter().any(|link| link.name == *name)
}

fn link_of_table(number: usize, links: &[Link], table: &Table) -> Result<Link, LoadFault>
    ensures { Gives (λ l. l) result (link_of_table number links.now (table_view table.now)) }
{
    let name = name(table, &Place::Link { number, name: None })?;
    let place = Place::Link {
        number,
        name: Some(name.copy()),
    };
    let legal = legal(table, &place)?;
    if is_linked(&name, links) {
        return Err(LoadFault::DoubleName { place });
    }
    Ok(Link { name, legal })
}

#[tactic(auto, unfolding(crate::specs::LinkTables::link_of))]
fn link_of(number: usize, links: &[Link], entry: &Value) -> Result<Link, LoadFault>
    ensures { Gives (λ l. l) result (link_of number links.now (view entry.now)) }
{
    let place = Place::Link { number, name: None };
    let table = table_of(entry, &place, Key::Link)?;
    link_of_table(number, links, table)
}

/// The links of the `[[link]]` entries, in their order; the fault is the first rule that one
/// breaks, or NoMemory where an allocation is refused.
pub(crate) fn links(alloc: Global, entries: &[Value]) -> Result<Vec<Link>, LoadFault>
    ensures { Gives (λ v. v.items) result (links_after [] (items_view entries.now)) }
{
    let mut links = Vec::new(alloc);
    for entry in entries {
        let link = link_of(links.len() + 1, links.as_slice(), entry)?;
        links.push(link)?;
    }
    Ok(links)
}
