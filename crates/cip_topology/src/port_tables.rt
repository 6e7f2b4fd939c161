//! The `[[module.port]]` and the `[[module.assembly]]` tables.
ghost use Rattle.std.specs.Prelude.{◌≡◌, ◌<◌, ◌≤◌, length, [], option_map, IfOk};
ghost use Rattle.std.specs.List.{list_any};
ghost use Rattle.toml.specs.View.{view, items_view, table_view};
ghost use Rattle.cip_config.specs.Config.{has_number, has_instance};
ghost use Rattle.cip_chassis.specs.Nodes.{is_at};
ghost use Rattle.cip_chassis.specs.Seats.{is_seated};
ghost use Rattle.cip_topology.specs.PortTables.{new_number, link_from, link_named, port_on};
ghost use Rattle.cip_topology.specs.PortTables.{port_of_table, port_of, ports_after, right_ports};
ghost use Rattle.cip_topology.specs.PortTables.{ports_at, new_instance, assembly_of_table};
ghost use Rattle.cip_topology.specs.PortTables.{assembly_of, assemblies_after, at_most};
ghost use Rattle.cip_topology.specs.PortTables.{assemblies_at};
ghost use Rattle.cip_topology.specs.Calls.{Gives};

use crate::fault::LoadFault;
use crate::found::Found;
use crate::key::Key;
use crate::place::Place;
use crate::values::{address, items, number, table_of, text};
use cip_base::{Address, Excerpt, MAX_ASSEMBLIES, MAX_DATUM, MAX_PORTS, PortNumber};
use cip_chassis::{Link, Seats};
use cip_config::{ModuleKind, PortConfig, is_legal};
use cip_target::AssemblyConfig;
use std::alloc::Global;
use toml::{Table, Value};

fn has_number(ports: &[PortConfig], number: PortNumber) -> bool
    ensures { result ≡ list_any (has_number number) ports.now }
{
    ports.iter().any(|port| port.number == number)
}

// No port of the module has the number yet.
fn new_number(place: &Place, ports: &[PortConfig], number: u16) -> Result<PortNumber, LoadFault>
    requires { 0 < number }
    ensures { Gives (λ n. n) result (new_number place.now ports.now number) }
{
    let Some(new) = PortNumber::new(number) else {
        unreachable!()
    };
    if has_number(ports, new) {
        return Err(LoadFault::Range {
            key: Key::Number,
            place: place.copy(),
            found: Found::Integer(i64::from(number)),
        });
    }
    Ok(new)
}

// The link of a name, with its place.
fn linked<'a>(links: &'a [Link], name: &str) -> Option<(usize, &'a Link)>
    ensures { option_map (λ l. (l.0, l.1.now)) result ≡ link_from 0 links.now name.now }
{
    for (place, link) in links.iter().enumerate() {
        if link.name.as_slice() == name.as_bytes() {
            return Some((place, link));
        }
    }
    None
}

fn link_named<'a>(
    place: &Place,
    links: &'a [Link],
    name: &str,
) -> Result<(usize, &'a Link), LoadFault>
    ensures { Gives (λ l. (l.0, l.1.now)) result (link_named place.now links.now name.now) }
{
    match linked(links, name) {
        Some(found) => Ok(found),
        None => Err(LoadFault::UnknownLink {
            place: place.copy(),
            name: Excerpt::of(name.as_bytes()),
        }),
    }
}

fn has_address(ports: &[PortConfig], link: usize, address: &Address) -> bool
    ensures { result ≡ list_any (is_at link address.now) ports.now }
{
    ports
        .iter()
        .any(|port| port.link == link && port.address == *address)
}

// The address is legal on the link, and free.
fn port_on(
    place: &Place,
    seats: &Seats,
    ports: &[PortConfig],
    number: PortNumber,
    address: Address,
    at: usize,
    link: &Link,
) -> Result<PortConfig, LoadFault>
    ensures { Gives (λ p. p) result
        (port_on place.now (is_seated seats.now) ports.now number address (at, link.now)) }
{
    if !is_legal(link.legal, address.as_slice()) {
        return Err(LoadFault::AddressNotLegal {
            place: place.copy(),
            link: link.name.copy(),
            legal: link.legal,
            address,
        });
    }
    if seats.find(at, &address).is_some() || has_address(ports, at, &address) {
        return Err(LoadFault::DoubleAddress {
            place: place.copy(),
            link: link.name.copy(),
            address,
        });
    }
    Ok(PortConfig {
        number,
        link: at,
        legal: link.legal,
        address,
    })
}

fn port_of_table(
    alloc: Global,
    table: &Table,
    place: &Place,
    links: &[Link],
    seats: &Seats,
    ports: &[PortConfig],
) -> Result<PortConfig, LoadFault>
    ensures { Gives (λ p. p) result
        (port_of_table place.now links.now (is_seated seats.now) ports.now
        (table_view table.now)) }
{
    let number = number(table, place, Key::Number, 1, 65535)? as u16;
    let number = new_number(place, ports, number)?;
    let name = text(table, place, Key::Link)?;
    let address = address(alloc, table, place)?;
    let (at, link) = link_named(place, links, name)?;
    port_on(place, seats, ports, number, address, at, link)
}

#[tactic(auto, unfolding(crate::specs::PortTables::port_of))]
fn port_of(
    alloc: Global,
    entry: &Value,
    place: &Place,
    links: &[Link],
    seats: &Seats,
    ports: &[PortConfig],
) -> Result<PortConfig, LoadFault>
    ensures { Gives (λ p. p) result
        (port_of place.now links.now (is_seated seats.now) ports.now (view entry.now)) }
{
    let table = table_of(entry, place, Key::Port)?;
    port_of_table(alloc, table, place, links, seats, ports)
}

fn ports_of(
    alloc: Global,
    entries: &[Value],
    place: &Place,
    links: &[Link],
    seats: &Seats,
) -> Result<Vec<PortConfig>, LoadFault>
    ensures { Gives (λ v. v.items) result
        (ports_after place.now links.now (is_seated seats.now) [] (items_view entries.now)) }
{
    let mut ports = Vec::new(alloc);
    for entry in entries {
        let inside = place.port(ports.len() + 1);
        let port = port_of(alloc, entry, &inside, links, seats, ports.as_slice())?;
        ports.push(port)?;
    }
    Ok(ports)
}

// As many ports as the kind has.
#[tactic(auto, using(crate::proofs::Entries::counts))]
fn right_ports<'a>(
    place: &Place,
    kind: ModuleKind,
    entries: &'a [Value],
) -> Result<&'a [Value], LoadFault>
    ensures { Gives (λ s. items_view s.now) result
        (right_ports place.now kind (items_view entries.now)) }
{
    let count = entries.len();
    if count > MAX_PORTS {
        return Err(LoadFault::Limit {
            key: Key::Port,
            place: place.copy(),
            count,
        });
    }
    if count == 0 || (kind == ModuleKind::Adapter && count > 1) {
        return Err(LoadFault::Range {
            key: Key::Port,
            place: place.copy(),
            found: Found::Count(count),
        });
    }
    Ok(entries)
}

/// The ports of a module.
pub(crate) fn ports(
    alloc: Global,
    table: &Table,
    place: &Place,
    links: &[Link],
    seats: &Seats,
    kind: ModuleKind,
) -> Result<Vec<PortConfig>, LoadFault>
    ensures { Gives (λ v. v.items) result
        (ports_at place.now links.now (is_seated seats.now) kind (table_view table.now)) }
{
    let entries = items(table, place, Key::Port)?;
    let entries = right_ports(place, kind, entries)?;
    ports_of(alloc, entries, place, links, seats)
}

fn has_instance(assemblies: &[AssemblyConfig], instance: u16) -> bool
    ensures { result ≡ list_any (has_instance instance) assemblies.now }
{
    assemblies
        .iter()
        .any(|assembly| assembly.instance == instance)
}

// No assembly of the module has the instance yet.
fn new_instance(
    place: &Place,
    assemblies: &[AssemblyConfig],
    instance: u16,
) -> Result<u16, LoadFault>
    ensures { Gives (λ n. n) result (new_instance place.now assemblies.now instance) }
{
    if has_instance(assemblies, instance) {
        return Err(LoadFault::Range {
            key: Key::Instance,
            place: place.copy(),
            found: Found::Integer(i64::from(instance)),
        });
    }
    Ok(instance)
}

fn assembly_of_table(
    table: &Table,
    place: &Place,
    assemblies: &[AssemblyConfig],
) -> Result<AssemblyConfig, LoadFault>
    ensures { Gives (λ a. a) result
        (assembly_of_table place.now assemblies.now (table_view table.now)) }
{
    let instance = number(table, place, Key::Instance, 1, 65535)? as u16;
    let instance = new_instance(place, assemblies, instance)?;
    let size = number(table, place, Key::Size, 0, MAX_DATUM as u32)? as u16;
    Ok(AssemblyConfig { instance, size })
}

#[tactic(auto, unfolding(crate::specs::PortTables::assembly_of))]
fn assembly_of(
    entry: &Value,
    place: &Place,
    assemblies: &[AssemblyConfig],
) -> Result<AssemblyConfig, LoadFault>
    ensures { Gives (λ a. a) result
        (assembly_of place.now assemblies.now (view entry.now)) }
{
    let table = table_of(entry, place, Key::Assembly)?;
    assembly_of_table(table, place, assemblies)
}

fn assemblies_of(
    alloc: Global,
    entries: &[Value],
    place: &Place,
) -> Result<Vec<AssemblyConfig>, LoadFault>
    ensures { Gives (λ v. v.items) result
        (assemblies_after place.now [] (items_view entries.now)) }
{
    let mut assemblies = Vec::new(alloc);
    for entry in entries {
        let inside = place.assembly(assemblies.len() + 1);
        let assembly = assembly_of(entry, &inside, assemblies.as_slice())?;
        assemblies.push(assembly)?;
    }
    Ok(assemblies)
}

/// The tables of a kind, at most so many; Limit where there are more.
#[tactic(auto, using(crate::proofs::Entries::counts))]
pub(crate) fn at_most<'a>(
    place: &Place,
    key: Key,
    most: usize,
    entries: &'a [Value],
) -> Result<&'a [Value], LoadFault>
    ensures is { Gives (λ s. items_view s.now) result
        (at_most place.now key most (items_view entries.now)) }
    ensures same { IfOk result (λ s. s.now ≡ entries.now) }
    ensures few { IfOk result (λ s. length s.now ≤ most) }
{
    if entries.len() > most {
        return Err(LoadFault::Limit {
            key,
            place: place.copy(),
            count: entries.len(),
        });
    }
    Ok(entries)
}

/// The assemblies of a module.
pub(crate) fn assemblies(
    alloc: Global,
    table: &Table,
    place: &Place,
) -> Result<Vec<AssemblyConfig>, LoadFault>
    ensures { Gives (λ v. v.items) result (assemblies_at place.now (table_view table.now)) }
{
    let entries = items(table, place, Key::Assembly)?;
    let entries = at_most(place, Key::Assembly, MAX_ASSEMBLIES, entries)?;
    assemblies_of(alloc, entries, place)
}
