//! The `[[module]]` tables.
ghost use Rattle.std.specs.Prelude.{◌≡◌, ◌≤◌, ◌<◌, None, Some, [], IfOk, OnOk, IsTrue, MatchResult};
ghost use Rattle.std.specs.List.{list_any};
ghost use Rattle.std.specs.Str.{bytes_eq};
ghost use Rattle.toml.specs.View.{view, items_view, table_view};
ghost use Rattle.cip_topology.specs.declared.fault.LoadFault.TheVariants.{NoMemory};
ghost use Rattle.cip_chassis.specs.Plan.{AreLinks};
ghost use Rattle.cip_chassis.specs.Seats.{IsIndexOf, AreFree, all_seated};
ghost use Rattle.cip_topology.specs.PortTables.{ports_at};
ghost use Rattle.cip_topology.specs.ModuleTables.{kind_at, identity_at, counts_at, has_originator};
ghost use Rattle.cip_topology.specs.ModuleTables.{is_taken, named_settings, settings_of_table};
ghost use Rattle.cip_topology.specs.ModuleTables.{settings_of, modules_after};
ghost use Rattle.cip_topology.specs.Calls.{Gives};

use crate::fault::LoadFault;
use crate::key::Key;
use crate::place::Place;
use crate::port_tables::{assemblies, ports};
use crate::values::{
    clock, counted, name, number, number_or, out_of_range, product_name, table_of, value,
};
use cip_base::Bytes;
use cip_chassis::{Link, Name, Seat, Seats, Spot};
use cip_config::{Assemblies, ModuleConfig, ModuleKind, ModuleSettings, PortConfig, Ports};
use cip_target::{Identity, IdentityFields};
use std::alloc::Global;
use toml::{Table, Value};

/// With what a module begins, and its rooms.
#[derive(Clone, Copy)]
pub(crate) struct Counts {
    clock: u64,
    first_id: u32,
    first_number: u32,
    pending_room: usize,
    hop_room: usize,
}

fn kind(table: &Table, place: &Place) -> Result<ModuleKind, LoadFault>
    ensures { Gives (λ k. k) result (kind_at place.now (table_view table.now)) }
{
    let kind = value(table, place, Key::Kind)?;
    match kind.as_str() {
        Some("plain") => Ok(ModuleKind::Plain),
        Some("adapter") => Ok(ModuleKind::Adapter),
        Some("indexed") => Ok(ModuleKind::Indexed),
        _ => Err(out_of_range(place, Key::Kind, kind)),
    }
}

fn identity(alloc: Global, table: &Table, place: &Place) -> Result<Identity, LoadFault>
    ensures { Gives (λ i. i) result (identity_at place.now (table_view table.now)) }
{
    let vendor = number(table, place, Key::Vendor, 0, 65535)? as u16;
    let device_type = number(table, place, Key::DeviceType, 0, 65535)? as u16;
    let product = number(table, place, Key::Product, 0, 65535)? as u16;
    let major = number(table, place, Key::Major, 0, 127)? as u8;
    let minor = number(table, place, Key::Minor, 0, 255)? as u8;
    let status = number_or(table, place, Key::Status, 0, 0, 65535)? as u16;
    let serial = number(table, place, Key::Serial, 0, u32::MAX)?;
    let name = product_name(alloc, table, place)?;
    let fields = IdentityFields {
        vendor,
        device_type,
        product,
        major,
        minor,
        status,
        serial,
        name,
    };
    match Identity::new(fields) {
        Some(identity) => Ok(identity),
        None => unreachable!(),
    }
}

fn counts_of(table: &Table, place: &Place) -> Result<Counts, LoadFault>
    ensures { Gives (λ c. c) result (counts_at place.now (table_view table.now)) }
{
    let clock = clock(table, place)?;
    let first_id = counted(table, place, Key::FirstId)?;
    let first_number = counted(table, place, Key::FirstNumber)?;
    let pending_room = number_or(table, place, Key::PendingRoom, 256, 1, 256)? as usize;
    let hop_room = number_or(table, place, Key::HopRoom, 256, 1, 256)? as usize;
    Ok(Counts {
        clock,
        first_id,
        first_number,
        pending_room,
        hop_room,
    })
}

fn has_name(modules: &[ModuleConfig], name: &Name) -> bool
    ensures { result ≡ list_any (λ c. bytes_eq c.name name.now) modules.now }
{
    modules.iter().any(|config| config.settings().name.as_slice() == name.as_slice())
}

fn has_originator(modules: &[ModuleConfig], own: &IdentityFields) -> bool
    ensures { result ≡ list_any (has_originator own.now) modules.now }
{
    modules.iter().any(|config| {
        let fields = config.settings().identity.fields();
        fields.vendor == own.vendor && fields.serial == own.serial
    })
}

// The ports of a module behind these, which the index has.
fn own_ports(
    alloc: Global,
    table: &Table,
    place: &Place,
    links: &[Link],
    modules: &[ModuleConfig],
    seats: &Seats,
    kind: ModuleKind,
) -> Result<Vec<PortConfig>, LoadFault>
    requires { IsIndexOf modules.now seats.now }
    ensures { Gives (λ v. v.items) result
        (ports_at place.now links.now (is_taken modules.now) kind (table_view table.now)) }
{
    ports(alloc, table, place, links, seats, kind)
}

fn named_settings(
    alloc: Global,
    table: &Table,
    place: &Place,
    name: &Name,
    links: &[Link],
    modules: &[ModuleConfig],
    seats: &Seats,
) -> Result<ModuleSettings, LoadFault>
    requires { IsIndexOf modules.now seats.now }
    ensures { Gives (λ s. s) result
        (named_settings place.now name.now links.now modules.now (table_view table.now)) }
{
    let kind = kind(table, place)?;
    let identity = identity(alloc, table, place)?;
    let counts = counts_of(table, place)?;
    if has_name(modules, name) {
        return Err(LoadFault::DoubleName {
            place: place.copy(),
        });
    }
    let ports = own_ports(alloc, table, place, links, modules, seats, kind)?;
    let assemblies = assemblies(alloc, table, place)?;
    if has_originator(modules, identity.fields()) {
        return Err(LoadFault::DoubleOriginator {
            place: place.copy(),
            vendor: identity.fields().vendor,
            serial: identity.fields().serial,
        });
    }
    Ok(ModuleSettings {
        name: Bytes::of(Vec::from_slice(alloc, name.as_slice())?),
        kind,
        identity,
        clock: counts.clock,
        first_id: counts.first_id,
        first_number: counts.first_number,
        pending_room: counts.pending_room,
        hop_room: counts.hop_room,
        ports: Ports::of(ports),
        assemblies: Assemblies::of(assemblies),
    })
}

fn settings_of_table(
    alloc: Global,
    number: usize,
    links: &[Link],
    modules: &[ModuleConfig],
    seats: &Seats,
    table: &Table,
) -> Result<ModuleSettings, LoadFault>
    requires { IsIndexOf modules.now seats.now }
    ensures { Gives (λ s. s) result
        (settings_of_table number links.now modules.now (table_view table.now)) }
{
    let name = name(table, &Place::Module { number, name: None })?;
    let place = Place::Module {
        number,
        name: Some(name.copy()),
    };
    named_settings(alloc, table, &place, &name, links, modules, seats)
}

#[tactic(auto, unfolding(crate::specs::ModuleTables::settings_of))]
fn settings_of(
    alloc: Global,
    number: usize,
    links: &[Link],
    modules: &[ModuleConfig],
    seats: &Seats,
    entry: &Value,
) -> Result<ModuleSettings, LoadFault>
    requires { IsIndexOf modules.now seats.now }
    ensures { Gives (λ s. s) result
        (settings_of number links.now modules.now (view entry.now)) }
{
    let place = Place::Module { number, name: None };
    let table = table_of(entry, &place, Key::Module)?;
    settings_of_table(alloc, number, links, modules, seats, table)
}

fn config_of(
    alloc: Global,
    number: usize,
    links: &[Link],
    modules: &[ModuleConfig],
    seats: &Seats,
    entry: &Value,
) -> Result<ModuleConfig, LoadFault>
    requires links { AreLinks links.now }
    requires index { IsIndexOf modules.now seats.now }
    ensures { Gives (λ c. c) result
        (settings_of number links.now modules.now (view entry.now)) }
{
    let settings = settings_of(alloc, number, links, modules, seats, entry)?;
    match ModuleConfig::new(settings) {
        Some(config) => Ok(config),
        None => unreachable!(),
    }
}

// Seats the ports of one more module.
fn seat(seats: &mut Seats, at: usize, ports: &[PortConfig]) -> Result<(), LoadFault>
    requires { AreFree at ports.now seats.old }
    ensures { MatchResult result (λ done. seats.new ≡ all_seated at ports.now seats.old)
        (λ e. e ≡ NoMemory) }
{
    for port in ports {
        let spot = Spot {
            link: port.link,
            address: port.address.copy(),
        };
        let seat = Seat {
            at,
            port: port.number,
        };
        seats.add(spot, seat).map_err(|_| LoadFault::NoMemory)?;
    }
    Ok(())
}

/// The modules of the `[[module]]` entries on these links, in their order, and the index of their
/// ports; the fault is the first rule that one breaks, or NoMemory where an allocation is refused.
pub(crate) fn modules(
    alloc: Global,
    links: &[Link],
    entries: &[Value],
) -> Result<(Vec<ModuleConfig>, Seats), LoadFault>
    requires { AreLinks links.now }
    ensures is { Gives (λ v. v.0.items) result
        (modules_after links.now [] (items_view entries.now)) }
    ensures index { IfOk result (λ v. IsIndexOf v.0.items v.1) }
{
    let mut modules = Vec::new(alloc);
    let mut seats = Seats::new(alloc);
    for entry in entries {
        let number = modules.len() + 1;
        let config = config_of(alloc, number, links, modules.as_slice(), &seats, entry)?;
        let ports = config.settings().ports.as_slice();
        seat(&mut seats, modules.len(), ports)?;
        modules.push(config)?;
    }
    Ok((modules, seats))
}
