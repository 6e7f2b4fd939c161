//! A topology: its links and modules, and where frames come in it.
ghost use Rattle.std.specs.Prelude.{◌≡◌, ◌↔◌, IfOk, IsTrue, option_map, slice_get, position, find};
ghost use Rattle.std.specs.Option.{option_copied};
ghost use Rattle.std.specs.Str.{bytes_eq};
ghost use Rattle.cip_config.specs.Config.{has_number};
ghost use Rattle.cip_chassis.specs.Plan.{IsTopology};
ghost use Rattle.cip_chassis.specs.Nodes.{own_port, node, across};
ghost use Rattle.cip_chassis.specs.Seats.{IsIndexOf};
ghost use Rattle.cip_chassis.specs.Ways.{way_of};

use crate::links::Link;
use crate::seats::Seats;
use cip_base::{Address, ModuleId, NoMemory, PortNumber};
use cip_config::{LegalAddresses, ModuleConfig, ModuleSettings, PortConfig};
use std::alloc::Global;
use std::marker::Model;

/// The links and the modules of a chassis, which keep every rule of a topology file. A contract
/// sees both lists, in the order of the file.
pub struct Topology {
    links: Vec<Link>,
    modules: Vec<ModuleConfig>,
    seats: Seats,
}

// (A derive would be written, and proved, anew in each crate above.)
impl Drop for Topology {
    fn drop(self) {
        let Topology {
            links: _,
            modules: _,
            seats: _,
        } = self;
    }
}

impl Model for Topology {
    ghost use Rattle.cip_chassis.specs.Plan.{Plan};

    ghost Value = { Plan };

    ghost use Rattle.cip_chassis.specs.Kept.{plan_of, IsKept};

    ghost view = { plan_of };

    ghost invariant = { IsKept };
}

/// Where a frame comes in: at which module, by which of its ports, and from which address.
#[derive(Clone, Copy, Debug)]
pub struct Arrival<'a> {
    pub at: ModuleId,
    pub port: PortNumber,
    pub from: &'a Address,
}

// The settings of the module at a place.
fn settings_at(configs: &[ModuleConfig], place: usize) -> Option<&ModuleSettings>
    ensures { option_copied result ≡ slice_get configs.now place }
{
    match configs.get(place) {
        Some(config) => Some(config.settings()),
        None => None,
    }
}

// The port of a number.
fn numbered(ports: &[PortConfig], number: PortNumber) -> Option<&PortConfig>
    ensures { option_copied result ≡ find (has_number number) ports.now }
{
    ports.iter().find(|port| port.number == number)
}

fn copy_links(alloc: Global, links: &[Link]) -> Result<Vec<Link>, NoMemory>
    ensures { IfOk result (λ v. v.items ≡ links.now) }
{
    let mut copies = Vec::new(alloc);
    for link in links {
        copies.push(link.copy())?;
    }
    Ok(copies)
}

fn copy_configs(alloc: Global, configs: &[ModuleConfig]) -> Result<Vec<ModuleConfig>, NoMemory>
    ensures { IfOk result (λ v. v.items ≡ configs.now) }
{
    let mut copies = Vec::new(alloc);
    for config in configs {
        let copy = config.copy(alloc)?;
        copies.push(copy)?;
    }
    Ok(copies)
}

fn are_same_addresses(left: LegalAddresses, right: LegalAddresses) -> bool
    ensures { IsTrue result ↔ (left ≡ right) }
{
    left == right
}

fn are_same_names(left: &[u8], right: &[u8]) -> bool
    ensures { IsTrue result ↔ (left.now ≡ right.now) }
{
    left == right
}

fn is_same_link(left: &Link, right: &Link) -> bool
    ensures { IsTrue result ↔ (left.now ≡ right.now) }
{
    are_same_names(left.name.as_slice(), right.name.as_slice())
        && are_same_addresses(left.legal, right.legal)
}

fn are_same_links(left: &[Link], right: &[Link]) -> bool
    ensures { IsTrue result ↔ (left.now ≡ right.now) }
{
    if left.len() != right.len() {
        return false;
    }
    for i in 0..left.len() {
        if !is_same_link(&left[i], &right[i]) {
            return false;
        }
    }
    true
}

fn are_same_configs(left: &[ModuleConfig], right: &[ModuleConfig]) -> bool
    ensures { IsTrue result ↔ (left.now ≡ right.now) }
{
    if left.len() != right.len() {
        return false;
    }
    for i in 0..left.len() {
        if !left[i].is(&right[i]) {
            return false;
        }
    }
    true
}

impl Topology {
    /// The topology of these links and modules, which keep every rule of a topology file. The index
    /// has the modules' ports, and no others.
    pub fn of(links: Vec<Link>, modules: Vec<ModuleConfig>, seats: Seats) -> Topology
        requires keeps { IsTopology (record { links = links.items; modules = modules.items }) }
        requires seated { IsIndexOf modules.items seats }
        ensures { result ≡ record { links = links.items; modules = modules.items } }
    {
        Topology {
            links,
            modules,
            seats: seats.with_notes(),
        }
    }

    /// A copy; NoMemory where an allocation is refused.
    pub fn copy(&self, alloc: Global) -> Result<Topology, NoMemory>
        ensures { IfOk result (λ t. t ≡ self.now) }
    {
        let links = copy_links(alloc, self.links.as_slice())?;
        let modules = copy_configs(alloc, self.modules.as_slice())?;
        let seats = self.seats.copy(alloc)?;
        Ok(Topology {
            links,
            modules,
            seats,
        })
    }

    /// Whether another topology is the same.
    pub fn is(&self, other: &Topology) -> bool
        ensures { IsTrue result ↔ (self.now ≡ other.now) }
    {
        are_same_links(self.links(), other.links())
            && are_same_configs(self.configs(), other.configs())
    }

    /// The links, in the order of the file.
    pub fn links(&self) -> &[Link]
        ensures { result.now ≡ self.now.links }
    {
        self.links.as_slice()
    }

    /// The modules, in the order of the file: the place of each is its `ModuleId`.
    pub fn configs(&self) -> &[ModuleConfig]
        ensures value { result.now ≡ self.now.modules }
        ensures keeps { IsTopology self.now }
    {
        self.modules.as_slice()
    }

    // The first place of this name, which is the only one.
    fn named(&self, name: &[u8]) -> Option<usize>
        ensures { result ≡ position (λ c. bytes_eq c.name name.now) self.now.modules }
    {
        self.modules
            .iter()
            .position(|config| config.settings().name.as_slice() == name)
    }

    /// The module of this name.
    pub fn by_name(&self, name: &[u8]) -> Option<ModuleId>
        ensures { option_map (λ m. m.0) result
            ≡ position (λ c. bytes_eq c.name name.now) self.now.modules }
    {
        match self.named(name) {
            Some(place) => Some(ModuleId(place)),
            None => None,
        }
    }

    /// The name of a module.
    pub fn name_of(&self, id: ModuleId) -> Option<&[u8]>
        ensures { option_copied result
            ≡ option_map (λ c. c.name) (slice_get self.now.modules id.0) }
    {
        let settings = settings_at(&self.modules, id.0)?;
        Some(settings.name.as_slice())
    }

    fn own_port(&self, id: ModuleId, number: PortNumber) -> Option<&PortConfig>
        ensures { option_copied result ≡ own_port self.now id.0 number }
    {
        let settings = settings_at(&self.modules, id.0)?;
        numbered(settings.ports.as_slice(), number)
    }

    /// The module with this address on the link of a module's port; None where the module has no
    /// such port, or no module has the address.
    pub fn node_at(&self, id: ModuleId, port: PortNumber, address: &Address) -> Option<ModuleId>
        ensures { option_map (λ m. m.0) result ≡ node self.now id.0 port address.now }
    {
        let own = self.own_port(id, port)?;
        let seat = self.seats.find(own.link, address)?;
        Some(ModuleId(seat.at))
    }

    /// Where a frame comes in that a module sends by a port to an address; None where it comes
    /// nowhere.
    pub fn across(&self, id: ModuleId, port: PortNumber, address: &Address) -> Option<Arrival<'_>>
        ensures { option_map way_of result
            ≡ across self.now (record { at = id.0; port = port; address = address.now }) }
    {
        let own = self.own_port(id, port)?;
        let seat = self.seats.find(own.link, address)?;
        Some(Arrival {
            at: ModuleId(seat.at),
            port: seat.port,
            from: &own.address,
        })
    }
}
