//! Copies of configs.
ghost use Rattle.std.specs.Prelude.{◌≡◌, IfOk};

use crate::config::{ModuleConfig, ModuleSettings, PortConfig};
use crate::lists::{Assemblies, Ports};
use cip_base::{Bytes, NoMemory};
use std::alloc::Global;

impl PortConfig {
    /// A copy. It takes no memory.
    pub fn copy(&self) -> PortConfig
        ensures { result ≡ self.now }
    {
        PortConfig {
            number: self.number,
            link: self.link,
            legal: self.legal,
            address: self.address.copy(),
        }
    }
}

fn copy_ports(alloc: Global, ports: &[PortConfig]) -> Result<Vec<PortConfig>, NoMemory>
    ensures { IfOk result (λ v. v.items ≡ ports.now) }
{
    let mut copies = Vec::new(alloc);
    for port in ports {
        copies.push(port.copy())?;
    }
    Ok(copies)
}

impl ModuleSettings {
    /// A copy; NoMemory where an allocation is refused.
    pub fn copy(&self, alloc: Global) -> Result<ModuleSettings, NoMemory>
        ensures { IfOk result (λ s. s ≡ self.now) }
    {
        let name = Bytes::of(Vec::from_slice(alloc, self.name.as_slice())?);
        let identity = self.identity.copy(alloc)?;
        let ports = Ports::of(copy_ports(alloc, self.ports.as_slice())?);
        let assemblies = Assemblies::of(Vec::from_slice(alloc, self.assemblies.as_slice())?);
        Ok(ModuleSettings {
            name,
            kind: self.kind,
            identity,
            clock: self.clock,
            first_id: self.first_id,
            first_number: self.first_number,
            pending_room: self.pending_room,
            hop_room: self.hop_room,
            ports,
            assemblies,
        })
    }
}

impl ModuleConfig {
    /// A copy; NoMemory where an allocation is refused.
    pub fn copy(&self, alloc: Global) -> Result<ModuleConfig, NoMemory>
        ensures { IfOk result (λ c. c ≡ self.now) }
    {
        let settings = self.settings().copy(alloc)?;
        Ok(ModuleConfig::of(settings))
    }
}
