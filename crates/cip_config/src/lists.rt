//! Lists in public types, which a contract sees as lists.
ghost use Rattle.std.specs.Prelude.{◌≡◌};

use crate::config::PortConfig;
use cip_target::AssemblyConfig;
use std::marker::Model;

/// The ports of a module, in the order of its topology.
pub struct Ports {
    ports: Vec<PortConfig>,
}

// (A derive would be written, and proved, anew in each crate above.)
impl Drop for Ports {
    fn drop(self) {
        let Ports { ports: _ } = self;
    }
}

impl Model for Ports {
    ghost use Rattle.std.specs.Prelude.{List};
    ghost use Rattle.cip_config.specs.declared.config.PortConfig.{PortConfig};

    ghost Value = { List PortConfig };

    ghost view = { λ p. p.ports.items };
}

impl Ports {
    /// The ports of the vector.
    pub fn of(ports: Vec<PortConfig>) -> Ports
        ensures { result ≡ ports.items }
    {
        Ports { ports }
    }

    /// The ports, borrowed.
    pub fn as_slice(&self) -> &[PortConfig]
        ensures { result.now ≡ self.now }
    {
        self.ports.as_slice()
    }
}

/// The assemblies of a module, in the order of its topology.
pub struct Assemblies {
    assemblies: Vec<AssemblyConfig>,
}

// (A derive would be written, and proved, anew in each crate above.)
impl Drop for Assemblies {
    fn drop(self) {
        let Assemblies { assemblies: _ } = self;
    }
}

impl Model for Assemblies {
    ghost use Rattle.std.specs.Prelude.{List};
    ghost use Rattle.cip_target.specs.declared.config.AssemblyConfig.{AssemblyConfig};

    ghost Value = { List AssemblyConfig };

    ghost view = { λ a. a.assemblies.items };
}

impl Assemblies {
    /// The assemblies of the vector.
    pub fn of(assemblies: Vec<AssemblyConfig>) -> Assemblies
        ensures { result ≡ assemblies.items }
    {
        Assemblies { assemblies }
    }

    /// The assemblies, borrowed.
    pub fn as_slice(&self) -> &[AssemblyConfig]
        ensures { result.now ≡ self.now }
    {
        self.assemblies.as_slice()
    }
}
