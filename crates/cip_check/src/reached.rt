//! Modules that no path reaches.

ghost use Rattle.std.specs.Prelude.{◌≡◌};

use crate::report::Report;
use cip_config::ModuleConfig;
use cip_topology::Topology;
use std::alloc::{AllocError, Global};
use std::fmt;

#[derive(Clone, Copy)]
struct Lonely<'a>(&'a [u8]);

impl fmt::Display for Lonely<'_> {
    fn fmt<W: fmt::Write>(&self, f: &mut fmt::Formatter<W>) -> fmt::Result {
        let name = std::str::from_utf8(self.0).unwrap_or("");
        write!(
            f,
            "no other module stands on a link of {name}: no path reaches it"
        )
    }
}

fn is_on(config: &ModuleConfig, link: usize) -> bool {
    config
        .settings()
        .ports
        .as_slice()
        .iter()
        .any(|port| port.link == link)
}

// Whether two modules stand on one link.
fn meet(one: &ModuleConfig, other: &ModuleConfig) -> bool {
    for port in one.settings().ports.as_slice() {
        if is_on(other, port.link) {
            return true;
        }
    }
    false
}

// Whether another module stands on a link of this one.
fn has_neighbour(configs: &[ModuleConfig], place: usize, config: &ModuleConfig) -> bool {
    for (i, other) in configs.iter().enumerate() {
        if i != place && meet(config, other) {
            return true;
        }
    }
    false
}

/// Warns of each module that no path reaches: on its links stands no other.
pub(crate) fn unreached(
    alloc: Global,
    topology: &Topology,
    report: &mut Report,
) -> Result<(), AllocError>
    ensures { report.new.faults ≡ report.old.faults }
{
    let configs = topology.configs();
    'modules: for (i, config) in configs.iter().enumerate() {
        if !has_neighbour(configs, i, config) {
            report.warn(alloc, &Lonely(config.settings().name.as_slice()))?;
        }
    }
    Ok(())
}
