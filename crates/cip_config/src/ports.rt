//! The ports of a module.
ghost use Rattle.std.specs.Prelude.{◌≡◌};
ghost use Rattle.std.specs.Option.{option_copied};
ghost use Rattle.cip_config.specs.Config.{port_of};

use crate::config::{ModuleSettings, PortConfig};
use cip_base::PortNumber;

/// The port of a number, if the module has it.
pub fn port_of(settings: &ModuleSettings, number: PortNumber) -> Option<&PortConfig>
    ensures { option_copied result ≡ port_of settings.now number }
{
    settings
        .ports
        .as_slice()
        .iter()
        .find(|port| port.number == number)
}
