//! The links of a chassis.
ghost use Rattle.std.specs.Prelude.{◌≡◌};

use crate::name::Name;
use cip_config::LegalAddresses;

/// A link: its name, and the addresses that are legal on it.
#[derive(Debug, Drop)]
pub struct Link {
    pub name: Name,
    pub legal: LegalAddresses,
}

impl Link {
    /// A copy. It takes no memory.
    pub fn copy(&self) -> Link
        ensures { result ≡ self.now }
    {
        Link {
            name: self.name.copy(),
            legal: self.legal,
        }
    }
}
