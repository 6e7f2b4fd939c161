//! The chassis over which the lines are played.
use crate::fault::Fault;
use cip_topology::{CHASSIS, Topology, load};
use std::alloc::Global;

/// A chassis, or another plant.
#[derive(Clone, Copy)]
pub enum Plant {
    /// Scanner and bridges are plain.
    Plain,
    /// They are indexed.
    Indexed,
    /// They are plain, and the scanner's clock has come to its end.
    Late,
    /// They are plain, and a second scanner S2 stands on the network of the first.
    TwoScanners,
    /// No chassis: one module M with two ports on one link.
    TwoPorts,
}

// A scanner like S, at another address of its network.
const SECOND_SCANNER: &str = r#"
[[module]]
name = "S2"
kind = "plain"
vendor = 0x0101
device_type = 14
product = 9
major = 1
minor = 3
serial = 0x0A0B0C0E
product_name = "SC"
first_id = 0x51

[[module.port]]
number = 2
link = "LAN"
address = "02"
"#;

const TWO_PORTS_ON_ONE_LINK: &str = r#"
[[link]]
name = "L"
kind = "byte"
first = 0
last = 9

[[module]]
name = "M"
kind = "plain"
vendor = 0x0101
device_type = 14
product = 9
major = 1
minor = 3
serial = 0x0A0B0C0D
product_name = "SC"

[[module.port]]
number = 1
link = "L"
address = "03"

[[module.port]]
number = 2
link = "L"
address = "04"
"#;

const SCANNER: &str = "first_id = 0x11\n";

const LATE_SCANNER: &str = "first_id = 0x11\nclock = 9223372036854775807\n";

impl Plant {
    /// The chassis of this name.
    pub fn of(name: &str) -> Option<Plant> {
        match name {
            "plain" => Some(Plant::Plain),
            "indexed" => Some(Plant::Indexed),
            "late" => Some(Plant::Late),
            "two" => Some(Plant::TwoScanners),
            "ports" => Some(Plant::TwoPorts),
            _ => None,
        }
    }

    // Its topology file.
    fn text(self, alloc: Global) -> Result<String, Fault> {
        let text = match self {
            Plant::Plain => String::from_str(alloc, CHASSIS)?,
            Plant::Indexed => CHASSIS.replace(alloc, "\"plain\"", "\"indexed\"")?,
            Plant::Late => CHASSIS.replace(alloc, SCANNER, LATE_SCANNER)?,
            Plant::TwoScanners => format!(in alloc; "{CHASSIS}{SECOND_SCANNER}")?,
            Plant::TwoPorts => String::from_str(alloc, TWO_PORTS_ON_ONE_LINK)?,
        };
        Ok(text)
    }

    /// Its topology.
    pub fn topology(self, alloc: Global) -> Result<Topology, Fault> {
        let text = self.text(alloc)?;
        Ok(load(alloc, text.as_str())?)
    }
}
