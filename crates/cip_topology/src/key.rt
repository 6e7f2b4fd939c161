//! The keys of a topology file.
ghost use Rattle.std.specs.Prelude.{◌≡◌};
ghost use Rattle.cip_topology.specs.Words.{word_of};

use crate::place::Place;
use std::fmt;

/// A key of a topology file.
#[derive(Clone, Copy, Debug, PartialEq, Eq)]
pub enum Key {
    Link,
    Module,
    Name,
    Kind,
    First,
    Last,
    Longest,
    Vendor,
    DeviceType,
    Product,
    Major,
    Minor,
    Status,
    Serial,
    ProductName,
    Clock,
    FirstId,
    FirstNumber,
    PendingRoom,
    HopRoom,
    Port,
    Number,
    Address,
    Assembly,
    Instance,
    Size,
}

impl Key {
    /// The key as the file spells it.
    pub fn word(self) -> &'static str
        ensures { result.now ≡ word_of self }
    {
        match self {
            Key::Link => "link",
            Key::Module => "module",
            Key::Name => "name",
            Key::Kind => "kind",
            Key::First => "first",
            Key::Last => "last",
            Key::Longest => "longest",
            Key::Vendor => "vendor",
            Key::DeviceType => "device_type",
            Key::Product => "product",
            Key::Major => "major",
            Key::Minor => "minor",
            Key::Status => "status",
            Key::Serial => "serial",
            Key::ProductName => "product_name",
            Key::Clock => "clock",
            Key::FirstId => "first_id",
            Key::FirstNumber => "first_number",
            Key::PendingRoom => "pending_room",
            Key::HopRoom => "hop_room",
            Key::Port => "port",
            Key::Number => "number",
            Key::Address => "address",
            Key::Assembly => "assembly",
            Key::Instance => "instance",
            Key::Size => "size",
        }
    }

    // The header of the tables that the key holds, or the key itself.
    pub(crate) fn table(self) -> &'static str {
        match self {
            Key::Port => "module.port",
            Key::Assembly => "module.assembly",
            other => other.word(),
        }
    }

    // What the file may say at the key, as a fault tells it.
    fn allowed(self, place: &Place) -> &'static str {
        match self {
            Key::Link => match place {
                Place::Port { .. } => "the name of a link",
                _ => "[[link]] tables",
            },
            Key::Module => "[[module]] tables",
            Key::Name => "1 to 16 ASCII letters, digits, `_` or `-`",
            Key::Kind => match place {
                Place::Link { .. } => "\"byte\" or \"text\"",
                _ => "\"plain\", \"adapter\" or \"indexed\"",
            },
            Key::First => "0 to 255",
            Key::Last => "`first` to 255",
            Key::Longest => "1 to 16",
            Key::Vendor | Key::DeviceType | Key::Product | Key::Status => "0 to 65535",
            Key::Major => "0 to 127",
            Key::Minor => "0 to 255",
            Key::Serial => "0 to 4294967295",
            Key::ProductName => "0 to 32 characters from 20 to 7E",
            Key::Clock => "0 to 9223372036854775807",
            Key::FirstId | Key::FirstNumber => { "1 to 4294967295, and not 0 in its low 16 bits" }
            Key::PendingRoom | Key::HopRoom => "1 to 256",
            Key::Port => "[[module.port]] tables, 1 to 8, of an adapter exactly 1",
            Key::Number => "1 to 65535, each once in a module",
            Key::Address => "1 to 16 pairs of hexadecimal digits",
            Key::Assembly => "[[module.assembly]] tables",
            Key::Instance => "1 to 65535, each once in a module",
            Key::Size => "0 to 65535",
        }
    }
}

impl fmt::Display for Key {
    fn fmt<W: fmt::Write>(&self, f: &mut fmt::Formatter<W>) -> fmt::Result {
        f.write_str(self.word())
    }
}

/// What the file may say at a key of a table, to be shown.
#[derive(Clone, Copy)]
pub(crate) struct Allowed<'a>(pub(crate) Key, pub(crate) &'a Place);

impl fmt::Display for Allowed<'_> {
    fn fmt<W: fmt::Write>(&self, f: &mut fmt::Formatter<W>) -> fmt::Result {
        f.write_str(self.0.allowed(self.1))
    }
}
