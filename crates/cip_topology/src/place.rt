//! Where in a topology file a fault is.
ghost use Rattle.std.specs.Prelude.{◌≡◌, Option, Some, None};
ghost use Rattle.cip_topology.specs.Faults.{port_in, assembly_in};

use cip_chassis::Name;
use std::fmt;

/// A table of the file. Tables are numbered from 1, in the order of the file; a name is None where
/// it can't be read.
#[derive(Debug, Drop)]
pub enum Place {
    /// The file itself.
    File,
    /// A `[[link]]`.
    Link {
        number: usize,
        name: Option<Name>,
    },
    /// A `[[module]]`.
    Module {
        number: usize,
        name: Option<Name>,
    },
    /// A `[[module.port]]` of that module.
    Port {
        number: usize,
        name: Option<Name>,
        port: usize,
    },
    /// A `[[module.assembly]]` of that module.
    Assembly {
        number: usize,
        name: Option<Name>,
        assembly: usize,
    },
}

fn copy_name(name: &Option<Name>) -> Option<Name>
    ensures { result ≡ name.now }
{
    match name {
        Some(name) => Some(name.copy()),
        None => None,
    }
}

impl Place {
    /// A copy.
    pub fn copy(&self) -> Place
        ensures { result ≡ self.now }
    {
        match self {
            Place::File => Place::File,
            Place::Link { number, name } => Place::Link {
                number: *number,
                name: copy_name(name),
            },
            Place::Module { number, name } => Place::Module {
                number: *number,
                name: copy_name(name),
            },
            Place::Port { number, name, port } => Place::Port {
                number: *number,
                name: copy_name(name),
                port: *port,
            },
            Place::Assembly {
                number,
                name,
                assembly,
            } => Place::Assembly {
                number: *number,
                name: copy_name(name),
                assembly: *assembly,
            },
        }
    }

    // A port of the module.
    pub(crate) fn port(&self, port: usize) -> Place
        ensures { result ≡ port_in self.now port }
    {
        match self {
            Place::Module { number, name } => Place::Port {
                number: *number,
                name: copy_name(name),
                port,
            },
            other => other.copy(),
        }
    }

    // An assembly of the module.
    pub(crate) fn assembly(&self, assembly: usize) -> Place
        ensures { result ≡ assembly_in self.now assembly }
    {
        match self {
            Place::Module { number, name } => Place::Assembly {
                number: *number,
                name: copy_name(name),
                assembly,
            },
            other => other.copy(),
        }
    }
}

// A name in brackets, where there is one.
#[derive(Clone, Copy)]
struct Named<'a>(&'a Option<Name>);

impl fmt::Display for Named<'_> {
    fn fmt<W: fmt::Write>(&self, f: &mut fmt::Formatter<W>) -> fmt::Result {
        match self.0 {
            Some(name) => write!(f, " ({name})"),
            None => Ok(()),
        }
    }
}

fn write_table<W: fmt::Write>(
    f: &mut fmt::Formatter<W>,
    table: &str,
    number: usize,
    name: &Option<Name>,
) -> fmt::Result {
    write!(f, "[[{table}]] {number}{}", Named(name))
}

impl fmt::Display for Place {
    fn fmt<W: fmt::Write>(&self, f: &mut fmt::Formatter<W>) -> fmt::Result {
        match self {
            Place::File => f.write_str("the file"),
            Place::Link { number, name } => write_table(f, "link", *number, name),
            Place::Module { number, name } => write_table(f, "module", *number, name),
            Place::Port { number, name, port } => {
                write_table(f, "module", *number, name)?;
                write!(f, ", [[module.port]] {port}")
            }
            Place::Assembly {
                number,
                name,
                assembly,
            } => {
                write_table(f, "module", *number, name)?;
                write!(f, ", [[module.assembly]] {assembly}")
            }
        }
    }
}
