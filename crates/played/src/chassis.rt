//! The modules of the harness: a scanner S, the bridges A and B behind it, and behind these the
//! adapter E.
use cip_base::{Address, Bytes, NoMemory, PortNumber};
use cip_indexed::IndexedModule;
use cip_module::{
    AdapterModule, Assemblies, Event, LegalAddresses, Module, ModuleConfig, ModuleKind,
    ModuleSettings, Output, PlainModule, PortConfig, Ports, StepFault, Tables,
};
use cip_target::{AssemblyConfig, Identity, IdentityFields};
use std::alloc::Global;

/// A link: its place, and the last of the bytes that are addresses on it.
#[derive(Clone, Copy)]
struct Link {
    place: usize,
    last: u8,
}

// The network of the scanner, the backplane, and the network below the second bridge.
const LAN: Link = Link {
    place: 0,
    last: 0xFE,
};

const RACK: Link = Link {
    place: 1,
    last: 0x10,
};

const SUB: Link = Link {
    place: 2,
    last: 0x3F,
};

/// What the modules differ in, and what a script sets.
#[derive(Clone, Copy)]
pub struct Device {
    name: &'static str,
    kind: ModuleKind,
    product_name: &'static str,
    device_type: u16,
    product: u16,
    serial: u32,
    clock: u64,
    first_id: u32,
    first_number: u32,
    pending_room: usize,
    hop_room: usize,
    ports: &'static [(u16, Link, u8)],
    assemblies: &'static [AssemblyConfig],
}

/// The modules' names, in their order.
pub const NAMES: [&str; 4] = ["S", "A", "B", "E"];

const SCANNER: Device = Device {
    name: "S",
    kind: ModuleKind::Plain,
    product_name: "SC",
    device_type: 14,
    product: 9,
    serial: 0x0A0B_0C0D,
    clock: 0,
    first_id: 0x11,
    first_number: 1,
    pending_room: 256,
    hop_room: 256,
    ports: &[(2, LAN, 0x01)],
    assemblies: &[],
};

const BRIDGE: Device = Device {
    name: "A",
    product_name: "AR",
    device_type: 12,
    product: 1,
    serial: 0x0A0A,
    first_id: 0x21,
    ports: &[(2, LAN, 0x05), (1, RACK, 0x00)],
    ..SCANNER
};

const SECOND_BRIDGE: Device = Device {
    name: "B",
    product_name: "BR",
    device_type: 12,
    product: 2,
    serial: 0x0B0B,
    first_id: 0x31,
    ports: &[(1, RACK, 0x03), (2, SUB, 0x01)],
    ..SCANNER
};

const ADAPTER: Device = Device {
    name: "E",
    kind: ModuleKind::Adapter,
    product_name: "EA",
    device_type: 12,
    product: 3,
    serial: 0x0E0E,
    first_id: 0x41,
    ports: &[(2, SUB, 0x07)],
    assemblies: &[
        AssemblyConfig {
            instance: 100,
            size: 0,
        },
        AssemblyConfig {
            instance: 101,
            size: 4,
        },
        AssemblyConfig {
            instance: 102,
            size: 2,
        },
        AssemblyConfig {
            instance: 103,
            size: 4,
        },
    ],
    ..SCANNER
};

/// Assemblies of which some have an odd size.
const ODD_SIZES: [AssemblyConfig; 4] = [
    AssemblyConfig {
        instance: 100,
        size: 3,
    },
    AssemblyConfig {
        instance: 101,
        size: 4,
    },
    AssemblyConfig {
        instance: 102,
        size: 2,
    },
    AssemblyConfig {
        instance: 103,
        size: 5,
    },
];

/// Of which kind the scanner and the bridges are. The adapter is one whatever they are.
#[derive(Clone, Copy)]
pub enum Kinds {
    /// Each is plain.
    Plain,
    /// Each is indexed.
    Indexed,
    /// The bridge A is indexed, among plain ones.
    OneIndexed,
}

impl Kinds {
    // Whether this device is indexed.
    fn is_indexed(self, device: &Device) -> bool {
        match self {
            Kinds::Plain => false,
            Kinds::Indexed => device.kind == ModuleKind::Plain,
            Kinds::OneIndexed => device.name == BRIDGE.name,
        }
    }
}

fn plain_device_of(name: &str) -> Option<Device> {
    match name {
        "S" => Some(SCANNER),
        "A" => Some(BRIDGE),
        "B" => Some(SECOND_BRIDGE),
        "E" => Some(ADAPTER),
        _ => None,
    }
}

/// The device of this name, with the settings that a topology gives it where it says nothing.
pub fn device_of(name: &str, kinds: Kinds) -> Option<Device> {
    let mut device = plain_device_of(name)?;
    if kinds.is_indexed(&device) {
        device.kind = ModuleKind::Indexed;
    }
    Some(device)
}

// The kind of a module, by its number: 0 plain, 1 indexed, 2 adapter.
fn kind_of(number: u64) -> Option<ModuleKind> {
    match number {
        0 => Some(ModuleKind::Plain),
        1 => Some(ModuleKind::Indexed),
        2 => Some(ModuleKind::Adapter),
        _ => None,
    }
}

/// Assemblies of which one has more bytes than a Forward_Open can ask for.
const LARGE_SIZES: [AssemblyConfig; 5] = [
    AssemblyConfig {
        instance: 100,
        size: 0,
    },
    AssemblyConfig {
        instance: 101,
        size: 4,
    },
    AssemblyConfig {
        instance: 102,
        size: 2,
    },
    AssemblyConfig {
        instance: 103,
        size: 4,
    },
    AssemblyConfig {
        instance: 110,
        size: 600,
    },
];

// The assemblies of a module, by a number: 0 those of the adapter, 1 those of odd sizes, 2 those of
// which one is large.
fn sizes_of(number: u64) -> Option<&'static [AssemblyConfig]> {
    match number {
        0 => Some(ADAPTER.assemblies),
        1 => Some(&ODD_SIZES),
        2 => Some(&LARGE_SIZES),
        _ => None,
    }
}

impl Device {
    /// Its name.
    pub(crate) fn name(&self) -> &'static str {
        self.name
    }

    /// The device with one setting changed.
    pub(crate) fn with(mut self, key: &str, value: u64) -> Option<Device> {
        match key {
            "kind" => self.kind = kind_of(value)?,
            "sizes" => self.assemblies = sizes_of(value)?,
            "clock" => self.clock = value,
            "first_id" => self.first_id = u32::try_from(value).ok()?,
            "first_number" => self.first_number = u32::try_from(value).ok()?,
            "pending_room" => self.pending_room = usize::try_from(value).ok()?,
            "hop_room" => self.hop_room = usize::try_from(value).ok()?,
            _ => return None,
        }
        Some(self)
    }
}

fn port((number, link, address): (u16, Link, u8)) -> Option<PortConfig> {
    Some(PortConfig {
        number: PortNumber::new(number)?,
        link: link.place,
        legal: LegalAddresses::Byte {
            first: 0,
            last: link.last,
        },
        address: Address::read(&[address]).ok()?,
    })
}

fn ports(alloc: Global, device: &Device) -> Option<Ports> {
    let mut ports = Vec::new(alloc);
    for row in device.ports {
        ports.push(port(*row)?).ok()?;
    }
    Some(Ports::of(ports))
}

fn bytes(alloc: Global, text: &str) -> Option<Bytes> {
    Some(Bytes::of(Vec::from_slice(alloc, text.as_bytes()).ok()?))
}

fn identity(alloc: Global, device: &Device) -> Option<Identity> {
    Identity::new(IdentityFields {
        vendor: 0x0101,
        device_type: device.device_type,
        product: device.product,
        major: 1,
        minor: 3,
        status: 0,
        serial: device.serial,
        name: bytes(alloc, device.product_name)?,
    })
}

fn settings(alloc: Global, device: &Device) -> Option<ModuleSettings> {
    let name = bytes(alloc, device.name)?;
    let identity = identity(alloc, device)?;
    let ports = ports(alloc, device)?;
    let assemblies = Assemblies::of(Vec::from_slice(alloc, device.assemblies).ok()?);
    Some(ModuleSettings {
        name,
        kind: device.kind,
        identity,
        clock: device.clock,
        first_id: device.first_id,
        first_number: device.first_number,
        pending_room: device.pending_room,
        hop_room: device.hop_room,
        ports,
        assemblies,
    })
}

// A copy of the config of a device.
fn config(alloc: Global, device: &Device) -> Option<ModuleConfig> {
    let config = ModuleConfig::new(settings(alloc, device)?)?;
    config.copy(alloc).ok()
}

/// A module of any kind.
#[derive(Drop)]
pub enum AnyModule {
    Plain(PlainModule),
    Adapter(AdapterModule),
    Indexed(IndexedModule),
}

impl AnyModule {
    /// Takes one event.
    pub fn step(&mut self, event: Event) -> Result<Vec<Output>, StepFault> {
        match self {
            AnyModule::Plain(module_) => module_.step(event),
            AnyModule::Adapter(module_) => module_.step(event),
            AnyModule::Indexed(module_) => module_.step(event),
        }
    }

    /// The state.
    pub(crate) fn tables(&self) -> Result<Tables, NoMemory> {
        match self {
            AnyModule::Plain(module_) => module_.tables(),
            AnyModule::Adapter(module_) => module_.tables(),
            AnyModule::Indexed(module_) => module_.tables(),
        }
    }
}

/// The module of a device. It is made of a copy of its config. None where an allocation is refused
/// or a setting is out of its range.
pub fn make(alloc: Global, device: &Device) -> Option<AnyModule> {
    let config = config(alloc, device)?;
    match config.settings().kind {
        ModuleKind::Plain => Some(AnyModule::Plain(PlainModule::new(alloc, config).ok()?)),
        ModuleKind::Adapter => Some(AnyModule::Adapter(AdapterModule::new(alloc, config).ok()?)),
        ModuleKind::Indexed => Some(AnyModule::Indexed(IndexedModule::new(alloc, config).ok()?)),
    }
}
