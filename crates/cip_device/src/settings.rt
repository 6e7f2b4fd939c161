//! The settings of a device, in the form in which they come from C.
ghost use Rattle.std.specs.Prelude.{◌≡◌, ◌⊎◌, ◌↔◌, false, true, IfOk, IsOk, IfErr, IfSome, IsSome};
ghost use Rattle.std.specs.Prelude.{IsTrue, Some, map};
ghost use Rattle.std.specs.List.{list_all};
ghost use Rattle.cip_target.specs.Identity.{is_identity};
ghost use Rattle.cip_device.specs.Settings.{kind_of, port_of, assembly_of, identity_of};
ghost use Rattle.cip_device.specs.Settings.{is_given_port, AreLegal, IsConfigOf};

use crate::making::bytes_of;
use crate::numbers::{ADAPTER, BAD_ARGUMENT, INDEXED, NO_MEMORY, PLAIN};
use cip_base::{Address, PortNumber};
use cip_config::{
    Assemblies, LegalAddresses, ModuleConfig, ModuleKind, ModuleSettings, PortConfig, Ports,
};
use cip_target::{AssemblyConfig, Identity, IdentityFields};
use std::alloc::Global;

/// The numbers of a device.
#[repr(C)]
#[derive(Clone, Copy)]
pub struct CipConfig {
    /// 0 plain, 1 adapter, 2 indexed.
    pub kind: u32,
    /// The time at which it begins, in microseconds.
    pub clock: u64,
    pub first_id: u32,
    pub first_number: u32,
    pub pending_room: u32,
    pub hop_room: u32,
    pub serial: u32,
    pub vendor: u16,
    pub device_type: u16,
    pub product: u16,
    pub status: u16,
    pub major: u8,
    pub minor: u8,
}

/// A port of a device.
#[repr(C)]
#[derive(Clone, Copy)]
pub struct CipPort {
    pub number: u16,
    /// Whether addresses are text: then 1 to `last` bytes from 21 to 7E, else one byte from `first`
    /// to `last`.
    pub is_text: u8,
    pub first: u8,
    pub last: u8,
    /// The device's own address there.
    pub address_length: u8,
    pub address: [u8; 16],
}

/// An assembly of a device.
#[repr(C)]
#[derive(Clone, Copy)]
pub struct CipAssembly {
    pub instance: u16,
    pub size: u16,
}

fn kind_of(kind: u32) -> Option<ModuleKind>
    ensures { result ≡ kind_of kind }
{
    match kind {
        PLAIN => Some(ModuleKind::Plain),
        ADAPTER => Some(ModuleKind::Adapter),
        INDEXED => Some(ModuleKind::Indexed),
        _ => None,
    }
}

// Which link it is on says nothing to the module itself.
fn port_of(port: &CipPort) -> Option<PortConfig>
    ensures value { IfSome result (λ p. p ≡ port_of port.now) }
    ensures given { IsSome result ↔ (is_given_port port.now ≡ true) }
{
    let number = PortNumber::new(port.number)?;
    let length = usize::from(port.address_length);
    if length > 16 {
        return None;
    }
    let address = Address::read(&port.address[..length]).ok()?;
    let legal = if port.is_text == 0 {
        LegalAddresses::Byte {
            first: port.first,
            last: port.last,
        }
    } else {
        LegalAddresses::Text { longest: port.last }
    };
    Some(PortConfig {
        number,
        link: 0,
        legal,
        address,
    })
}

fn ports_of(alloc: Global, ports: &[CipPort]) -> Result<Ports, u32>
    ensures value { IfOk result (λ made. made ≡ map port_of ports.now) }
    ensures given { IsOk result → list_all is_given_port ports.now ≡ true }
    ensures fault { IfErr result (λ status.
        ((status ≡ 4) × (list_all is_given_port ports.now ≡ false)) ⊎ (status ≡ 5)) }
{
    let mut made = Vec::new(alloc);
    for port in ports {
        let Some(port) = port_of(port) else {
            return Err(BAD_ARGUMENT);
        };
        if made.push(port).is_err() {
            return Err(NO_MEMORY);
        }
    }
    Ok(Ports::of(made))
}

fn assemblies_of(alloc: Global, assemblies: &[CipAssembly]) -> Result<Assemblies, u32>
    ensures value { IfOk result (λ made. made ≡ map assembly_of assemblies.now) }
    ensures fault { IfErr result (λ status. status ≡ 5) }
{
    let mut made = Vec::new(alloc);
    for assembly in assemblies {
        let assembly = AssemblyConfig {
            instance: assembly.instance,
            size: assembly.size,
        };
        if made.push(assembly).is_err() {
            return Err(NO_MEMORY);
        }
    }
    Ok(Assemblies::of(made))
}

fn identity_of(alloc: Global, config: &CipConfig, product_name: &[u8]) -> Result<Identity, u32>
    ensures fault { IfErr result (λ status. ((status ≡ 4)
        × (IsTrue (is_identity (identity_of config.now product_name.now)) → ⊥)) ⊎ (status ≡ 5)) }
    ensures legal { IsOk result → IsTrue (is_identity (identity_of config.now product_name.now)) }
    ensures value { IfOk result (λ i. i ≡ identity_of config.now product_name.now) }
{
    let Ok(name) = bytes_of(alloc, product_name) else {
        return Err(NO_MEMORY);
    };
    let fields = IdentityFields {
        vendor: config.vendor,
        device_type: config.device_type,
        product: config.product,
        major: config.major,
        minor: config.minor,
        status: config.status,
        serial: config.serial,
        name,
    };
    match Identity::new(fields) {
        Some(identity) => Ok(identity),
        None => Err(BAD_ARGUMENT),
    }
}

/// The config of what C gives; BAD_ARGUMENT or NO_MEMORY.
pub(crate) fn config_of(
    alloc: Global,
    config: &CipConfig,
    name: &[u8],
    product_name: &[u8],
    ports: &[CipPort],
    assemblies: &[CipAssembly],
) -> Result<ModuleConfig, u32>
    ensures value { IfOk result (IsConfigOf config.now name.now product_name.now ports.now
        assemblies.now) }
    ensures legal { IsOk result → AreLegal config.now name.now product_name.now ports.now
        assemblies.now }
    ensures fault { IfErr result (λ status. ((status ≡ 4) × (AreLegal config.now name.now
        product_name.now ports.now assemblies.now → ⊥)) ⊎ (status ≡ 5)) }
{
    let Some(kind) = kind_of(config.kind) else {
        return Err(BAD_ARGUMENT);
    };
    let Ok(name) = bytes_of(alloc, name) else {
        return Err(NO_MEMORY);
    };
    let settings = ModuleSettings {
        name,
        kind,
        identity: identity_of(alloc, config, product_name)?,
        clock: config.clock,
        first_id: config.first_id,
        first_number: config.first_number,
        pending_room: config.pending_room as usize,
        hop_room: config.hop_room as usize,
        ports: ports_of(alloc, ports)?,
        assemblies: assemblies_of(alloc, assemblies)?,
    };
    match ModuleConfig::new(settings) {
        Some(config) => Ok(config),
        None => Err(BAD_ARGUMENT),
    }
}
