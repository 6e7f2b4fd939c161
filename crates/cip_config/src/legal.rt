//! Which settings a module can have.
ghost use Rattle.std.specs.Prelude.{◌≡◌};
ghost use Rattle.std.specs.List.{list_all, list_any};
ghost use Rattle.cip_target.specs.Assemblies.{is_assembly};
ghost use Rattle.cip_config.specs.Config.{is_name_byte, is_name, is_text_byte, is_range, is_legal};
ghost use Rattle.cip_config.specs.Config.{is_port, has_number, numbers_differ};
ghost use Rattle.cip_config.specs.Config.{are_ports, has_instance, instances_differ};
ghost use Rattle.cip_config.specs.Config.{are_assemblies, is_room, are_counts, is_settings};

use crate::config::{LegalAddresses, ModuleKind, ModuleSettings, PortConfig};
use cip_base::{
    MAX_ASSEMBLIES, MAX_DATUM, MAX_HOPS, MAX_PENDINGS, MAX_PORTS, PortNumber, count_of,
};
use cip_target::AssemblyConfig;

fn is_name_byte(byte: u8) -> bool
    ensures { result ≡ is_name_byte byte }
{
    (byte >= b'0' && byte <= b'9')
        || (byte >= b'A' && byte <= b'Z')
        || (byte >= b'a' && byte <= b'z')
        || byte == b'_'
        || byte == b'-'
}

fn are_name_bytes(bytes: &[u8]) -> bool
    ensures { result ≡ list_all is_name_byte bytes.now }
{
    for byte in bytes {
        if !is_name_byte(*byte) {
            return false;
        }
    }
    true
}

fn are_text_bytes(bytes: &[u8]) -> bool
    ensures { result ≡ list_all is_text_byte bytes.now }
{
    for byte in bytes {
        if *byte < 0x21 || *byte > 0x7E {
            return false;
        }
    }
    true
}

/// Whether the bytes are a name: 1 to 16 ASCII letters, digits, `_` or `-`.
pub fn is_name(bytes: &[u8]) -> bool
    ensures { result ≡ is_name bytes.now }
{
    bytes.len() >= 1 && bytes.len() <= 16 && are_name_bytes(bytes)
}

fn is_range(legal: LegalAddresses) -> bool
    ensures { result ≡ is_range legal }
{
    match legal {
        LegalAddresses::Byte { first, last } => first <= last,
        LegalAddresses::Text { longest } => longest >= 1 && longest <= 16,
    }
}

/// Whether the address is legal on a link.
pub fn is_legal(legal: LegalAddresses, address: &[u8]) -> bool
    ensures { result ≡ is_legal legal address.now }
{
    match legal {
        LegalAddresses::Byte { first, last } => {
            address.len() == 1 && first <= address[0] && address[0] <= last
        }
        LegalAddresses::Text { longest } => {
            address.len() <= usize::from(longest) && are_text_bytes(address)
        }
    }
}

fn is_port(port: &PortConfig) -> bool
    ensures { result ≡ is_port port.now }
{
    is_range(port.legal) && is_legal(port.legal, port.address.as_slice())
}

fn are_each_port(ports: &[PortConfig]) -> bool
    ensures { result ≡ list_all is_port ports.now }
{
    for port in ports {
        if !is_port(port) {
            return false;
        }
    }
    true
}

fn has_port_number(ports: &[PortConfig], number: PortNumber) -> bool
    ensures { result ≡ list_any (has_number number) ports.now }
{
    for port in ports {
        if port.number == number {
            return true;
        }
    }
    false
}

fn numbers_differ(ports: &[PortConfig]) -> bool
    ensures { result ≡ numbers_differ ports.now }
{
    let mut rest = ports;
    while let [first, others @ ..] = rest {
        if has_port_number(others, first.number) {
            return false;
        }
        rest = others;
    }
    true
}

fn are_ports(kind: ModuleKind, ports: &[PortConfig]) -> bool
    ensures { result ≡ are_ports kind ports.now }
{
    let most = match kind {
        ModuleKind::Plain | ModuleKind::Indexed => MAX_PORTS,
        ModuleKind::Adapter => 1,
    };
    ports.len() >= 1 && ports.len() <= most && are_each_port(ports) && numbers_differ(ports)
}

fn is_assembly(assembly: &AssemblyConfig) -> bool
    ensures { result ≡ is_assembly assembly.now }
{
    assembly.instance >= 1 && usize::from(assembly.size) <= MAX_DATUM
}

fn are_each_assembly(assemblies: &[AssemblyConfig]) -> bool
    ensures { result ≡ list_all is_assembly assemblies.now }
{
    for assembly in assemblies {
        if !is_assembly(assembly) {
            return false;
        }
    }
    true
}

fn has_instance(assemblies: &[AssemblyConfig], instance: u16) -> bool
    ensures { result ≡ list_any (has_instance instance) assemblies.now }
{
    for assembly in assemblies {
        if assembly.instance == instance {
            return true;
        }
    }
    false
}

fn instances_differ(assemblies: &[AssemblyConfig]) -> bool
    ensures { result ≡ instances_differ assemblies.now }
{
    let mut rest = assemblies;
    while let [first, others @ ..] = rest {
        if has_instance(others, first.instance) {
            return false;
        }
        rest = others;
    }
    true
}

fn are_assemblies(assemblies: &[AssemblyConfig]) -> bool
    ensures { result ≡ are_assemblies assemblies.now }
{
    assemblies.len() <= MAX_ASSEMBLIES
        && are_each_assembly(assemblies)
        && instances_differ(assemblies)
}

// From 1 on.
fn is_room(room: usize, most: usize) -> bool
    ensures { result ≡ is_room most room }
{
    room >= 1 && room <= most
}

fn are_counts(settings: &ModuleSettings) -> bool
    ensures { result ≡ are_counts settings.now }
{
    settings.clock < 1 << 63
        && count_of(settings.first_id) >= 1
        && count_of(settings.first_number) >= 1
        && is_room(settings.pending_room, MAX_PENDINGS)
        && is_room(settings.hop_room, MAX_HOPS)
}

/// Whether a module can have these settings.
pub(crate) fn is_settings(settings: &ModuleSettings) -> bool
    ensures { result ≡ is_settings settings.now }
{
    is_name(settings.name.as_slice())
        && are_counts(settings)
        && are_ports(settings.kind, settings.ports.as_slice())
        && are_assemblies(settings.assemblies.as_slice())
}
