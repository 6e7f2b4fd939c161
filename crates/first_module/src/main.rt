//! The library, from a Rust program: makes an adapter and asks it who it is, and what its assembly
//! holds. Each reply is printed in hexadecimal.
#![tactic(auto)]

ghost use Rattle.std.specs.Prelude.{◌≡◌, IfOk};

use anyhow::{Context, Result};
use cip_base::{Address, Bytes, PortNumber};
use cip_module::{
    AdapterModule, Assemblies, Body, Event, LegalAddresses, Module, ModuleConfig, ModuleKind,
    ModuleSettings, Output, PortConfig, Ports,
};
use cip_target::{AssemblyConfig, Identity, IdentityFields};
use std::alloc::Global;

/// Get_Attributes_All of the Identity.
const WHO: [u8; 6] = [0x01, 0x02, 0x20, 0x01, 0x24, 0x01];

/// Get_Attribute_Single of attribute 3, the data, of assembly 101.
const DATA: [u8; 8] = [0x0E, 0x03, 0x20, 0x04, 0x24, 0x65, 0x30, 0x03];

fn bytes(alloc: Global, bytes: &[u8]) -> Result<Bytes> {
    Ok(Bytes::of(Vec::from_slice(alloc, bytes)?))
}

// What the adapter says of itself.
fn identity(alloc: Global) -> Result<Identity> {
    let fields = IdentityFields {
        vendor: 0x0101,
        device_type: 12,
        product: 3,
        major: 1,
        minor: 3,
        status: 0,
        serial: 0x0000_0E0E,
        name: bytes(alloc, b"EA")?,
    };
    Identity::new(fields).context("an identity out of its ranges")
}

// Its one port: number 2, at address 07 of a link with addresses of one byte.
fn port() -> Result<PortConfig> {
    Ok(PortConfig {
        number: PortNumber::new(2).context("port 0")?,
        link: 0,
        legal: LegalAddresses::Byte {
            first: 0x00,
            last: 0x3F,
        },
        address: Address::read(&[0x07])?,
    })
}

// Its settings, each in its range.
fn config(alloc: Global) -> Result<ModuleConfig>
    ensures { IfOk result (λ config. config.kind ≡ ModuleKind.Adapter) }
{
    let settings = ModuleSettings {
        name: bytes(alloc, b"E")?,
        kind: ModuleKind::Adapter,
        identity: identity(alloc)?,
        clock: 0,
        first_id: 1,
        first_number: 1,
        pending_room: 1,
        hop_room: 16,
        ports: Ports::of(vec![in alloc; port()?]?),
        assemblies: Assemblies::of(vec![in alloc;
            AssemblyConfig {
                instance: 101,
                size: 4
            },
        ]?),
    };
    ModuleConfig::new(settings).context("settings out of their ranges")
}

// A request comes by the port from address 01. Prints the reply.
fn ask(rt: &HostRuntime, adapter: &mut AdapterModule, number: u32, request: &[u8]) -> Result<()> {
    let alloc = rt.alloc();
    let event = Event::Frame {
        port: PortNumber::new(2).context("port 0")?,
        from: Address::read(&[0x01])?,
        body: Body::Request {
            number,
            bytes: bytes(alloc, request)?,
        },
    };
    let outputs = adapter.step(event)?;
    for output in &outputs {
        if let Output::Send {
            body: Body::Reply { number, bytes },
            ..
        } = output
        {
            println!(rt;
                "reply {number} {}",
                hex::encode_upper(alloc, bytes.as_slice())?
            )?;
        }
    }
    Ok(())
}

fn main(rt: HostRuntime) -> Result<()> {
    let mut adapter = AdapterModule::new(rt.alloc(), config(rt.alloc())?)?;
    ask(&rt, &mut adapter, 1, &WHO)?;
    ask(&rt, &mut adapter, 2, &DATA)
}
