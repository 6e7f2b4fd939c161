//! Events of what C gives.
ghost use Rattle.std.specs.Prelude.{◌≡◌, ◌↔◌, ◌⊎◌, None, IfOk, IfErr, IfSome, IsOk};
ghost use Rattle.cip_segment.specs.Spelling.{IsReadable};
ghost use Rattle.cip_device.specs.Given.{timing_of, params_of, large_params_of, IsBadLink};

use crate::numbers::{BAD_ARGUMENT, NO_MEMORY};
use cip_base::{Address, Bytes, NoMemory, PortNumber, Timing};
use cip_module::{LargeParams, OpenParams};
use cip_segment::{Path, view_path};
use std::alloc::Global;

/// The priority and tick time byte, and the ticks (Volume 1, chapter 3, Unconnected_Send).
#[repr(C)]
#[derive(Clone, Copy)]
pub struct CipTiming {
    pub tick: u8,
    pub ticks: u8,
}

/// What is asked of a connection (Volume 1, chapter 3, Forward_Open).
#[repr(C)]
#[derive(Clone, Copy)]
pub struct CipOpenParams {
    pub ot_rpi: u32,
    pub to_rpi: u32,
    pub ot_params: u16,
    pub to_params: u16,
    pub serial: u16,
    pub multiplier: u8,
    pub transport: u8,
}

/// What is asked of a large connection (Volume 1, chapter 3, Large_Forward_Open).
#[repr(C)]
#[derive(Clone, Copy)]
pub struct CipLargeParams {
    pub ot_rpi: u32,
    pub to_rpi: u32,
    pub ot_params: u32,
    pub to_params: u32,
    pub serial: u16,
    pub multiplier: u8,
    pub transport: u8,
}

pub(crate) fn timing_of(timing: CipTiming) -> Timing
    ensures { result ≡ timing_of timing }
{
    Timing {
        tick: timing.tick,
        ticks: timing.ticks,
    }
}

pub(crate) fn params_of(params: &CipOpenParams) -> OpenParams
    ensures { result ≡ params_of params.now }
{
    OpenParams {
        serial: params.serial,
        multiplier: params.multiplier,
        transport: params.transport,
        ot_rpi: params.ot_rpi,
        ot_params: params.ot_params,
        to_rpi: params.to_rpi,
        to_params: params.to_params,
    }
}

pub(crate) fn large_params_of(params: &CipLargeParams) -> LargeParams
    ensures { result ≡ large_params_of params.now }
{
    LargeParams {
        serial: params.serial,
        multiplier: params.multiplier,
        transport: params.transport,
        ot_rpi: params.ot_rpi,
        ot_params: params.ot_params,
        to_rpi: params.to_rpi,
        to_params: params.to_params,
    }
}

/// The bytes, in memory of their own.
pub(crate) fn bytes_of(alloc: Global, bytes: &[u8]) -> Result<Bytes, NoMemory>
    ensures { IfOk result (λ b. b ≡ bytes.now) }
{
    Ok(Bytes::of(Vec::from_slice(alloc, bytes)?))
}

/// Where a frame came in: the device's own port, and the address of the neighbour.
pub(crate) struct Link {
    pub(crate) port: PortNumber,
    pub(crate) from: Address,
}

/// The link; None for port 0, or an address of no bytes or of more than 16.
pub(crate) fn link_of(port: u16, from: &[u8]) -> Option<Link>
    ensures value { IfSome result (λ link. (link.port ≡ port) × (link.from ≡ from.now)) }
    ensures bad { (result ≡ None) ↔ IsBadLink port from.now }
{
    let port = PortNumber::new(port)?;
    let Ok(from) = Address::read(from) else {
        return None;
    };
    Some(Link { port, from })
}

/// The path that the bytes spell; BAD_ARGUMENT or NO_MEMORY.
pub(crate) fn path_of(alloc: Global, bytes: &[u8]) -> Result<Path, u32>
    ensures value { IfOk result (λ path. path ≡ bytes.now) }
    ensures readable { IsOk result → IsReadable bytes.now }
    ensures fault { IfErr result
        (λ status. ((status ≡ 4) × (IsReadable bytes.now → ⊥))
        ⊎ ((status ≡ 5) × IsReadable bytes.now)) }
{
    let Ok(path) = view_path(bytes) else {
        return Err(BAD_ARGUMENT);
    };
    match path.to_path(alloc) {
        Ok(path) => Ok(path),
        Err(_) => Err(NO_MEMORY),
    }
}
