//! Devices are made, told of and freed.
ghost use Rattle.std.specs.Prelude.{◌≡◌, ◌≢◌, ◌↔◌, length, None};
ghost use Rattle.cip_device.specs.Outputs.{IsNextAnswer};
ghost use Rattle.cip_device.specs.Reads.{IsReadAnswer};
ghost use Rattle.cip_device.specs.Settings.{AreLegal, IsNew};
ghost use Rattle.cip_device.specs.Shown.{shown};
ghost use Rattle.cip_device.specs.Statuses.{IsNewStatus};

use crate::handle::CipDevice;
use crate::held::Held;
use crate::numbers::{DONE, IN_USE, NO_DEVICE, NO_MEMORY, VERSION};
use crate::output::CipOutput;
use crate::settings::{CipAssembly, CipConfig, CipPort, config_of};
use std::alloc::Global;
use std::mem::replace;

/// Makes a device, in the initial state of its config.
#[unsafe(no_mangle)]
pub extern "C" fn cip_new(
    alloc: Global,
    device: &mut CipDevice,
    config: &CipConfig,
    name: &[u8],
    product_name: &[u8],
    ports: &[CipPort],
    assemblies: &[CipAssembly],
) -> u32
    ensures done { result ≡ 0 → IsNew config.now name.now product_name.now ports.now
        assemblies.now (shown device.old.held) (shown device.new.held) }
    ensures kept { result ≢ 0 → shown device.new.held ≡ shown device.old.held }
    ensures in_use { (result ≡ 2) ↔ (shown device.old.held ≢ None) }
    ensures legal { result ≡ 0 → AreLegal config.now name.now product_name.now ports.now
        assemblies.now }
    ensures bad { result ≡ 4 → AreLegal config.now name.now product_name.now ports.now
        assemblies.now → ⊥ }
    ensures known { IsNewStatus result }
{
    if let Some(held) = replace(device, CipDevice::empty(alloc)).into_box() {
        *device = CipDevice::of(held);
        return IN_USE;
    }
    let config = match config_of(alloc, config, name, product_name, ports, assemblies) {
        Ok(config) => config,
        Err(status) => return status,
    };
    let Ok(held) = Held::new(alloc, config) else {
        return NO_MEMORY;
    };
    let Ok(boxed) = Box::new(alloc, held) else {
        return NO_MEMORY;
    };
    *device = CipDevice::of(boxed);
    DONE
}

/// Frees the device, if there is one.
#[unsafe(no_mangle)]
pub extern "C" fn cip_free(alloc: Global, device: &mut CipDevice)
    ensures { shown device.new.held ≡ None }
{
    drop(replace(device, CipDevice::empty(alloc)));
}

/// Tells the next output, whose bytes go to the buffer.
#[unsafe(no_mangle)]
pub extern "C" fn cip_next(
    alloc: Global,
    device: &mut CipDevice,
    output: &mut CipOutput,
    buffer: &mut [u8],
) -> u32
    ensures { IsNextAnswer result (shown device.old.held) output.new (length buffer.old) buffer.new
        (shown device.new.held) }
{
    let Some(mut held) = replace(device, CipDevice::empty(alloc)).into_box() else {
        return NO_DEVICE;
    };
    let status = held.next(output, buffer);
    *device = CipDevice::of(held);
    status
}

/// Reads the assembly of this instance into the buffer, and says how many bytes it has.
#[unsafe(no_mangle)]
pub extern "C" fn cip_get(
    alloc: Global,
    device: &mut CipDevice,
    instance: u16,
    count: &mut usize,
    buffer: &mut [u8],
) -> u32
    ensures kept { shown device.new.held ≡ shown device.old.held }
    ensures answer { IsReadAnswer result (shown device.old.held) instance count.new
        (length buffer.old) buffer.new }
{
    let Some(held) = replace(device, CipDevice::empty(alloc)).into_box() else {
        return NO_DEVICE;
    };
    let status = held.as_ref().assembly(instance, count, buffer);
    *device = CipDevice::of(held);
    status
}

/// The version of what C sees: a program that was compiled with a header of another cannot use it.
#[unsafe(no_mangle)]
pub extern "C" fn cip_version() -> u32
    ensures { result ≡ 2 }
{
    VERSION
}
