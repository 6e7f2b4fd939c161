//! What C reads of a device's tables: connections, requests that wait, the next deadline, and the
//! incarnations.
ghost use Rattle.std.specs.Prelude.{◌≡◌};
ghost use Rattle.cip_device.specs.Deadlines.{IsDeadlineAnswer};
ghost use Rattle.cip_device.specs.Incarnations.{IsIncarnationAnswer};
ghost use Rattle.cip_device.specs.Rows.{IsConnectionAnswer, IsPendingAnswer};
ghost use Rattle.cip_device.specs.Shown.{shown};

use crate::handle::CipDevice;
use crate::numbers::{DONE, NO_DEVICE};
use crate::rows::{CipConnectionRow, CipPendingRow};
use std::alloc::Global;
use std::mem::replace;

/// Tells the connection at this place among those that are open, in rising triad, from 0.
#[unsafe(no_mangle)]
pub extern "C" fn cip_connection(
    alloc: Global,
    device: &mut CipDevice,
    at: usize,
    connection: &mut CipConnectionRow,
) -> u32
    ensures kept { shown device.new.held ≡ shown device.old.held }
    ensures answer { IsConnectionAnswer result (shown device.old.held) at connection.new }
{
    let Some(held) = replace(device, CipDevice::empty(alloc)).into_box() else {
        return NO_DEVICE;
    };
    let status = held.as_ref().connection(at, connection);
    *device = CipDevice::of(held);
    status
}

/// Tells the request at this place among those that wait, in rising number, from 0.
#[unsafe(no_mangle)]
pub extern "C" fn cip_pending(
    alloc: Global,
    device: &mut CipDevice,
    at: usize,
    pending: &mut CipPendingRow,
) -> u32
    ensures kept { shown device.new.held ≡ shown device.old.held }
    ensures answer { IsPendingAnswer result (shown device.old.held) at pending.new }
{
    let Some(held) = replace(device, CipDevice::empty(alloc)).into_box() else {
        return NO_DEVICE;
    };
    let status = held.as_ref().pending(at, pending);
    *device = CipDevice::of(held);
    status
}

/// Tells how long nothing happens: the shortest tick at which something does.
#[unsafe(no_mangle)]
pub extern "C" fn cip_next_deadline(
    alloc: Global,
    device: &mut CipDevice,
    milliseconds: &mut u64,
) -> u32
    ensures kept { shown device.new.held ≡ shown device.old.held }
    ensures answer { IsDeadlineAnswer result (shown device.old.held) milliseconds.new }
{
    let Some(mut held) = replace(device, CipDevice::empty(alloc)).into_box() else {
        return NO_DEVICE;
    };
    let status = held.as_mut().next_deadline(milliseconds);
    *device = CipDevice::of(held);
    status
}

/// Tells the incarnations in which connection ids and request numbers are drawn.
#[unsafe(no_mangle)]
pub extern "C" fn cip_incarnation(
    alloc: Global,
    device: &mut CipDevice,
    ids: &mut u16,
    numbers: &mut u16,
) -> u32
    ensures kept { shown device.new.held ≡ shown device.old.held }
    ensures answer { IsIncarnationAnswer result (shown device.old.held) ids.new numbers.new }
{
    let Some(held) = replace(device, CipDevice::empty(alloc)).into_box() else {
        return NO_DEVICE;
    };
    held.as_ref().incarnation(ids, numbers);
    *device = CipDevice::of(held);
    DONE
}
