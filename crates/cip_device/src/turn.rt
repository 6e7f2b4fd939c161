//! One call at the device of a handle.
ghost use Rattle.std.specs.Prelude.{◌≡◌, ◌≢◌, ◌↔◌, Some, None};
ghost use Rattle.cip_device.specs.Shown.{shown, IsDeviceStep, IsFull, IsReady, HasUnread, IsWhy};
ghost use Rattle.cip_device.specs.Statuses.{IsStepStatus};

use crate::handle::CipDevice;
use crate::numbers::{DONE, NO_DEVICE, UNREAD};
use cip_module::Event;
use std::alloc::Global;
use std::mem::replace;

/// Whether the device can take an event: DONE, or why it cannot.
pub(crate) fn ready(alloc: Global, device: &mut CipDevice) -> u32
    ensures kept { shown device.new.held ≡ shown device.old.held }
    ensures ready { (result ≡ 0) ↔ IsReady (shown device.old.held) }
    ensures no_device { (result ≡ 1) ↔ (shown device.old.held ≡ None) }
    ensures unread { (result ≡ 3) ↔ HasUnread (shown device.old.held) }
    ensures known { (result ≢ 4) × (result ≢ 6) }
    ensures among { IsStepStatus result }
{
    let Some(held) = replace(device, CipDevice::empty(alloc)).into_box() else {
        return NO_DEVICE;
    };
    let is_ready = held.as_ref().is_ready();
    *device = CipDevice::of(held);
    if is_ready { DONE } else { UNREAD }
}

/// One event, to the device of the handle.
pub(crate) fn step(alloc: Global, device: &mut CipDevice, event: Event) -> u32
    ensures done { result ≡ 0 → IsDeviceStep (shown device.old.held) event (shown device.new.held) }
    ensures kept { result ≢ 0 → shown device.new.held ≡ shown device.old.held }
    ensures why { IsWhy result (shown device.old.held) event }
    ensures known { result ≢ 4 }
    ensures among { IsStepStatus result }
    ensures full { IsReady (shown device.old.held) → IsFull (shown device.old.held) event
        → result ≡ 6 }
{
    let Some(mut held) = replace(device, CipDevice::empty(alloc)).into_box() else {
        return NO_DEVICE;
    };
    let status = held.step(event);
    *device = CipDevice::of(held);
    status
}
