//! What a device is given from outside: ticks and frames.
ghost use Rattle.std.specs.Prelude.{◌≡◌, ◌≢◌};
ghost use Rattle.cip_event.specs.declared.event.Body.TheVariants as bodies;
ghost use Rattle.cip_event.specs.declared.event.Event.TheVariants as events;
ghost use Rattle.cip_device.specs.Given.{IsBadLink};
ghost use Rattle.cip_device.specs.Shown.{shown, IsFull, IsReady, IsStepAnswer};

use crate::handle::CipDevice;
use crate::making::{Link, bytes_of, link_of};
use crate::numbers::{BAD_ARGUMENT, DONE, NO_MEMORY};
use crate::turn::{ready, step};
use cip_base::Ms;
use cip_module::{Body, Event};
use std::alloc::Global;

/// So many milliseconds went by: from 1.
#[unsafe(no_mangle)]
pub extern "C" fn cip_tick(alloc: Global, device: &mut CipDevice, milliseconds: u16) -> u32
    ensures full { IsReady (shown device.old.held) → milliseconds ≢ 0
        → IsFull (shown device.old.held) (events.Tick milliseconds) → result ≡ 6 }
    ensures answer { IsStepAnswer result (shown device.old.held) (milliseconds ≡ 0)
        (events.Tick milliseconds) (shown device.new.held) }
{
    let status = ready(alloc, device);
    if status != DONE {
        return status;
    }
    let Some(count) = Ms::new(milliseconds) else {
        return BAD_ARGUMENT;
    };
    step(alloc, device, Event::Tick(count))
}

/// A request of this number came in by this port from this address.
#[unsafe(no_mangle)]
pub extern "C" fn cip_request(
    alloc: Global,
    device: &mut CipDevice,
    port: u16,
    from: &[u8],
    number: u32,
    bytes: &[u8],
) -> u32
    ensures { IsStepAnswer result (shown device.old.held) (IsBadLink port from.now)
        (events.Frame port from.now (bodies.Request number bytes.now)) (shown device.new.held) }
{
    let status = ready(alloc, device);
    if status != DONE {
        return status;
    }
    let Some(Link { port, from }) = link_of(port, from) else {
        return BAD_ARGUMENT;
    };
    let Ok(bytes) = bytes_of(alloc, bytes) else {
        return NO_MEMORY;
    };
    let body = Body::Request { number, bytes };
    step(alloc, device, Event::Frame { port, from, body })
}

/// A reply to the request of this number came in by this port from this address.
#[unsafe(no_mangle)]
pub extern "C" fn cip_reply(
    alloc: Global,
    device: &mut CipDevice,
    port: u16,
    from: &[u8],
    number: u32,
    bytes: &[u8],
) -> u32
    ensures { IsStepAnswer result (shown device.old.held) (IsBadLink port from.now)
        (events.Frame port from.now (bodies.Reply number bytes.now)) (shown device.new.held) }
{
    let status = ready(alloc, device);
    if status != DONE {
        return status;
    }
    let Some(Link { port, from }) = link_of(port, from) else {
        return BAD_ARGUMENT;
    };
    let Ok(bytes) = bytes_of(alloc, bytes) else {
        return NO_MEMORY;
    };
    let body = Body::Reply { number, bytes };
    step(alloc, device, Event::Frame { port, from, body })
}

/// A datum of the connection of this id came in by this port from this address.
#[unsafe(no_mangle)]
pub extern "C" fn cip_data(
    alloc: Global,
    device: &mut CipDevice,
    port: u16,
    from: &[u8],
    id: u32,
    bytes: &[u8],
) -> u32
    ensures { IsStepAnswer result (shown device.old.held) (IsBadLink port from.now)
        (events.Frame port from.now (bodies.Data id bytes.now)) (shown device.new.held) }
{
    let status = ready(alloc, device);
    if status != DONE {
        return status;
    }
    let Some(Link { port, from }) = link_of(port, from) else {
        return BAD_ARGUMENT;
    };
    let Ok(bytes) = bytes_of(alloc, bytes) else {
        return NO_MEMORY;
    };
    let body = Body::Data { id, bytes };
    step(alloc, device, Event::Frame { port, from, body })
}
