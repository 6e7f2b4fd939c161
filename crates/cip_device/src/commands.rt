//! What a device is given by its own application: commands.
ghost use Rattle.cip_event.specs.declared.event.Event.TheVariants as events;
ghost use Rattle.cip_event.specs.declared.event.Command.TheVariants as commands;
ghost use Rattle.cip_segment.specs.Spelling.{IsReadable};
ghost use Rattle.cip_device.specs.Given.{timing_of, params_of, large_params_of};
ghost use Rattle.cip_device.specs.Shown.{shown, IsStepAnswer};

use crate::handle::CipDevice;
use crate::making::{
    CipLargeParams, CipOpenParams, CipTiming, bytes_of, large_params_of, params_of, path_of,
    timing_of,
};
use crate::numbers::{DONE, NO_MEMORY};
use crate::turn::{ready, step};
use cip_module::{Command, Event};
use std::alloc::Global;

/// Asks to send a request unconnected along a path.
#[unsafe(no_mangle)]
pub extern "C" fn cip_send(
    alloc: Global,
    device: &mut CipDevice,
    op: u32,
    timing: CipTiming,
    path: &[u8],
    request: &[u8],
) -> u32
    ensures { IsStepAnswer result (shown device.old.held) (IsReadable path.now → ⊥)
        (events.Command (commands.Send op (timing_of timing) path.now request.now))
        (shown device.new.held) }
{
    let status = ready(alloc, device);
    if status != DONE {
        return status;
    }
    let path = match path_of(alloc, path) {
        Ok(path) => path,
        Err(status) => return status,
    };
    let Ok(request) = bytes_of(alloc, request) else {
        return NO_MEMORY;
    };
    let timing = timing_of(timing);
    let command = Command::Send {
        op,
        timing,
        path,
        request,
    };
    step(alloc, device, Event::Command(command))
}

/// Asks to open a connection along a path.
#[unsafe(no_mangle)]
pub extern "C" fn cip_open(
    alloc: Global,
    device: &mut CipDevice,
    op: u32,
    timing: CipTiming,
    path: &[u8],
    params: &CipOpenParams,
) -> u32
    ensures { IsStepAnswer result (shown device.old.held) (IsReadable path.now → ⊥)
        (events.Command (commands.Open op (timing_of timing) path.now (params_of params.now)))
        (shown device.new.held) }
{
    let status = ready(alloc, device);
    if status != DONE {
        return status;
    }
    let path = match path_of(alloc, path) {
        Ok(path) => path,
        Err(status) => return status,
    };
    let timing = timing_of(timing);
    let params = params_of(params);
    let command = Command::Open {
        op,
        timing,
        path,
        params,
    };
    step(alloc, device, Event::Command(command))
}

/// Asks to open a connection along a path, with sizes of up to 65,535 bytes.
#[unsafe(no_mangle)]
pub extern "C" fn cip_large_open(
    alloc: Global,
    device: &mut CipDevice,
    op: u32,
    timing: CipTiming,
    path: &[u8],
    params: &CipLargeParams,
) -> u32
    ensures { IsStepAnswer result (shown device.old.held) (IsReadable path.now → ⊥)
        (events.Command (commands.LargeOpen op (timing_of timing) path.now
        (large_params_of params.now))) (shown device.new.held) }
{
    let status = ready(alloc, device);
    if status != DONE {
        return status;
    }
    let path = match path_of(alloc, path) {
        Ok(path) => path,
        Err(status) => return status,
    };
    let timing = timing_of(timing);
    let params = large_params_of(params);
    let command = Command::LargeOpen {
        op,
        timing,
        path,
        params,
    };
    step(alloc, device, Event::Command(command))
}

/// Asks to close the connection that an open of the op `of` opened.
#[unsafe(no_mangle)]
pub extern "C" fn cip_close(
    alloc: Global,
    device: &mut CipDevice,
    op: u32,
    of: u32,
    timing: CipTiming,
) -> u32
    ensures { IsStepAnswer result (shown device.old.held) ⊥
        (events.Command (commands.Close op of (timing_of timing))) (shown device.new.held) }
{
    let status = ready(alloc, device);
    if status != DONE {
        return status;
    }
    let timing = timing_of(timing);
    let command = Command::Close { op, of, timing };
    step(alloc, device, Event::Command(command))
}

/// Sends a datum by the connection that an open of the op `of` opened.
#[unsafe(no_mangle)]
pub extern "C" fn cip_enter(alloc: Global, device: &mut CipDevice, of: u32, bytes: &[u8]) -> u32
    ensures { IsStepAnswer result (shown device.old.held) ⊥
        (events.Command (commands.Enter of bytes.now)) (shown device.new.held) }
{
    let status = ready(alloc, device);
    if status != DONE {
        return status;
    }
    let Ok(bytes) = bytes_of(alloc, bytes) else {
        return NO_MEMORY;
    };
    let command = Command::Enter { of, bytes };
    step(alloc, device, Event::Command(command))
}

/// Writes an assembly.
#[unsafe(no_mangle)]
pub extern "C" fn cip_set(alloc: Global, device: &mut CipDevice, instance: u32, bytes: &[u8]) -> u32
    ensures { IsStepAnswer result (shown device.old.held) ⊥
        (events.Command (commands.Set instance bytes.now)) (shown device.new.held) }
{
    let status = ready(alloc, device);
    if status != DONE {
        return status;
    }
    let Ok(bytes) = bytes_of(alloc, bytes) else {
        return NO_MEMORY;
    };
    let command = Command::Set { instance, bytes };
    step(alloc, device, Event::Command(command))
}

/// Sends an assembly by each connection that takes its data from it.
#[unsafe(no_mangle)]
pub extern "C" fn cip_produce(alloc: Global, device: &mut CipDevice, instance: u32) -> u32
    ensures { IsStepAnswer result (shown device.old.held) ⊥
        (events.Command (commands.Produce instance)) (shown device.new.held) }
{
    let status = ready(alloc, device);
    if status != DONE {
        return status;
    }
    let command = Command::Produce { instance };
    step(alloc, device, Event::Command(command))
}
