//! The step of a module of any kind.
ghost use Rattle.std.specs.Prelude.{◌≡◌, ◌↔◌, None, IfOk, IsTrue, OnErr};
ghost use Rattle.cip_module.specs.Events.{IsMessage, IsLeftWhole, IsSingle};
ghost use Rattle.cip_routing.specs.Steps.{IsStep, IsStepFault};
ghost use Rattle.cip_routing.specs.Table.{command_effects, frame_effects};
ghost use Rattle.cip_steps.specs.Code.Device.{state_of_device};
ghost use Rattle.cip_steps.specs.Code.Reacts.{ReactsWhole};
ghost use Rattle.cip_steps.specs.Reactions.{PutsOut};
ghost use Rattle.cip_event.specs.declared.event.Body.TheVariants as bodies;
ghost use Rattle.cip_event.specs.declared.event.Event.TheVariants as events;
ghost use Rattle.cip_event.specs.declared.event.Output.TheVariants as outputs;
ghost use Rattle.cip_event.specs.declared.event.Command.TheVariants.{Enter};

use cip_base::{Address, Bytes, NoMemory, PortNumber};
use cip_event::{Body, Command, Event, Output};
use cip_routing::{StepFault, fitted};
use cip_steps::{Device, Edit, Making, Reaction, TickFault};
use cip_unconnected::UnconnectedView;

// Whether an event is a message, or a command but an Enter.
#[inline(always)]
fn is_left_whole(event: &Event) -> bool
    ensures { IsTrue result ↔ IsLeftWhole event.now }
{
    match event {
        Event::Tick(_) => false,
        Event::Command(command) => !matches!(command, Command::Enter { .. }),
        Event::Frame { body, .. } => !matches!(body, Body::Data { .. }),
    }
}

// A frame that holds a message.
fn frame_step(
    device: &mut Device,
    port: PortNumber,
    from: &Address,
    body: &Body,
) -> Result<Reaction, NoMemory>
    requires { IsMessage body.now }
    ensures { ReactsWhole device.old device.new
        (frame_effects device.old.config (state_of_device device.old) port
        from.now body.now) result }
{
    match body {
        Body::Request { number, bytes } => {
            device.request(Making::Anew, port, from, *number, bytes.as_slice())
        }
        Body::Reply { number, bytes } => {
            device.reply(Making::Anew, port, from, *number, bytes.as_slice())
        }
        Body::Data { .. } => unreachable!(),
    }
}

// A command, but for one whose bytes go on, and for one that puts out a datum for each of many
// connections.
fn command_step(device: &mut Device, command: &Command) -> Result<Reaction, NoMemory>
    requires { IsSingle command.now }
    ensures { ReactsWhole device.old device.new
        (command_effects device.old.config (state_of_device device.old) command.now) result }
{
    match command {
        Command::Open {
            op,
            timing,
            path,
            params,
        } => device.open_command(*op, *timing, path, params),
        Command::LargeOpen {
            op,
            timing,
            path,
            params,
        } => device.large_open_command(*op, *timing, path, params),
        Command::Close { op, of, timing } => device.close_command(*op, *of, *timing),
        Command::Send {
            op,
            timing,
            path,
            request,
        } => {
            let view = UnconnectedView {
                timing: *timing,
                request: request.as_slice(),
                route: path.view(),
            };
            device.send(*op, view)
        }
        Command::Set { instance, bytes } => Ok(match device.set(*instance, bytes) {
            Some(refused) => Reaction::Whole(refused),
            None => Reaction::Several(Vec::new(device.alloc())),
        }),
        Command::Enter { .. } | Command::Produce { .. } => unreachable!(),
    }
}

// A frame that holds a datum, whose bytes go on or up as they are, but for a buffer with far
// more room than bytes. All memory is taken before anything changes.
fn datum_step(
    device: &mut Device,
    port: PortNumber,
    from: Address,
    id: u32,
    bytes: Bytes,
) -> Result<Vec<Output>, StepFault>
    ensures ok { IfOk result (λ outputs. IsStep device.old.config (state_of_device device.old)
        (events.Frame port from (bodies.Data id bytes)) (state_of_device device.new)
        outputs.items) }
    ensures fault { IsStepFault device.old.config (state_of_device device.old)
        (events.Frame port from (bodies.Data id bytes)) (state_of_device device.new) result }
    ensures config { device.new.config ≡ device.old.config }
{
    let Ok(mut outputs) = Vec::with_capacity(device.alloc(), 1) else {
        let body = Body::Data { id, bytes };
        return Err(StepFault::NoMemory(Event::Frame { port, from, body }));
    };
    match fitted(device.alloc(), bytes) {
        Ok(bytes) => {
            outputs.push_reserved(device.take_datum(port, &from, id, bytes));
            Ok(outputs)
        }
        Err(bytes) => {
            let body = Body::Data { id, bytes };
            Err(StepFault::NoMemory(Event::Frame { port, from, body }))
        }
    }
}

// An Enter.
fn enter_step(device: &mut Device, of: u32, bytes: Bytes) -> Result<Vec<Output>, StepFault>
    ensures ok { IfOk result (λ outputs. IsStep device.old.config (state_of_device device.old)
        (events.Command (Enter of bytes)) (state_of_device device.new) outputs.items) }
    ensures fault { IsStepFault device.old.config (state_of_device device.old)
        (events.Command (Enter of bytes)) (state_of_device device.new) result }
    ensures config { device.new.config ≡ device.old.config }
{
    let Ok(mut outputs) = Vec::with_capacity(device.alloc(), 1) else {
        return Err(StepFault::NoMemory(Event::Command(Command::Enter { of, bytes })));
    };
    match device.enter(of, bytes) {
        Ok(output) => {
            outputs.push_reserved(output);
            Ok(outputs)
        }
        Err(bytes) => Err(StepFault::NoMemory(Event::Command(Command::Enter { of, bytes }))),
    }
}

// A message, or a command but for an Enter.
fn occur(device: &mut Device, event: &Event) -> Result<Vec<Output>, NoMemory>
    requires { IsLeftWhole event.now }
    ensures done { IfOk result (λ o. IsStep device.old.config (state_of_device device.old) event.now
        (state_of_device device.new) o.items) }
    ensures same { OnErr result (state_of_device device.new ≡ state_of_device device.old) }
    ensures config { device.new.config ≡ device.old.config }
{
    if let Event::Command(Command::Produce { instance }) = event {
        return device.produce(*instance);
    }
    let mut outputs = Vec::with_capacity(device.alloc(), 1)?;
    let reaction = match event {
        Event::Command(command) => command_step(device, command)?,
        Event::Frame { port, from, body } => frame_step(device, *port, from, body)?,
        Event::Tick(_) => unreachable!(),
    };
    match reaction {
        Reaction::Whole(output) => {
            outputs.push_reserved(output);
            Ok(outputs)
        }
        Reaction::Several(all) => Ok(all),
        Reaction::Edited { .. } => unreachable!(),
    }
}

// The same, with the event back where memory is refused.
#[inline(always)]
fn occurred(device: &mut Device, event: Event) -> Result<Vec<Output>, StepFault>
    requires { IsLeftWhole event }
    ensures ok { IfOk result (λ outputs. IsStep device.old.config (state_of_device device.old) event
        (state_of_device device.new) outputs.items) }
    ensures fault { IsStepFault device.old.config (state_of_device device.old) event
        (state_of_device device.new) result }
    ensures config { device.new.config ≡ device.old.config }
{
    match occur(device, &event) {
        Ok(outputs) => Ok(outputs),
        Err(_) => Err(StepFault::NoMemory(event)),
    }
}

/// A request that came in by a port, its bytes left where they are: the new state is that of
/// the routing table, and so are the outputs, once the bytes that came are edited as the
/// reaction says and stand in the one that lacks them. NoMemory where an allocation is refused:
/// then nothing has changed.
pub fn react_to_request(
    device: &mut Device,
    port: PortNumber,
    from: &Address,
    number: u32,
    bytes: &[u8],
) -> Result<Reaction, NoMemory>
    ensures done { IfOk result (λ reaction. PutsOut bytes.now reaction (λ outputs.
        IsStep device.old.config (state_of_device device.old)
        (events.Frame port from.now (bodies.Request number bytes.now))
        (state_of_device device.new) outputs)) }
    ensures same { OnErr result (state_of_device device.new ≡ state_of_device device.old) }
    ensures config { device.new.config ≡ device.old.config }
{
    device.request(Making::Edited, port, from, number, bytes)
}

/// A reply, in the same way. It takes no memory.
pub fn react_to_reply(
    device: &mut Device,
    port: PortNumber,
    from: &Address,
    number: u32,
    bytes: &[u8],
) -> Reaction
    ensures done { PutsOut bytes.now result (λ outputs.
        IsStep device.old.config (state_of_device device.old)
        (events.Frame port from.now (bodies.Reply number bytes.now))
        (state_of_device device.new) outputs) }
    ensures config { device.new.config ≡ device.old.config }
{
    match device.reply(Making::Edited, port, from, number, bytes) {
        Ok(reaction) => reaction,
        Err(_) => unreachable!(),
    }
}

/// An Enter, its bytes left where they are: nothing changes, and the output is that of the
/// routing table, once the bytes of the command stand in it.
pub fn react_to_enter(device: &Device, of: u32, bytes: &[u8]) -> Reaction
    ensures { PutsOut bytes.now result (λ outputs. IsStep device.now.config
        (state_of_device device.now) (events.Command
        (Enter of bytes.now)) (state_of_device device.now) outputs) }
{
    match device.entered(of, bytes) {
        Ok(output) => Reaction::Edited {
            output,
            edit: Edit::AsTheyCame,
        },
        Err(fault) => Reaction::Whole(Output::Refused(fault)),
    }
}

/// One event, as the contract of a module says.
#[inline(never)]
pub fn step(device: &mut Device, event: Event) -> Result<Vec<Output>, StepFault>
    ensures ok { IfOk result (λ outputs. IsStep device.old.config (state_of_device device.old) event
        (state_of_device device.new) outputs.items) }
    ensures fault { IsStepFault device.old.config (state_of_device device.old) event
        (state_of_device device.new)
        result }
    ensures config { device.new.config ≡ device.old.config }
{
    if is_left_whole(&event) {
        return occurred(device, event);
    }
    match event {
        Event::Tick(by) => match device.tick(by) {
            Ok(outputs) => Ok(outputs),
            Err(TickFault::OutOfMemory) => Err(StepFault::NoMemory(Event::Tick(by))),
            Err(TickFault::Full) => Err(StepFault::ClockFull(Event::Tick(by))),
        },
        Event::Command(command) => match command {
            Command::Enter { of, bytes } => enter_step(device, of, bytes),
            _ => unreachable!(),
        },
        Event::Frame { port, from, body } => match body {
            Body::Data { id, bytes } => datum_step(device, port, from, id, bytes),
            _ => unreachable!(),
        },
    }
}
