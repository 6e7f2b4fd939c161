//! What the types of the program hold.
ghost use Rattle.std.specs.Prelude.{◌≡◌, ◌+◌, ◌<◌, ◌^◌, length, Some};
ghost use Rattle.hex.specs.Hex.{IsBytes};
ghost use Rattle.cip_chassis.specs.Plan.{Plan, IsTopology};
ghost use Rattle.cip_world.specs.declared.journal.Entry.{Entry};
ghost use Rattle.cip_transcript.specs.Show.{entry_text, names_of};
ghost use Rattle.cip_transcript.specs.Back.{read_text, lines_shown};
ghost use Rattle.cip_transcript.specs.Fits.{FitsBody, FitsTriad, FitsPort, FitsAddress, FitsOutput};
ghost use Rattle.cip_transcript.specs.Fits.{FitsOutputs, FitsName, FitsCommand, FitsInput};
ghost use Rattle.cip_transcript.specs.Fits.{FitsEntry, IsAmong};

use crate::laws::shown_entries_are_read;
use cip_base::{Address, Bytes, Ms, PortNumber, Triad};
use cip_chassis::Topology;
use cip_event::{Body, Command, Output};
use cip_world::{Entry, FrameName, Input};

fn slice_fits(bytes: &[u8])
    ensures { IsBytes bytes.now }
{}

fn bytes_fit(bytes: &Bytes)
    ensures { IsBytes bytes.now }
{
    slice_fits(bytes.as_slice());
}

fn number_fits(number: u32)
    ensures { number < 2 ^ 32 }
{}

fn small_fits(number: u16)
    ensures { number < 2 ^ 16 }
{}

fn port_fits(port: PortNumber)
    ensures { FitsPort port }
{
    small_fits(port.get());
}

fn address_fits(address: &Address)
    ensures { FitsAddress address.now }
{
    slice_fits(address.as_slice());
}

fn triad_fits(triad: &Triad)
    ensures { FitsTriad triad.now }
{
    small_fits(triad.serial);
    small_fits(triad.vendor);
    number_fits(triad.originator);
}

fn body_fits(body: &Body)
    ensures { FitsBody body.now }
{
    match body {
        Body::Request { number, bytes } => {
            number_fits(*number);
            bytes_fit(bytes);
        }
        Body::Reply { number, bytes } => {
            number_fits(*number);
            bytes_fit(bytes);
        }
        Body::Data { id, bytes } => {
            number_fits(*id);
            bytes_fit(bytes);
        }
    }
}

fn output_fits(output: &Output)
    ensures { FitsOutput output.now }
{
    match output {
        Output::Send { port, to, body } => {
            port_fits(*port);
            address_fits(to);
            body_fits(body);
        }
        Output::Done { op, reply } => {
            number_fits(*op);
            bytes_fit(reply);
        }
        Output::Refused(_) => {}
        Output::Consumed {
            triad,
            instance,
            bytes,
        } => {
            triad_fits(triad);
            number_fits(*instance);
            bytes_fit(bytes);
        }
        Output::Arrived { op, bytes } => {
            number_fits(*op);
            bytes_fit(bytes);
        }
        Output::Expired { triad } => triad_fits(triad),
        Output::Ended { op } => number_fits(*op),
        Output::Dropped(_) => {}
    }
}

fn outputs_fit(index: usize, outputs: &[Output])
    requires { index + length outputs.now < 2 ^ 64 }
    ensures { FitsOutputs index outputs.now }
{
    if let Some((first, rest)) = outputs.split_first() {
        output_fits(first);
        outputs_fit(index + 1, rest);
    }
}

fn name_fits(name: FrameName)
    ensures { FitsName name }
{}

fn command_fits(command: &Command)
    ensures { FitsCommand command.now }
{
    match command {
        Command::Open { op, .. } => number_fits(*op),
        Command::LargeOpen { op, .. } => number_fits(*op),
        Command::Close { op, .. } => number_fits(*op),
        Command::Send { op, .. } => number_fits(*op),
        Command::Enter { of, .. } => number_fits(*of),
        Command::Set { instance, .. } => number_fits(*instance),
        Command::Produce { instance } => number_fits(*instance),
    }
}

fn tick_fits(by: Ms)
    ensures { FitsInput (Input.Tick by) }
{
    small_fits(by.get());
}

fn input_fits(input: &Input)
    ensures { FitsInput input.now }
{
    match input {
        Input::Command(command) => command_fits(command),
        Input::Tick(by) => tick_fits(*by),
        Input::Frame { name, .. } => name_fits(*name),
    }
}

fn entry_fits(topology: &Topology, entry: &Entry)
    requires { IsAmong topology.now entry.now }
    ensures { FitsEntry topology.now entry.now }
{
    match entry {
        Entry::Step { input, outputs, .. } => {
            input_fits(input);
            outputs_fit(0, outputs.as_slice());
        }
        Entry::Lost { frame } => name_fits(*frame),
    }
}

/// The lines that a transcript shows of an entry over a topology, of one of its modules, are read
/// as that entry. Their types alone say that it fits.
pub fn entry_is_read(topology: &Topology, number: usize, entry: &Entry)
    requires { IsAmong topology.now entry.now }
    ensures { read_text topology.now (entry_text (names_of topology.now) number entry.now)
        ≡ Some (lines_shown number entry.now) }
{
    let _ = topology.configs();
    entry_fits(topology, entry);
    shown_entries_are_read();
}
