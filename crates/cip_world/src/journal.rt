//! What happened in a chassis, entry by entry.
ghost use Rattle.std.specs.Prelude.{◌≡◌};

use cip_base::{Address, ModuleId, Ms, PortNumber};
use cip_event::{Command, FrameName, Output};
use std::marker::Model;

/// The outputs of one step, in order.
#[derive(Drop)]
pub struct Outputs {
    outputs: Vec<Output>,
}

impl Model for Outputs {
    ghost use Rattle.std.specs.Prelude.{List};
    ghost use Rattle.cip_event.specs.declared.event.Output.{Output};

    ghost Value = { List Output };

    ghost view = { λ o. o.outputs.items };
}

impl Outputs {
    /// The outputs of the vector.
    pub fn of(outputs: Vec<Output>) -> Outputs
        ensures { result ≡ outputs.items }
    {
        Outputs { outputs }
    }

    /// The outputs, borrowed.
    pub fn as_slice(&self) -> &[Output]
        ensures { result.now ≡ self.now }
    {
        self.outputs.as_slice()
    }
}

/// What a module was given: a command, a tick, or a frame, by its name. What the frame holds stands
/// in the entry that sent it, and there alone.
#[derive(Drop)]
pub enum Input {
    Command(Command),
    Tick(Ms),
    /// A frame that came in by this port of the module from this address.
    Frame {
        port: PortNumber,
        from: Address,
        name: FrameName,
    },
}

/// An entry of a journal.
#[derive(Drop)]
pub enum Entry {
    /// The module at this place took a step.
    Step {
        at: ModuleId,
        input: Input,
        outputs: Outputs,
    },
    /// A frame was lost on its link.
    Lost {
        frame: FrameName,
    },
}
