//! What modules are given from outside.
ghost use Rattle.std.specs.Prelude.{◌≡◌, IfOk, IsTrue};
ghost use Rattle.cip_threads.specs.Feeds.{input_of, event_of};

use crate::same::is_same_command;
use cip_base::{Ms, NoMemory};
use cip_routing::{Command, Event};
use cip_world::Input;
use std::alloc::Global;

/// What a module is given from outside.
#[derive(Drop)]
pub enum Feed {
    /// A command of the module's own application.
    Command(Command),
    /// So much time went by.
    Tick(Ms),
}

impl Feed {
    /// A copy; NoMemory where an allocation is refused.
    pub fn copy(&self, alloc: Global) -> Result<Feed, NoMemory>
        ensures { IfOk result (λ f. f ≡ self.now) }
    {
        match self {
            Feed::Command(command) => {
                let command = command.copy(alloc)?;
                Ok(Feed::Command(command))
            }
            Feed::Tick(by) => Ok(Feed::Tick(*by)),
        }
    }

    /// The event that the module is to step by.
    pub(crate) fn event(&self, alloc: Global) -> Result<Event, NoMemory>
        ensures { IfOk result (λ e. e ≡ event_of self.now) }
    {
        match self {
            Feed::Command(command) => {
                let command = command.copy(alloc)?;
                Ok(Event::Command(command))
            }
            Feed::Tick(by) => Ok(Event::Tick(*by)),
        }
    }

    /// What the module's entry is to have.
    pub(crate) fn into_input(self) -> Input
        ensures { result ≡ input_of self }
    {
        match self {
            Feed::Command(command) => Input::Command(command),
            Feed::Tick(by) => Input::Tick(by),
        }
    }

    /// Whether another feed is the same.
    pub(crate) fn is(&self, other: &Feed) -> bool
        ensures { IsTrue result → self.now ≡ other.now }
    {
        match (self, other) {
            (Feed::Command(one), Feed::Command(other)) => is_same_command(one, other),
            (Feed::Tick(one), Feed::Tick(other)) => *one == *other,
            _ => false,
        }
    }
}
