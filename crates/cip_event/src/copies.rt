//! Copies of events and outputs.
ghost use Rattle.std.specs.Prelude.{◌≡◌, IfOk};

use crate::event::{Body, Command, Event, Output};
use cip_base::{Bytes, NoMemory};
use std::alloc::Global;

fn copy_bytes(alloc: Global, bytes: &Bytes) -> Result<Bytes, NoMemory>
    ensures { IfOk result (λ b. b ≡ bytes.now) }
{
    Ok(Bytes::of(Vec::from_slice(alloc, bytes.as_slice())?))
}

impl Body {
    /// A copy; NoMemory where an allocation is refused.
    #[inline(always)]
    pub fn copy(&self, alloc: Global) -> Result<Body, NoMemory>
        ensures { IfOk result (λ b. b ≡ self.now) }
    {
        match self {
            Body::Request { number, bytes } => Ok(Body::Request {
                number: *number,
                bytes: copy_bytes(alloc, bytes)?,
            }),
            Body::Reply { number, bytes } => Ok(Body::Reply {
                number: *number,
                bytes: copy_bytes(alloc, bytes)?,
            }),
            Body::Data { id, bytes } => Ok(Body::Data {
                id: *id,
                bytes: copy_bytes(alloc, bytes)?,
            }),
        }
    }
}

impl Command {
    /// A copy; NoMemory where an allocation is refused.
    pub fn copy(&self, alloc: Global) -> Result<Command, NoMemory>
        ensures { IfOk result (λ c. c ≡ self.now) }
    {
        match self {
            Command::Open {
                op,
                timing,
                path,
                params,
            } => {
                let path = path.copy(alloc)?;
                Ok(Command::Open {
                    op: *op,
                    timing: *timing,
                    path,
                    params: *params,
                })
            }
            Command::LargeOpen {
                op,
                timing,
                path,
                params,
            } => {
                let path = path.copy(alloc)?;
                Ok(Command::LargeOpen {
                    op: *op,
                    timing: *timing,
                    path,
                    params: *params,
                })
            }
            Command::Close { op, of, timing } => Ok(Command::Close {
                op: *op,
                of: *of,
                timing: *timing,
            }),
            Command::Enter { of, bytes } => {
                let bytes = copy_bytes(alloc, bytes)?;
                Ok(Command::Enter { of: *of, bytes })
            }
            Command::Set { instance, bytes } => {
                let bytes = copy_bytes(alloc, bytes)?;
                Ok(Command::Set {
                    instance: *instance,
                    bytes,
                })
            }
            Command::Produce { instance } => Ok(Command::Produce {
                instance: *instance,
            }),
            Command::Send {
                op,
                timing,
                path,
                request,
            } => {
                let path = path.copy(alloc)?;
                let request = copy_bytes(alloc, request)?;
                Ok(Command::Send {
                    op: *op,
                    timing: *timing,
                    path,
                    request,
                })
            }
        }
    }
}

impl Event {
    /// A copy; NoMemory where an allocation is refused.
    pub fn copy(&self, alloc: Global) -> Result<Event, NoMemory>
        ensures { IfOk result (λ e. e ≡ self.now) }
    {
        match self {
            Event::Command(command) => {
                let command = command.copy(alloc)?;
                Ok(Event::Command(command))
            }
            Event::Frame { port, from, body } => {
                let body = body.copy(alloc)?;
                Ok(Event::Frame {
                    port: *port,
                    from: from.copy(),
                    body,
                })
            }
            Event::Tick(by) => Ok(Event::Tick(*by)),
        }
    }
}

impl Output {
    /// A copy; NoMemory where an allocation is refused.
    pub fn copy(&self, alloc: Global) -> Result<Output, NoMemory>
        ensures { IfOk result (λ o. o ≡ self.now) }
    {
        match self {
            Output::Send { port, to, body } => {
                let body = body.copy(alloc)?;
                Ok(Output::Send {
                    port: *port,
                    to: to.copy(),
                    body,
                })
            }
            Output::Done { op, reply } => {
                let reply = copy_bytes(alloc, reply)?;
                Ok(Output::Done { op: *op, reply })
            }
            Output::Refused(fault) => Ok(Output::Refused(*fault)),
            Output::Consumed {
                triad,
                instance,
                bytes,
            } => {
                let bytes = copy_bytes(alloc, bytes)?;
                Ok(Output::Consumed {
                    triad: *triad,
                    instance: *instance,
                    bytes,
                })
            }
            Output::Arrived { op, bytes } => {
                let bytes = copy_bytes(alloc, bytes)?;
                Ok(Output::Arrived { op: *op, bytes })
            }
            Output::Expired { triad } => Ok(Output::Expired { triad: *triad }),
            Output::Ended { op } => Ok(Output::Ended { op: *op }),
            Output::Dropped(reason) => Ok(Output::Dropped(*reason)),
        }
    }
}
