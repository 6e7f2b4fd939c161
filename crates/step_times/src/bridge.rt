//! The bridge, its steps, and the nodes beside it.
ghost use Rattle.std.specs.Prelude.{◌<◌};

use crate::fault::TimesFault;
use crate::frames::{ANSWER, RESET, SEND, close, closed, large_open, large_opened, open, opened};
use cip_base::{Address, Bytes, PortNumber};
use cip_module::{Body, Event, Module, Output};
use std::alloc::Global;

/// The first id that the bridge draws.
const FIRST_ID: u32 = 0x21;

fn port_number(number: u16) -> PortNumber
    requires { 0 < number }
{
    let Some(number) = PortNumber::new(number) else {
        unreachable!()
    };
    number
}

fn address(byte: u8) -> Address {
    let Ok(address) = Address::read(&[byte]) else {
        unreachable!()
    };
    address
}

// A frame from the node above or below.
fn from_above(body: Body) -> Event {
    Event::Frame {
        port: port_number(2),
        from: address(0x01),
        body,
    }
}

fn from_below(body: Body) -> Event {
    Event::Frame {
        port: port_number(1),
        from: address(0x03),
        body,
    }
}

/// A bridge between a node above and a node below. The clock stands still.
#[derive(Drop)]
pub struct Bridge<M: Module> {
    alloc: Global,
    module_: M,
    // of its incarnation
    first_id: u32,
}

impl<M: Module> Bridge<M> {
    /// The bridge that this module is.
    pub fn of(alloc: Global, module_: M) -> Bridge<M> {
        Bridge {
            alloc,
            module_,
            first_id: FIRST_ID,
        }
    }

    fn bytes(&self, bytes: &[u8]) -> Result<Bytes, TimesFault> {
        Ok(Bytes::of(Vec::from_slice(self.alloc, bytes)?))
    }

    // The one frame that the bridge sends at an event.
    #[inline(always)]
    fn step(&mut self, event: Event) -> Result<Body, TimesFault> {
        let mut outputs = self.module_.step(event)?;
        match outputs.pop() {
            Some(Output::Send { body, .. }) if outputs.is_empty() => Ok(body),
            _ => Err(TimesFault::Unexpected),
        }
    }

    // A request from above goes on. Its number below.
    fn request(&mut self, number: u32, bytes: &[u8]) -> Result<u32, TimesFault> {
        let bytes = self.bytes(bytes)?;
        match self.step(from_above(Body::Request { number, bytes }))? {
            Body::Request { number, .. } => Ok(number),
            _ => Err(TimesFault::Unexpected),
        }
    }

    // A reply from below goes on.
    fn reply(&mut self, number: u32, bytes: &[u8]) -> Result<(), TimesFault> {
        let bytes = self.bytes(bytes)?;
        match self.step(from_below(Body::Reply { number, bytes }))? {
            Body::Reply { .. } => Ok(()),
            _ => Err(TimesFault::Unexpected),
        }
    }

    /// The bridge is reset: it forgets what waits and what is open, and has all numbers and ids of
    /// its next incarnation.
    pub fn reset(&mut self) -> Result<(), TimesFault> {
        let bytes = self.bytes(&RESET)?;
        match self.step(from_above(Body::Request { number: 1, bytes }))? {
            Body::Reply { .. } => {
                self.first_id = ((self.first_id >> 16).wrapping_add(1) << 16) | 1;
                Ok(())
            }
            _ => Err(TimesFault::Unexpected),
        }
    }

    /// An Unconnected_Send from above goes on. Its number below.
    pub fn send(&mut self) -> Result<u32, TimesFault> {
        self.request(1, &SEND)
    }

    /// So does this one. Its number below.
    pub fn send_as(&mut self, message: &[u8]) -> Result<u32, TimesFault> {
        self.request(1, message)
    }

    /// The node below answers it.
    pub fn answer(&mut self, number: u32) -> Result<(), TimesFault> {
        self.reply(number, &ANSWER)
    }

    /// A connection with this serial number is opened.
    pub fn open(&mut self, serial: u16) -> Result<(), TimesFault> {
        let number = self.request(1, &open(serial))?;
        self.reply(number, &opened(serial))
    }

    /// One is opened large, with so many bytes a datum from above.
    pub fn open_large(&mut self, serial: u16, size: u16) -> Result<(), TimesFault> {
        let number = self.request(1, &large_open(serial, size))?;
        self.reply(number, &large_opened(serial))
    }

    /// It is closed.
    pub fn close(&mut self, serial: u16) -> Result<(), TimesFault> {
        let number = self.request(1, &close(serial))?;
        self.reply(number, &closed(serial))
    }

    /// A datum from above goes on by the connection that was opened after so many others.
    #[inline(always)]
    pub fn datum(&mut self, before: u16, bytes: &[u8]) -> Result<(), TimesFault> {
        let bytes = self.bytes(bytes)?;
        let id = self.first_id.wrapping_add(1 + 2 * u32::from(before));
        match self.step(from_above(Body::Data { id, bytes }))? {
            Body::Data { .. } => Ok(()),
            _ => Err(TimesFault::Unexpected),
        }
    }
}
