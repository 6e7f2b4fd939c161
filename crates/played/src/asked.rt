//! The events that a script's lines ask for.
use cip_base::Ms;
use cip_module::{Body, Command, Event, LargeParams, OpenParams};
use line_words::Words;

// `OP TICK TICKS PATH REQUEST`
fn send(words: &mut Words) -> Option<Command> {
    Some(Command::Send {
        op: words.u32()?,
        timing: words.timing()?,
        path: words.path()?,
        request: words.list()?,
    })
}

// `SERIAL MULT TRANSPORT OT_RPI OT_PARAMS TO_RPI TO_PARAMS`
fn params(words: &mut Words) -> Option<OpenParams> {
    Some(OpenParams {
        serial: words.u16()?,
        multiplier: words.u8()?,
        transport: words.u8()?,
        ot_rpi: words.u32()?,
        ot_params: words.u16()?,
        to_rpi: words.u32()?,
        to_params: words.u16()?,
    })
}

// `OP TICK TICKS PATH`, and the parameters.
fn open(words: &mut Words) -> Option<Command> {
    Some(Command::Open {
        op: words.u32()?,
        timing: words.timing()?,
        path: words.path()?,
        params: params(words)?,
    })
}

// The same with network connection parameters of 32 bits.
fn large_params(words: &mut Words) -> Option<LargeParams> {
    Some(LargeParams {
        serial: words.u16()?,
        multiplier: words.u8()?,
        transport: words.u8()?,
        ot_rpi: words.u32()?,
        ot_params: words.u32()?,
        to_rpi: words.u32()?,
        to_params: words.u32()?,
    })
}

// `OP TICK TICKS PATH`, and the parameters.
fn large(words: &mut Words) -> Option<Command> {
    Some(Command::LargeOpen {
        op: words.u32()?,
        timing: words.timing()?,
        path: words.path()?,
        params: large_params(words)?,
    })
}

// `OP OF TICK TICKS`
fn close(words: &mut Words) -> Option<Command> {
    Some(Command::Close {
        op: words.u32()?,
        of: words.u32()?,
        timing: words.timing()?,
    })
}

// The command of this name.
fn command(name: &str, words: &mut Words) -> Option<Command> {
    match name {
        "send" => send(words),
        "open" => open(words),
        "large" => large(words),
        "close" => close(words),
        "enter" => Some(Command::Enter {
            of: words.u32()?,
            bytes: words.list()?,
        }),
        "set" => Some(Command::Set {
            instance: words.u32()?,
            bytes: words.list()?,
        }),
        "produce" => Some(Command::Produce {
            instance: words.u32()?,
        }),
        _ => None,
    }
}

// `NUMBER BYTES`: what a frame of this name holds.
fn body(name: &str, words: &mut Words) -> Option<Body> {
    let number = words.u32()?;
    let bytes = words.list()?;
    match name {
        "request" => Some(Body::Request { number, bytes }),
        "reply" => Some(Body::Reply { number, bytes }),
        _ => Some(Body::Data { id: number, bytes }),
    }
}

// `PORT FROM`, and what it holds.
fn frame(name: &str, words: &mut Words) -> Option<Event> {
    Some(Event::Frame {
        port: words.port()?,
        from: words.address()?,
        body: body(name, words)?,
    })
}

/// The event of this name. None where the words do not spell one.
pub fn event(name: &str, words: &mut Words) -> Option<Event> {
    match name {
        "request" | "reply" | "data" => frame(name, words),
        "tick" => Some(Event::Tick(Ms::new(words.u16()?)?)),
        _ => Some(Event::Command(command(name, words)?)),
    }
}
