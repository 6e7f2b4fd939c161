//! A module's outputs and tables as text.
use cip_hops::{HopDown, HopUp};
use cip_module::{Body, Dropped, HopRow, Output, PendingRow, Refused, StepFault, Tables};
use line_words::{Asked, Asker, Numbers, Pairs, Then};
use std::fmt;

/// What a frame holds.
#[derive(Clone, Copy)]
struct Held<'a>(&'a Body);

impl fmt::Display for Held<'_> {
    fn fmt<W: fmt::Write>(&self, f: &mut fmt::Formatter<W>) -> fmt::Result {
        let (name, number, bytes) = match self.0 {
            Body::Request { number, bytes } => ("request", *number, bytes),
            Body::Reply { number, bytes } => ("reply", *number, bytes),
            Body::Data { id, bytes } => ("data", *id, bytes),
        };
        let held = Then(number, Pairs(bytes.as_slice()));
        fmt::Display::fmt(&Then(name, held), f)
    }
}

fn refused_text(fault: Refused) -> &'static str {
    match fault {
        Refused::OpUsed => "refused OpUsed",
        Refused::NotOpen => "refused NotOpen",
        Refused::WrongSize => "refused WrongSize",
        Refused::ReservedService => "refused ReservedService",
        Refused::NoInstance => "refused NoInstance",
    }
}

fn dropped_text(reason: Dropped) -> &'static str {
    match reason {
        Dropped::Malformed => "dropped Malformed",
        Dropped::Late => "dropped Late",
        Dropped::UnknownId => "dropped UnknownId",
        Dropped::WrongSize => "dropped WrongSize",
    }
}

/// An output, as in a transcript.
#[derive(Clone, Copy)]
pub struct Told<'a>(pub &'a Output);

impl fmt::Display for Told<'_> {
    fn fmt<W: fmt::Write>(&self, f: &mut fmt::Formatter<W>) -> fmt::Result {
        match self.0 {
            Output::Send { port, to, body } => {
                let hop = Then(port.get(), Pairs(to.as_slice()));
                fmt::Display::fmt(&Then("send", Then(hop, Held(body))), f)
            }
            Output::Done { op, reply } => {
                let came = Then(*op, Pairs(reply.as_slice()));
                fmt::Display::fmt(&Then("done", came), f)
            }
            Output::Refused(fault) => f.write_str(refused_text(*fault)),
            Output::Consumed {
                triad,
                instance,
                bytes,
            } => {
                let end = Then(Numbers(*triad), *instance);
                let came = Then(end, Pairs(bytes.as_slice()));
                fmt::Display::fmt(&Then("consumed", came), f)
            }
            Output::Arrived { op, bytes } => {
                let came = Then(*op, Pairs(bytes.as_slice()));
                fmt::Display::fmt(&Then("arrived", came), f)
            }
            Output::Expired { triad } => { fmt::Display::fmt(&Then("expired", Numbers(*triad)), f) }
            Output::Ended { op } => fmt::Display::fmt(&Then("ended", *op), f),
            Output::Dropped(reason) => f.write_str(dropped_text(*reason)),
        }
    }
}

/// A step that did not happen.
pub fn fault_text(fault: &StepFault) -> &'static str {
    match fault {
        StepFault::NoMemory(_) => "no memory",
        StepFault::ClockFull(_) => "clock full",
    }
}

/// A request that waits.
#[derive(Clone, Copy)]
struct Waiting<'a>(&'a PendingRow);

impl fmt::Display for Waiting<'_> {
    fn fmt<W: fmt::Write>(&self, f: &mut fmt::Formatter<W>) -> fmt::Result {
        let entry = &self.0.entry;
        let hop = Then(entry.port.get(), Pairs(entry.address.as_slice()));
        let way = Then(Then("up", Asker(&entry.up)), Then("down", hop));
        let due = Then("due", entry.deadline);
        let asked = Then("words", Then(entry.words, Asked(entry.kind)));
        let more = Then(way, Then(due, asked));
        fmt::Display::fmt(&Then("pending", Then(self.0.number, more)), f)
    }
}

/// A number that may be missing.
#[derive(Clone, Copy)]
struct Perhaps<T>(Option<T>);

impl<T: fmt::Display> fmt::Display for Perhaps<T> {
    fn fmt<W: fmt::Write>(&self, f: &mut fmt::Formatter<W>) -> fmt::Result {
        match &self.0 {
            Some(number) => fmt::Display::fmt(number, f),
            None => f.write_str("-"),
        }
    }
}

/// The side of a connection towards its originator.
#[derive(Clone, Copy)]
struct Up<'a>(&'a HopRow);

impl fmt::Display for Up<'_> {
    fn fmt<W: fmt::Write>(&self, f: &mut fmt::Formatter<W>) -> fmt::Result {
        match &self.0.up {
            HopUp::Link {
                port,
                address,
                their_id,
            } => {
                let hop = Then(port.get(), Pairs(address.as_slice()));
                let ids = Then(
                    Then("own", Perhaps(self.0.ids.up)),
                    Then("their", *their_id),
                );
                fmt::Display::fmt(&Then(hop, ids), f)
            }
            HopUp::Local { op } => fmt::Display::fmt(&Then("op", *op), f),
        }
    }
}

/// The side of a connection towards its end.
#[derive(Clone, Copy)]
struct Down<'a>(&'a HopRow);

impl fmt::Display for Down<'_> {
    fn fmt<W: fmt::Write>(&self, f: &mut fmt::Formatter<W>) -> fmt::Result {
        match &self.0.down {
            HopDown::Link { port, address } => {
                let hop = Then(port.get(), Pairs(address.as_slice()));
                let own = Then("own", Perhaps(self.0.ids.down));
                let ids = Then(Then("their", Perhaps(self.0.their_id)), own);
                fmt::Display::fmt(&Then(hop, ids), f)
            }
            HopDown::End {
                config,
                consume,
                produce,
            } => {
                let end = Then(*config, Then(*consume, *produce));
                fmt::Display::fmt(&Then("end", end), f)
            }
        }
    }
}

/// A connection that is open.
#[derive(Clone, Copy)]
struct Open<'a>(&'a HopRow);

impl fmt::Display for Open<'_> {
    fn fmt<W: fmt::Write>(&self, f: &mut fmt::Formatter<W>) -> fmt::Result {
        let row = self.0;
        let sides = Then(Then("up", Up(row)), Then("down", Down(row)));
        let deadlines = Then(Perhaps(row.up_deadline), Perhaps(row.down_deadline));
        let path = Then("path", Pairs(row.path.view().bytes()));
        let sizes = Then("sizes", Then(row.ot_size, row.to_size));
        let more = Then(Then("watch", deadlines), Then(path, sizes));
        let hop = Then(Numbers(row.triad), Then(sides, more));
        fmt::Display::fmt(&Then("hop", hop), f)
    }
}

fn put_line<T: fmt::Display, W: fmt::Write>(f: &mut fmt::Formatter<W>, row: &T) -> fmt::Result {
    writeln!(f, "{row}")
}

/// The tables of a module, a line for each row.
#[derive(Clone, Copy)]
pub struct Shown<'a>(pub &'a Tables);

impl fmt::Display for Shown<'_> {
    fn fmt<W: fmt::Write>(&self, f: &mut fmt::Formatter<W>) -> fmt::Result {
        let tables = self.0;
        let last = Then(
            Then("id", tables.last_id),
            Then("number", tables.last_number),
        );
        put_line(f, &Then(Then("now", tables.now), last))?;
        for row in tables.pendings.as_slice() {
            put_line(f, &Waiting(row))?;
        }
        for row in tables.hops.as_slice() {
            put_line(f, &Open(row))?;
        }
        for row in tables.assemblies.as_slice() {
            let kept = Then(row.instance, Pairs(row.bytes.as_slice()));
            put_line(f, &Then("assembly", kept))?;
        }
        for op in tables.ops.as_slice() {
            put_line(f, &Then("op", *op))?;
        }
        Ok(())
    }
}
