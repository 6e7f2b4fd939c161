//! Links that are down, and what is lost there.

use crate::links::{Side, link_of, link_word};
use crate::naming::module_text;
use cip_base::NoMemory;
use cip_chassis::Topology;
use cip_routing::Body;
use cip_world::{Flying, FrameName, World, frame_at};
use std::alloc::{AllocError, Global};

/// A link, or what a module sends there, is down since a line.
#[derive(Clone, Copy)]
pub struct Outage {
    pub side: Side,
    pub since: usize,
}

/// The outages that last, the oldest first.
#[derive(Drop)]
pub struct Outages {
    outages: Vec<Outage>,
}

/// A frame that is lost: the line by which it is, and a comment that says why.
#[derive(Drop)]
pub struct Loss {
    pub why: String,
    pub line: String,
}

impl Outage {
    // Whether what a side sends is lost.
    fn has(self, side: Side) -> bool {
        self.side.link == side.link
            && (self.side.module_.is_none() || self.side.module_ == side.module_)
    }
}

impl Outages {
    /// None. It takes no memory.
    pub fn new(alloc: Global) -> Outages {
        Outages {
            outages: Vec::new(alloc),
        }
    }

    pub fn is_empty(&self) -> bool {
        self.outages.is_empty()
    }

    /// The outage by which what a side sends is lost.
    pub fn over(&self, side: Side) -> Option<Outage> {
        for outage in self.outages.as_slice() {
            if outage.has(side) {
                return Some(*outage);
            }
        }
        None
    }

    /// One more outage.
    pub fn begin(&mut self, outage: Outage) -> Result<(), NoMemory> {
        self.outages.push(outage)?;
        Ok(())
    }

    /// The outage of this very side is over; false where there is none.
    pub fn end(&mut self, side: Side) -> bool {
        let count = self.outages.len();
        self.outages.retain(|outage| outage.side != side);
        self.outages.len() < count
    }

    /// The words of the lines by which the outages began, with commas between them.
    pub fn told(&self, alloc: Global, topology: &Topology) -> Result<String, AllocError> {
        let mut text = String::new(alloc);
        for outage in self.outages.as_slice() {
            if !text.is_empty() {
                text.push_str(", ")?;
            }
            text.push_str(link_word(topology, outage.side.link))?;
            if let Some(at) = outage.side.module_ {
                write!(text, " {}", module_text(topology, at))?;
            }
        }
        if text.is_empty() {
            text.push_str("none")?;
        }
        Ok(text)
    }
}

// The side from which a frame is sent.
fn side_of(topology: &Topology, flying: &Flying<'_>) -> Option<Side> {
    let link = link_of(topology, flying.at, flying.port)?;
    Some(Side {
        link,
        module_: Some(flying.at),
    })
}

// What a frame is, from whom and to whom.
fn put_frame(
    text: &mut String,
    topology: &Topology,
    flying: &Flying<'_>,
) -> Result<(), AllocError> {
    let (word, number) = match flying.body {
        Body::Request { number, .. } => ("request", *number),
        Body::Reply { number, .. } => ("reply", *number),
        Body::Data { id, .. } => ("data", *id),
    };
    let from = module_text(topology, flying.at);
    write!(text, "{word} {number} from {from}")?;
    match topology.node_at(flying.at, flying.port, flying.to) {
        Some(to) => write!(text, " to {}", module_text(topology, to)),
        None => Ok(()),
    }
}

// What is down, for whom, and since when.
fn put_outage(text: &mut String, topology: &Topology, outage: Outage) -> Result<(), AllocError> {
    let link = link_word(topology, outage.side.link);
    let since = outage.since;
    match outage.side.module_ {
        Some(at) => {
            let module_ = module_text(topology, at);
            write!(text, "; {link} is down for {module_} since line {since}")
        }
        None => write!(text, "; {link} is down since line {since}"),
    }
}

// Why a frame is lost.
fn why_lost(
    alloc: Global,
    topology: &Topology,
    flying: &Flying<'_>,
    outage: Outage,
) -> Result<String, AllocError> {
    let mut text = String::from_str(alloc, "# lost: ")?;
    put_frame(&mut text, topology, flying)?;
    put_outage(&mut text, topology, outage)?;
    Ok(text)
}

// The loss of a frame that waits, where it was sent into an outage.
fn loss_of(
    alloc: Global,
    world: &World,
    outages: &Outages,
    name: FrameName,
) -> Result<Option<Loss>, AllocError> {
    let topology = world.topology();
    let Some(flying) = frame_at(world.journal(), name) else {
        return Ok(None);
    };
    let Some(side) = side_of(topology, &flying) else {
        return Ok(None);
    };
    let Some(outage) = outages.over(side) else {
        return Ok(None);
    };
    let why = why_lost(alloc, topology, &flying, outage)?;
    let mut line = String::new(alloc);
    write!(line, "lose {}.{}", name.entry, name.output)?;
    Ok(Some(Loss { why, line }))
}

/// What was sent into the outages since there were so many entries, in rising name.
pub fn losses_since(
    alloc: Global,
    world: &World,
    outages: &Outages,
    before: usize,
) -> Result<Vec<Loss>, NoMemory> {
    let mut losses = Vec::new(alloc);
    if outages.is_empty() {
        return Ok(losses);
    }
    let waiting = world.waiting()?;
    for name in waiting.iter() {
        if name.entry >= before {
            if let Some(loss) = loss_of(alloc, world, outages, *name)? {
                losses.push(loss)?;
            }
        }
    }
    Ok(losses)
}
