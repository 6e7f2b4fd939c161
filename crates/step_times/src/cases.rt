//! The cases: a step, and what else stands in the tables.
use crate::bridge::Bridge;
use crate::fault::TimesFault;
use crate::frames::{DATUM, long_datum, long_send};
use cip_module::Module;
use std::alloc::Global;

/// What is done in a turn.
#[derive(Clone, Copy)]
enum Turn {
    /// An Unconnected_Send goes on, and the one that has waited longest is answered.
    Send,
    /// A connection is opened, and the one that has been open for longest is closed.
    Open,
    /// A connection is opened large, and closed.
    Large,
    /// A datum goes on, by each connection in turn.
    Datum,
    /// A datum of so many bytes goes on, by a connection that was opened large.
    LongDatum(u16),
    /// An Unconnected_Send with so many pairs of bytes goes on, and is answered.
    Long(u16),
}

/// A step, and how many other requests wait and other connections are open.
#[derive(Clone, Copy)]
pub struct Case {
    pub name: &'static str,
    turn: Turn,
    others: u16,
}

/// With the tables empty, and with room in them for what the step takes alone.
pub const CASES: [Case; 12] = [
    Case {
        name: "send",
        turn: Turn::Send,
        others: 0,
    },
    Case {
        name: "open",
        turn: Turn::Open,
        others: 0,
    },
    Case {
        name: "datum",
        turn: Turn::Datum,
        others: 0,
    },
    Case {
        name: "send-full",
        turn: Turn::Send,
        others: 255,
    },
    Case {
        name: "open-full",
        turn: Turn::Open,
        others: 255,
    },
    Case {
        name: "datum-full",
        turn: Turn::Datum,
        others: 255,
    },
    Case {
        name: "large",
        turn: Turn::Large,
        others: 0,
    },
    Case {
        name: "datum-4",
        turn: Turn::LongDatum(6),
        others: 0,
    },
    Case {
        name: "datum-400",
        turn: Turn::LongDatum(402),
        others: 0,
    },
    Case {
        name: "datum-long",
        turn: Turn::LongDatum(65_535),
        others: 0,
    },
    Case {
        name: "half",
        turn: Turn::Long(16_000),
        others: 0,
    },
    Case {
        name: "long",
        turn: Turn::Long(32_000),
        others: 0,
    },
];

/// The case of this name.
pub fn case_of(name: &str) -> Option<Case> {
    CASES.iter().find(|case| case.name == name).copied()
}

// Opens connections with serial numbers from 0 on.
fn open_all<M: Module>(bridge: &mut Bridge<M>, count: u16) -> Result<(), TimesFault> {
    for serial in 0..count {
        bridge.open(serial)?;
    }
    Ok(())
}

// Has so many requests wait.
fn send_all<M: Module>(bridge: &mut Bridge<M>, count: u16) -> Result<(), TimesFault> {
    for _ in 0..count {
        bridge.send()?;
    }
    Ok(())
}

fn send_turns<M: Module>(
    bridge: &mut Bridge<M>,
    others: u16,
    times: u32,
) -> Result<(), TimesFault> {
    for _ in 0..times {
        let number = bridge.send()?;
        bridge.answer(number.wrapping_sub(u32::from(others)))?;
    }
    Ok(())
}

fn open_turns<M: Module>(
    bridge: &mut Bridge<M>,
    others: u16,
    times: u32,
) -> Result<(), TimesFault> {
    for turn in 0..times {
        let oldest = (turn % 65_536) as u16;
        bridge.open(oldest.wrapping_add(others))?;
        bridge.close(oldest)?;
    }
    Ok(())
}

fn large_turns<M: Module>(bridge: &mut Bridge<M>, times: u32) -> Result<(), TimesFault> {
    for turn in 0..times {
        let serial = (turn % 65_536) as u16;
        bridge.open_large(serial, 6)?;
        bridge.close(serial)?;
    }
    Ok(())
}

fn datum_turns<M: Module>(
    bridge: &mut Bridge<M>,
    others: u16,
    times: u32,
) -> Result<(), TimesFault> {
    bridge.open(others)?;
    for turn in 0..times {
        let before = (turn % (u32::from(others) + 1)) as u16;
        bridge.datum(before, &DATUM)?;
    }
    Ok(())
}

fn long_datum_turns<M: Module>(
    alloc: Global,
    bridge: &mut Bridge<M>,
    size: u16,
    times: u32,
) -> Result<(), TimesFault> {
    let datum = long_datum(alloc, size)?;
    bridge.open_large(0, size)?;
    for _ in 0..times {
        bridge.datum(0, &datum)?;
    }
    Ok(())
}

fn long_turns<M: Module>(
    alloc: Global,
    bridge: &mut Bridge<M>,
    pairs: u16,
    times: u32,
) -> Result<(), TimesFault> {
    let message = long_send(alloc, pairs)?;
    for _ in 0..times {
        let number = bridge.send_as(&message)?;
        bridge.answer(number)?;
    }
    Ok(())
}

// After so many turns the bridge is reset, before the 65,535 numbers of its incarnation are spent:
// a turn takes two at most, and the tables as many as they have room for.
const ROUND: u32 = 30_000;

impl Case {
    // So many turns, once the tables are filled.
    fn round<M: Module>(
        &self,
        alloc: Global,
        bridge: &mut Bridge<M>,
        times: u32,
    ) -> Result<(), TimesFault> {
        open_all(bridge, self.others)?;
        send_all(bridge, self.others)?;
        match self.turn {
            Turn::Send => send_turns(bridge, self.others, times),
            Turn::Open => open_turns(bridge, self.others, times),
            Turn::Large => large_turns(bridge, times),
            Turn::Datum => datum_turns(bridge, self.others, times),
            Turn::LongDatum(size) => long_datum_turns(alloc, bridge, size, times),
            Turn::Long(pairs) => long_turns(alloc, bridge, pairs, times),
        }
    }

    /// So many turns of the bridge that this module is, in rounds between which it is reset.
    /// NoMemory where an allocation is refused, Unexpected where the bridge does not send what it
    /// is to send.
    pub fn turns<M: Module>(
        &self,
        alloc: Global,
        module_: M,
        times: u32,
    ) -> Result<(), TimesFault> {
        let mut bridge = Bridge::of(alloc, module_);
        for _ in 0..times / ROUND {
            self.round(alloc, &mut bridge, ROUND)?;
            bridge.reset()?;
        }
        self.round(alloc, &mut bridge, times % ROUND)
    }
}
