//! Questions about the table of connections.
ghost use Rattle.std.specs.Prelude.{◌≡◌, ◌<◌, IfSome, None};
ghost use Rattle.std.specs.FinMap as map;
ghost use Rattle.cip_base.specs.Counts.{count_of};
ghost use Rattle.cip_hops.specs.Sides.{op_of};

use crate::texts::{Named, Perhaps, name as name_of, text};
use cip_base::{Address, PortNumber, Triad, count_of};
use cip_hops::{
    BeginFault, BeginReason, Held, Hop, HopDown, HopTable, HopUp, Opening, OwnIds, Side,
};
use cip_segment::read_path;
use line_words::{Then, Words};
use std::alloc::Global;
use std::fmt::Write;

fn triad(serial: u16) -> Triad {
    Triad {
        serial,
        vendor: 0x0101,
        originator: 0x0A0B_0C0D,
    }
}

fn link_down() -> Option<HopDown> {
    Some(HopDown::Link {
        port: PortNumber::new(1)?,
        address: Address::read(&[3]).ok()?,
    })
}

fn link_up() -> Option<HopUp>
    ensures { IfSome result (λ up. op_of up ≡ None) }
{
    Some(HopUp::Link {
        port: PortNumber::new(2)?,
        address: Address::read(&[1]).ok()?,
        their_id: 7,
    })
}

// Over the path 01 03, then class 4, with the least watchdog.
fn opening(alloc: Global, serial: u16, up: HopUp, down: HopDown) -> Option<Opening>
    ensures up { IfSome result (λ o. o.up ≡ up) }
    ensures multiplier { IfSome result (λ o. o.multiplier ≡ 0) }
{
    let path = read_path(alloc, &[1, 3, 0x20, 4]).ok()?;
    Some(Opening {
        triad: triad(serial),
        up,
        down,
        path,
        ot_size: 6,
        to_size: 4,
        ot_rpi: 10_000,
        to_rpi: 20_000,
        multiplier: 0,
        class: 1,
        large: false,
    })
}

// `SERIAL`, and `through` for a connection that goes on or `end` for one that ends here, from
// address 01 by port 2.
fn routed(alloc: Global, words: &mut Words) -> Option<Opening>
    ensures up { IfSome result (λ o. op_of o.up ≡ None) }
    ensures multiplier { IfSome result (λ o. o.multiplier ≡ 0) }
{
    let serial = words.u16()?;
    let down = match words.word()? {
        "through" => link_down()?,
        "end" => HopDown::End {
            config: 100,
            consume: 101,
            produce: 102,
        },
        _ => return None,
    };
    let up = link_up()?;
    let opening = opening(alloc, serial, up, down)?;
    Some(opening)
}

fn empty_table(alloc: Global, room: usize, first: u32) -> Option<HopTable>
    requires { 0 < count_of first }
    ensures { IfSome result (λ t. t ≡ record { room = room; next = first; held = map.empty }) }
{
    match HopTable::with_room(alloc, room, first) {
        Ok(table) => Some(table),
        Err(_) => None,
    }
}

/// `ROOM FIRST`: an empty table.
pub fn of_room(words: &mut Words) -> Option<HopTable> {
    let room = usize::try_from(words.u64()?).ok()?;
    let first = words.u32()?;
    if count_of(first) == 0 {
        return None;
    }
    words.open();
    let table = HopTable::with_room(words.alloc, room, first);
    words.had(table)
}

/// A table in which a connection of this command alone is opening.
pub fn table_of_command(alloc: Global, op: u32) -> Option<HopTable> {
    let mut table = empty_table(alloc, 1, 1)?;
    let opening = opening(alloc, 9, HopUp::Local { op }, link_down()?)?;
    match table.begin(opening) {
        Ok(_) => Some(table),
        Err(_) => None,
    }
}

/// All that a table shows: whether it would take a further opening, and what it holds of the
/// serials from 1 to 4.
pub fn state(alloc: Global, table: &HopTable) -> Option<String> {
    let free = table.can_begin(&triad(9), 2);
    let mut shown = text(alloc, Then(Named(free), Then("last", table.last())))?;
    for serial in 1..=4u16 {
        write!(shown, " {:?}", table.held(&triad(serial))).ok()?;
    }
    Some(shown)
}

#[tactic(auto, using(cip_hops::proofs::Callers::no_op))]
fn begin(table: &mut HopTable, opening: Opening) -> Result<OwnIds, BeginFault>
    requires up { op_of opening.up ≡ None }
    requires multiplier { opening.multiplier ≡ 0 }
{
    table.begin(opening)
}

// The own ids down and up, or why there are none, and then whether the opening came back.
fn begun(table: &mut HopTable, words: &mut Words) -> Option<String> {
    let alloc = words.alloc;
    let opening = routed(alloc, words)?;
    let before = name_of(alloc, &opening)?;
    words.open();
    let given = begin(table, opening);
    words.close(false);
    let (reason, opening) = match given {
        Ok(OwnIds { up, down }) => return text(alloc, Then(Perhaps(down), Perhaps(up))),
        Err(BeginFault::Duplicate(opening)) => (BeginReason::Duplicate, opening),
        Err(BeginFault::Full(opening)) => (BeginReason::Full, opening),
        Err(BeginFault::IdsSpent(opening)) => (BeginReason::IdsSpent, opening),
    };
    let back = name_of(alloc, &opening)?;
    words.same = Some(back.as_str() == before.as_str());
    name_of(alloc, reason)
}

// The serial of a hop.
fn serial(alloc: Global, hop: Option<&Hop>) -> Option<String> {
    match hop {
        Some(hop) => text(alloc, hop.opening.triad.serial),
        None => text(alloc, "none"),
    }
}

// `SERIAL COUNT`: the count that an end then has.
fn counted(table: &mut HopTable, words: &mut Words) -> Option<String> {
    let triad = triad(words.u16()?);
    let count = words.u16()?;
    match table.by_triad(&triad) {
        Some(hop) if !hop.opening.down.is_link() => {
            table.set_count(&triad, Side::Up, count);
        }
        _ => return text(words.alloc, "none"),
    }
    text(words.alloc, Perhaps(table.by_triad(&triad)?.consumed))
}

// Whether something left the table.
fn has_left<T: Drop>(alloc: Global, left: Option<T>) -> Option<String> {
    text(alloc, left.is_some())
}

// A question that changes nothing.
fn found(table: &HopTable, name: &str, words: &mut Words) -> Option<String> {
    let alloc = words.alloc;
    match name {
        // `ID PORT ADDRESS`, by the own id towards the originator, or towards the target
        "by_up" | "by_down" => {
            let id = words.u32()?;
            let port = words.port()?;
            let address = words.address()?;
            if name == "by_up" {
                serial(alloc, table.by_up(id, port, &address))
            } else {
                serial(alloc, table.by_down(id, port, &address))
            }
        }
        "by_op" => serial(alloc, table.by_op(words.u32()?)),
        "by_triad" => serial(alloc, table.by_triad(&triad(words.u16()?))),
        "least" => serial(alloc, table.next_after(None)),
        "after" => serial(alloc, table.next_after(Some(&triad(words.u16()?)))),
        "last" => text(alloc, table.last()),
        // `SERIAL IDS`
        "can_begin" => match table.can_begin(&triad(words.u16()?), words.u8()?) {
            Some(reason) => name_of(alloc, reason),
            None => text(alloc, "yes"),
        },
        _ => None,
    }
}

/// The answer to a question of this name.
pub fn answer(table: &mut HopTable, name: &str, words: &mut Words) -> Option<String> {
    let alloc = words.alloc;
    match name {
        "begin" => begun(table, words),
        // `SERIAL`: whether it was opening, and is open from 1 ms on
        "finish" => {
            let triad = triad(words.u16()?);
            let is_opening = matches!(table.held(&triad), Some(Held::Opening(_, _)));
            if is_opening {
                table.finish(&triad, 0x32, 1_000);
            }
            text(alloc, is_opening)
        }
        "abandon" => has_left(alloc, table.abandon(&triad(words.u16()?))),
        "remove" => has_left(alloc, table.remove(&triad(words.u16()?))),
        // `SERIAL NOW`: whether its side towards the originator is watched anew
        "touch" => {
            let triad = triad(words.u16()?);
            let now = words.u64()?;
            match table.by_triad(&triad) {
                Some(hop) if hop.opening.up.is_link() && now < 1_000_000 => {
                    table.touch(&triad, Side::Up, now);
                    text(alloc, true)
                }
                _ => text(alloc, false),
            }
        }
        "count" => counted(table, words),
        // `NOW`: the serial of the one that leaves
        "expire" => {
            let hop = table.expire(words.u64()?);
            serial(alloc, hop.as_ref())
        }
        // begins the next incarnation where there is one: whether there was
        "reset" => {
            let is_left = table.can_reset();
            if is_left {
                table.reset();
            }
            text(alloc, is_left)
        }
        _ => found(table, name, words),
    }
}
