//! Questions about the table of requests that wait.
use crate::texts::{Named, name as name_of, text};
use cip_base::{Address, PortNumber, count_of};
use cip_pending::{AddFault, Entry, Kind, PendingTable, UpSide};
use line_words::{Asked, Asker, Pairs, Then, Words};
use std::alloc::Global;
use std::fmt;
use std::fmt::Write;

#[derive(Clone, Copy)]
struct Shown<'a>(&'a Entry);

impl fmt::Display for Shown<'_> {
    fn fmt<W: fmt::Write>(&self, f: &mut fmt::Formatter<W>) -> fmt::Result {
        let entry = self.0;
        let hop = Then(entry.port.get(), Pairs(entry.address.as_slice()));
        let way = Then(Asker(&entry.up), Then("to", hop));
        let asked = Then("words", Then(entry.words, Asked(entry.kind)));
        let more = Then("due", Then(entry.deadline, asked));
        fmt::Display::fmt(&Then(way, more), f)
    }
}

/// All that a table shows: at most four of its entries.
pub fn state(alloc: Global, table: &PendingTable) -> Option<String> {
    let last = Then("last", table.last());
    let mut shown = text(alloc, Then(Named(table.can_add()), last))?;
    let mut after = None;
    for _ in 0..4 {
        let Some((number, entry)) = table.next_after(after) else {
            break;
        };
        write!(shown, " {number} {entry:?}").ok()?;
        after = Some(number);
    }
    Some(shown)
}

/// `ROOM FIRST`: an empty table.
pub fn of_room(words: &mut Words) -> Option<PendingTable> {
    let room = usize::try_from(words.u64()?).ok()?;
    let first = words.u32()?;
    if count_of(first) == 0 {
        return None;
    }
    words.open();
    let table = PendingTable::with_room(words.alloc, room, first);
    words.had(table)
}

// `OP DEADLINE`: a request of this module's command, which went by port 2 to address 05.
fn own(words: &mut Words) -> Option<Entry> {
    Some(Entry {
        up: UpSide::Local { op: words.u32()? },
        port: PortNumber::new(2)?,
        address: Address::read(&[5]).ok()?,
        deadline: words.u64()?,
        words: 4,
        kind: Kind::Unconnected,
    })
}

// `PORT ADDRESS NUMBER PORT ADDRESS DEADLINE WORDS`, and perhaps `TRIAD`: a request of a node on a
// link, an opening where it has a triad.
fn of_link(words: &mut Words) -> Option<Entry> {
    Some(Entry {
        up: UpSide::Link {
            port: words.port()?,
            address: words.address()?,
            number: words.u32()?,
        },
        port: words.port()?,
        address: words.address()?,
        deadline: words.u64()?,
        words: words.u8()?,
        kind: match words.triad() {
            Some(triad) => Kind::Opening(triad),
            None => Kind::Unconnected,
        },
    })
}

// A number or a reason, and the request that goes with it.
fn behind<T: fmt::Display + Drop>(alloc: Global, front: T, entry: &Entry) -> Option<String> {
    format!(in alloc; "{front}: {}", Shown(entry)).ok()
}

// The number, or why there is none and the request that comes back.
fn add(table: &mut PendingTable, words: &mut Words, entry: Option<Entry>) -> Option<String> {
    let alloc = words.alloc;
    let entry = entry?;
    let before = entry.copy();
    words.open();
    let added = table.add(entry);
    words.close(false);
    match added {
        Ok(number) => text(alloc, number),
        Err(fault) => {
            let why = format!(in alloc; "{fault}").ok()?;
            let (AddFault::Full(entry) | AddFault::NumbersSpent(entry)) = fault;
            words.same = Some(entry == before);
            behind(alloc, why.as_str(), &entry)
        }
    }
}

// `NUMBER PORT ADDRESS`
fn taken(table: &mut PendingTable, words: &mut Words) -> Option<String> {
    let number = words.u32()?;
    let port = words.port()?;
    let address = words.address()?;
    match table.take(number, port, &address) {
        Some(entry) => text(words.alloc, Shown(&entry)),
        None => text(words.alloc, "none"),
    }
}

// `NOW`
fn expired(table: &mut PendingTable, words: &mut Words) -> Option<String> {
    match table.expire(words.u64()?) {
        Some((number, entry)) => behind(words.alloc, number, &entry),
        None => text(words.alloc, "none"),
    }
}

// A question that changes the table.
fn changed(table: &mut PendingTable, name: &str, words: &mut Words) -> Option<String> {
    let alloc = words.alloc;
    match name {
        "add" => {
            let entry = own(words);
            add(table, words, entry)
        }
        "add_link" => {
            let entry = of_link(words);
            add(table, words, entry)
        }
        "take" => taken(table, words),
        "expire" => expired(table, words),
        // begins the next incarnation where there is one: whether there was
        "reset" => {
            let is_left = table.can_reset();
            if is_left {
                table.reset();
            }
            text(alloc, is_left)
        }
        _ => None,
    }
}

/// The answer to a question of this name.
pub fn answer(table: &mut PendingTable, name: &str, words: &mut Words) -> Option<String> {
    let alloc = words.alloc;
    match name {
        "can_add" => match table.can_add() {
            Some(reason) => name_of(alloc, reason),
            None => text(alloc, "yes"),
        },
        // `NUMBER PORT ADDRESS`
        "look" => {
            let number = words.u32()?;
            let port = words.port()?;
            let address = words.address()?;
            match table.look(number, port, &address) {
                Some(entry) => text(alloc, Shown(entry)),
                None => text(alloc, "none"),
            }
        }
        // the least number of all, or above the one that is given
        "least" | "after" => {
            let after = if name == "after" {
                Some(words.u32()?)
            } else {
                None
            };
            match table.next_after(after) {
                Some((number, _)) => text(alloc, number),
                None => text(alloc, "none"),
            }
        }
        "last" => text(alloc, table.last()),
        // a request of a link, and whether its copy is the same
        "copy" => {
            let entry = of_link(words)?;
            let copy = entry.copy();
            text(alloc, Then(Shown(&copy), copy == entry))
        }
        _ => changed(table, name, words),
    }
}
