//! What is asked: a part, which a heading names, and what it shows.
use crate::{
    connections, edited_messages, messages, paths, rooms, small_values, target, times,
    waiting_requests,
};
use cip_clock::Clock;
use cip_hops::HopTable;
use cip_pending::PendingTable;
use cip_target::Target;
use line_words::Words;
use std::alloc::Global;

/// A part of what stands below a module.
#[derive(Drop)]
pub enum Part {
    Values,
    Paths,
    Messages,
    Edits,
    Rooms,
    Clock(Clock),
    Waiting(PendingTable),
    Connections(HopTable),
    Target(Target),
}

impl Part {
    /// The part of a heading: `values`, `paths`, `messages`, `edits` and `rooms` have no state;
    /// `clock` shows 0; `waiting ROOM FIRST` and `connections ROOM FIRST` are empty tables,
    /// `command OP` is one in which the connection of this command is opening, and `target NAME` is
    /// a fresh target.
    pub fn of(words: &mut Words) -> Option<Part> {
        match words.word()? {
            "values" => Some(Part::Values),
            "paths" => Some(Part::Paths),
            "messages" => Some(Part::Messages),
            "edits" => Some(Part::Edits),
            "rooms" => Some(Part::Rooms),
            "clock" => Some(Part::Clock(Clock::new(0))),
            "waiting" => Some(Part::Waiting(waiting_requests::of_room(words)?)),
            "connections" => Some(Part::Connections(connections::of_room(words)?)),
            "command" => {
                let table = connections::table_of_command(words.alloc, words.u32()?)?;
                Some(Part::Connections(table))
            }
            "target" => Some(Part::Target(target::made(words)?)),
            _ => None,
        }
    }

    /// The answer to a question of this name. None where it can't be asked.
    pub fn answer(&mut self, name: &str, words: &mut Words) -> Option<String> {
        match self {
            Part::Values => small_values::answer(name, words),
            Part::Paths => paths::answer(name, words),
            Part::Messages => messages::answer(name, words),
            Part::Edits => edited_messages::answer(name, words),
            Part::Rooms => rooms::answer(name, words),
            Part::Clock(clock) => times::answer(clock, name, words),
            Part::Waiting(table) => waiting_requests::answer(table, name, words),
            Part::Connections(table) => connections::answer(table, name, words),
            Part::Target(target) => target::answer(target, name, words),
        }
    }

    /// All that it shows of what a call that is refused must leave as it was; empty where it has no
    /// state.
    pub fn state(&self, alloc: Global) -> Option<String> {
        match self {
            Part::Waiting(table) => waiting_requests::state(alloc, table),
            Part::Connections(table) => connections::state(alloc, table),
            Part::Target(target) => target::state(alloc, target),
            _ => Some(String::new(alloc)),
        }
    }
}
