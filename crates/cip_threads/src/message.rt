//! What a worker sends at its end.
ghost use Rattle.std.specs.Prelude.{◌≡◌, ◌<◌, ◌+◌, ◌∷◌, IfSome, IsTrue, Some, length, reverse};
ghost use Rattle.std.specs.Prelude.{take, vec_len};
ghost use Rattle.cip_laws.specs.Histories.{IsHistory, state_after};
ghost use Rattle.cip_routing.specs.Views.{ShowsState};
ghost use Rattle.cip_world.specs.declared.journal.Entry.TheVariants.{Step};
ghost use Rattle.cip_threads.specs.Messages.{turns_of};
ghost use Rattle.cip_threads.specs.Meetings.{AreMet, IsEnded, IsMet};

use crate::same::is_step_of;
use crate::views::{MessageView, TakenTurn};
use cip_base::ModuleId;
use cip_routing::{ModuleConfig, Tables};
use cip_world::{Entry, Input, Outputs};
use std::marker::Model;

/// A module, its config, what it did, and its tables at the end: what it did leads from the first
/// state of the config to the state that the tables show.
#[derive(Drop)]
pub(crate) struct Message {
    m: ModuleId,
    config: ModuleConfig,
    history: Vec<TakenTurn>,
    tables: Tables,
}

impl Model for Message {
    ghost use Rattle.std.specs.Prelude.{reverse};
    ghost use Rattle.cip_threads.specs.declared.views.MessageView.{MessageView};
    ghost use Rattle.cip_threads.specs.Messages.{IsTold};

    ghost Value = { MessageView };

    ghost view = { λ x. record {
      m = x.m;
      config = x.config;
      history = reverse x.history.items;
      tables = x.tables;
    } };

    ghost invariant = { λ x. IsTold (record {
      m = x.m;
      config = x.config;
      history = reverse x.history.items;
      tables = x.tables;
    }) };
}

impl Message {
    /// The message of a module that did this.
    pub(crate) fn new(
        m: ModuleId,
        config: ModuleConfig,
        history: Vec<TakenTurn>,
        tables: Tables,
    ) -> Message
        requires leads { IsHistory config (turns_of (reverse history.items)) }
        requires shows { ShowsState (state_after config (turns_of (reverse history.items)))
            tables }
        ensures { result.m ≡ m }
    {
        Message {
            m,
            config,
            history,
            tables,
        }
    }

    /// The place of the module.
    pub(crate) fn m(&self) -> ModuleId
        ensures { result ≡ self.now.m }
    {
        self.m
    }
}

/// A message, and how many of its turns a journal had so far.
#[derive(Drop)]
pub(crate) struct Followed {
    message: Message,
    met: usize,
}

impl Followed {
    /// The message before any entry.
    pub(crate) fn new(message: Message) -> Followed
        ensures { result.met ≡ 0 }
    {
        Followed { message, met: 0 }
    }

    // Whether the module's next step, after these entries, is the next turn: then it is met.
    fn meets(&mut self, before: &[Entry], at: ModuleId, input: &Input, outputs: &Outputs) -> bool
        requires { IsMet (reverse before.now) at.0 (Some self.old) }
        ensures { IsTrue result → IsMet (Step at input.now outputs.now ∷ reverse before.now) at.0
            (Some self.new) }
    {
        let history = self.message.history.as_slice();
        if self.met < history.len() && is_step_of(before, input, outputs, &history[self.met]) {
            self.met += 1;
            return true;
        }
        false
    }

    /// The tables, where the config is this one and every turn was met.
    pub(crate) fn tables(self, config: &ModuleConfig) -> Option<Tables>
        ensures { IfSome result (IsEnded config.now self) }
    {
        if !self.message.config.is(config) {
            return None;
        }
        if self.met != self.message.history.len() {
            return None;
        }
        Some(self.message.tables)
    }
}

// The next step of a module: its message has it next, or is dropped.
fn meet_step(
    slot: &mut Option<Followed>,
    before: &[Entry],
    at: ModuleId,
    input: &Input,
    outputs: &Outputs,
)
    requires { IsMet (reverse before.now) at.0 slot.old }
    ensures { IsMet (Step at input.now outputs.now ∷ reverse before.now) at.0 slot.new }
{
    if let Some(followed) = slot
        && followed.meets(before, at, input, outputs)
    {
        return;
    }
    *slot = None;
}

/// The next entry of a journal: the message of its module has it next, or is dropped.
pub(crate) fn meet(slots: &mut Vec<Option<Followed>>, journal: &[Entry], i: usize)
    requires within { i < length journal.now }
    requires met { AreMet (reverse (take i journal.now)) slots.old.items }
    ensures count { vec_len slots.new ≡ vec_len slots.old }
    ensures met { AreMet (reverse (take (i + 1) journal.now)) slots.new.items }
{
    let Entry::Step { at, input, outputs } = &journal[i] else {
        return;
    };
    if at.0 < slots.len() {
        meet_step(&mut slots[at.0], &journal[..i], *at, input, outputs);
    }
}
