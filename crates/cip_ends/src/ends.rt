//! Where ops ended.
ghost use Rattle.std.specs.Prelude.{◌≡◌, ◌≤◌, ℕ, List, length, IfNone, IfSome, IsSomeAnd};
ghost use Rattle.std.specs.Prelude.{option_copied};
ghost use Rattle.cip_ends.specs.Ends.{first_reply, reply_in, reply_of};
ghost use Rattle.cip_ends.specs.Ends.{HasNoEnd, HasOneDone, IsDoneAt, IsEndAt, IsReply};

use cip_base::{Bytes, ModuleId, NoMemory};
use cip_routing::Output;
use cip_world::Entry;
use std::alloc::Global;
use std::collections::BTreeMap;

// The reply of an output, where the op is done by it.
fn reply_of(output: &Output, number: u32) -> Option<&Bytes>
    ensures { option_copied result ≡ reply_of number output.now }
{
    match output {
        Output::Done { op, reply } => { if *op == number { Some(reply) } else { None } }
        _ => None,
    }
}

fn first_reply(outputs: &[Output], number: u32) -> Option<&Bytes>
    ensures { option_copied result ≡ first_reply number outputs.now }
{
    for i in 0..outputs.len() {
        if let Some(reply) = reply_of(&outputs[i], number) {
            return Some(reply);
        }
    }
    None
}

// The reply with which an op of a module is done in an entry.
fn reply_in(entry: &Entry, module_: ModuleId, number: u32) -> Option<&Bytes>
    ensures { option_copied result ≡ reply_in module_.0 number entry.now }
{
    match entry {
        Entry::Step { at, outputs, .. } => {
            if at.0 == module_.0 {
                first_reply(outputs.as_slice(), number)
            } else {
                None
            }
        }
        Entry::Lost { .. } => None,
    }
}

// The last of these entries in which an op of a module is done: its place, and the reply.
fn last_end<'a>(
    journal: &'a [Entry],
    from: usize,
    to: usize,
    module_: ModuleId,
    number: u32,
) -> Option<(usize, &'a Bytes)>
    requires { to ≤ length journal.now }
    ensures some { IfSome result
        (λ end. IsEndAt journal.now module_.0 number end.0 end.1.now) }
    ensures none { IfNone result (HasNoEnd journal.now module_.0 number from to) }
{
    let mut left = to;
    while left > from {
        left -= 1;
        if let Some(reply) = reply_in(&journal[left], module_, number) {
            return Some((left, reply));
        }
    }
    None
}

// The ops that end in an entry, each with the place of the entry.
fn add_ends(
    places: &mut BTreeMap<(usize, u32), usize>,
    entry: &Entry,
    place: usize,
) -> Result<(), NoMemory> {
    let Entry::Step { at, outputs, .. } = entry else {
        return Ok(());
    };
    for output in outputs.as_slice() {
        if let Output::Done { op, .. } = output {
            places.insert((at.0, *op), place)?;
        }
    }
    Ok(())
}

/// Where ops ended in a journal that grows: a place to look at first, which need not be right.
#[derive(Drop)]
pub struct Ends {
    places: BTreeMap<(usize, u32), usize>,
    // So many entries were read, and so many looked at since.
    read: usize,
    walked: usize,
}

impl Ends {
    /// Nothing was read. It takes no memory.
    pub fn new(alloc: Global) -> Ends {
        Ends {
            places: BTreeMap::new(alloc),
            read: 0,
            walked: 0,
        }
    }

    // Reads the rest of the journal, as far as there is memory.
    fn read_on(&mut self, journal: &[Entry]) {
        for place in self.read..journal.len() {
            if add_ends(&mut self.places, &journal[place], place).is_err() {
                return;
            }
            self.read = place + 1;
        }
    }

    // So many entries more were looked at. Where that makes as many as are not read, these are.
    fn walk(&mut self, journal: &[Entry], entries: usize) {
        self.walked = self.walked.saturating_add(entries);
        if self.walked >= journal.len().saturating_sub(self.read) {
            self.walked = 0;
            self.read_on(journal);
        }
    }

    // The reply at the place that was read, where the op of the module is done there.
    fn known<'a>(&self, journal: &'a [Entry], module_: ModuleId, number: u32) -> Option<&'a Bytes>
        ensures { IfSome result (λ reply. IsReply journal.now module_.0 number reply.now) }
    {
        let place = *self.places.get(&(module_.0, number))?;
        if place < journal.len() {
            reply_in(&journal[place], module_, number)
        } else {
            None
        }
    }

    /// The reply with which an op is done, None where it is done nowhere. A module gives an op one
    /// Done at most (`ops_are_done_once`): where the journal has one, it is that one's. The entries
    /// that were not read are looked at from the newest on; of the others it is known where the op
    /// ended.
    pub fn done<'a>(
        &mut self,
        journal: &'a [Entry],
        module_: ModuleId,
        number: u32,
    ) -> Option<&'a Bytes>
        ensures some { IfSome result (λ reply. IsReply journal.now module_.0 number reply.now) }
        ensures none { IfNone result
            (HasNoEnd journal.now module_.0 number 0 (length journal.now)) }
        ensures only { HasOneDone journal.now module_.0 number
            → (place index : ℕ) (reply : List ℕ)
            → IsDoneAt journal.now module_.0 number place index reply
            → IsSomeAnd result (λ found. found.now ≡ reply) }
    {
        let count = journal.len();
        let read = self.read.min(count);
        if let Some((place, reply)) = last_end(journal, read, count, module_, number) {
            self.walk(journal, count - place);
            return Some(reply);
        }
        if let Some(reply) = self.known(journal, module_, number) {
            self.walk(journal, count - read);
            return Some(reply);
        }
        // all that was read is looked at too, before the answer is that the op is done nowhere
        match last_end(journal, 0, read, module_, number) {
            Some((_place, reply)) => Some(reply),
            None => None,
        }
    }
}
