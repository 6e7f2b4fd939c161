//! Trails of a journal that grows, by an index in place of a walk for each.
ghost use Rattle.std.specs.Prelude.{◌≡◌, ◌<◌, ◌∷◌, length, reverse, IfOk, OnOk, OnErr, slice_get};
ghost use Rattle.cip_world.specs.Journals.{Journal};
ghost use Rattle.cip_world.specs.Trails.{trail_of};
ghost use Rattle.cip_chain.specs.Index.{op_of, command_of, arrival_of, sent_at, goes_to, along};
ghost use Rattle.cip_chain.specs.Index.{AddsCommand, AddsArrival, IsIndexed, IsIndexSoFar};
ghost use Rattle.cip_chain.specs.Index.{IsIndexOf};

use crate::trails::{first_request, is_refused, walk};
use cip_base::{ModuleId, NoMemory};
use cip_routing::Command;
use cip_world::{Entry, FrameName, Input};
use std::alloc::Global;
use std::collections::BTreeMap;

// So many entries with few outputs are walked in the time in which one is read, or more.
const WALKED_FOR_ONE: usize = 32;

// What became of the first request that an entry sent.
#[derive(Clone, Copy)]
enum Onward {
    // The entry sent none.
    Nowhere,
    // It is this output, and has not arrived.
    Sent(usize),
    // It arrived first in this entry.
    Arrived(usize),
}

// The op of an Open, a LargeOpen or a Send.
fn op_of(command: &Command) -> Option<u32>
    ensures { result ≡ op_of command.now }
{
    match command {
        Command::Open { op, .. } => Some(*op),
        Command::LargeOpen { op, .. } => Some(*op),
        Command::Send { op, .. } => Some(*op),
        _ => None,
    }
}

// The module and the op of an Open or a Send that is not refused.
fn command_of(entry: &Entry) -> Option<(usize, u32)>
    ensures { result ≡ command_of entry.now }
{
    match entry {
        Entry::Step {
            at,
            input: Input::Command(command),
            outputs,
        } => match op_of(command) {
            Some(op) => {
                if is_refused(outputs.as_slice()) {
                    None
                } else {
                    Some((at.0, op))
                }
            }
            None => None,
        },
        _ => None,
    }
}

// The frame that arrived in an entry.
fn arrival_of(entry: &Entry) -> Option<FrameName>
    ensures { result ≡ arrival_of entry.now }
{
    match entry {
        Entry::Step {
            input: Input::Frame { name, .. },
            ..
        } => Some(*name),
        _ => None,
    }
}

// What an entry sent, before anything arrived of it.
fn sent_at(entry: &Entry) -> Onward
    ensures { result ≡ sent_at entry.now }
{
    match entry {
        Entry::Step { outputs, .. } => match first_request(outputs.as_slice()) {
            Some(output) => Onward::Sent(output),
            None => Onward::Nowhere,
        },
        Entry::Lost { .. } => Onward::Nowhere,
    }
}

// Entry k is the first of its command, or that one is known.
fn add_command(
    firsts: &mut BTreeMap<(usize, u32), usize>,
    entry: &Entry,
    k: usize,
) -> Result<(), NoMemory>
    ensures ok { OnOk result (AddsCommand firsts.old firsts.new entry.now k) }
    ensures err { OnErr result (firsts.new.entries ≡ firsts.old.entries) }
{
    let Some(command) = command_of(entry) else {
        return Ok(());
    };
    if firsts.contains_key(&command) {
        return Ok(());
    }
    firsts.insert(command, k)?;
    Ok(())
}

// Entry k is the arrival of a request that an entry before it sent, or it is none.
fn add_arrival(onwards: &mut Vec<Onward>, entry: &Entry, k: usize)
    requires { k < length onwards.old.items }
    ensures { AddsArrival onwards.old.items onwards.new.items entry.now k }
{
    let Some(name) = arrival_of(entry) else {
        return;
    };
    if name.entry >= k {
        return;
    }
    if let Onward::Sent(output) = onwards[name.entry] {
        if output == name.output {
            onwards[name.entry] = Onward::Arrived(k);
        }
    }
}

// One entry more.
fn add_entry(
    onwards: &mut Vec<Onward>,
    firsts: &mut BTreeMap<(usize, u32), usize>,
    entry: &Entry,
) -> Result<(), NoMemory>
    ensures ok { OnOk result ((j : Journal) → IsIndexed onwards.old.items firsts.old j
        → IsIndexed onwards.new.items firsts.new (entry.now ∷ j)) }
    ensures onwards { OnErr result (onwards.new.items ≡ onwards.old.items) }
    ensures firsts { OnErr result (firsts.new.entries ≡ firsts.old.entries) }
{
    let k = onwards.len();
    onwards.push(sent_at(entry))?;
    match add_command(firsts, entry, k) {
        Ok(()) => {
            add_arrival(onwards, entry, k);
            Ok(())
        }
        Err(NoMemory) => {
            let _ = onwards.pop();
            Err(NoMemory)
        }
    }
}

// The entries that are newer, up to the first for which memory is refused.
fn add_entries(
    onwards: &mut Vec<Onward>,
    firsts: &mut BTreeMap<(usize, u32), usize>,
    journal: &[Entry],
) -> Result<(), NoMemory>
    requires { IsIndexSoFar onwards.old.items firsts.old journal.now }
    ensures so_far { IsIndexSoFar onwards.new.items firsts.new journal.now }
    ensures ok { OnOk result (IsIndexed onwards.new.items firsts.new (reverse journal.now)) }
{
    for k in onwards.len()..journal.len() {
        add_entry(onwards, firsts, &journal[k])?;
    }
    Ok(())
}

// The entry in which the request of entry k arrived.
fn next_of(onwards: &[Onward], k: usize) -> Option<usize>
    ensures { result ≡ goes_to (slice_get onwards.now k) }
{
    match onwards.get(k) {
        Some(Onward::Arrived(next)) => Some(*next),
        _ => None,
    }
}

// A trail from its first entry on. It has no more entries than the journal.
fn follow(alloc: Global, onwards: &[Onward], first: Option<usize>) -> Result<Vec<usize>, NoMemory>
    ensures { IfOk result (λ ks. ks.items ≡ along (length onwards.now) onwards.now first) }
{
    let mut trail = Vec::new(alloc);
    let mut left = first;
    for _turn in 0..onwards.len() {
        let Some(k) = left else {
            return Ok(trail);
        };
        trail.push(k)?;
        left = next_of(onwards, k);
    }
    Ok(trail)
}

/// Finds the trails in one journal that grows: it keeps where each op began and where each request
/// arrived, and reads no entry twice. It reads none before as much was walked as reading costs
/// where an entry has few outputs, so a few trails take no memory and no more time than the walks.
#[derive(Drop)]
pub struct TrailIndex {
    alloc: Global,
    // How many entries were walked, less those that were set against entries read.
    walked: usize,
    // Of each entry that was read.
    onwards: Vec<Onward>,
    // By module and op, the first entry that is its command.
    firsts: BTreeMap<(usize, u32), usize>,
}

impl TrailIndex {
    /// An index of any journal: it has read nothing yet. It takes no memory.
    pub fn new(alloc: Global) -> TrailIndex
        ensures { (j : Journal) → IsIndexOf result j }
    {
        TrailIndex {
            alloc,
            walked: 0,
            onwards: Vec::new(alloc),
            firsts: BTreeMap::new(alloc),
        }
    }

    /// What `trail` gives. The index is one of this journal, or of an older part of it, and is one
    /// of this journal then, whatever it answers. NoMemory only where the trail itself finds no
    /// room: where the index finds none the journal is walked.
    pub fn trail(
        &mut self,
        journal: &[Entry],
        at: ModuleId,
        op: u32,
    ) -> Result<Vec<usize>, NoMemory>
        requires part { IsIndexOf self.old (reverse journal.now) }
        ensures trail { IfOk result (λ ks. ks.items ≡ trail_of (reverse journal.now) at.0 op) }
        ensures part { IsIndexOf self.new (reverse journal.now) }
    {
        let unread = journal.len().saturating_sub(self.onwards.len());
        let cost = unread.saturating_mul(WALKED_FOR_ONE);
        if cost > self.walked {
            self.walked = self.walked.saturating_add(journal.len());
            return walk(self.alloc, journal, at, op);
        }
        self.walked -= cost;
        match add_entries(&mut self.onwards, &mut self.firsts, journal) {
            Ok(()) => {
                let first = self.firsts.get(&(at.0, op)).copied();
                follow(self.alloc, self.onwards.as_slice(), first)
            }
            Err(NoMemory) => walk(self.alloc, journal, at, op),
        }
    }
}
