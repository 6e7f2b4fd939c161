//! A topology, the journal of what happened in it, and the frames that wait.
ghost use Rattle.std.specs.Prelude.{◌≡◌, ◌↔◌, ◌∷◌, ◌++◌, ◌≤◌, [], true, drop, filter, length, not};
ghost use Rattle.std.specs.Prelude.{reverse, is_some, option_map, slice_get, IsTrue, OnOk, IfOk};
ghost use Rattle.std.specs.Prelude.{IfSome, IfNone, Some};
ghost use Rattle.std.specs.List.{list_any};
ghost use Rattle.cip_chassis.specs.Nodes.{across};
ghost use Rattle.cip_world.specs.Journals.{named_by, flight_of, same_name, is_that};
ghost use Rattle.cip_world.specs.Names.{AreRising};
ghost use Rattle.cip_world.specs.Coming.{IsComing, flight, way_in};
ghost use Rattle.cip_world.specs.Runs.{IsWaiting, IsRun, IsNext};
ghost use Rattle.cip_world.specs.Waiting.{arrives, frames_of, waiting};
ghost use Rattle.cip_world.specs.Ledgers.{IsLedger, IsNewest, newest_outputs};

use crate::flight::{Coming, Flying, frame_at};
use crate::journal::{Entry, Input};
use crate::names::Names;
use cip_base::{ModuleId, NoMemory};
use cip_chassis::Topology;
use cip_event::FrameName;
use cip_routing::Output;
use std::alloc::Global;
use std::marker::Model;

/// A journal that is a run of its topology. Contracts see both, and whether the ledger is ready for
/// one more entry.
#[derive(Drop)]
pub(crate) struct Ledger {
    topology: Topology,
    entries: Vec<Entry>,
    // The frames that wait, but for those of the newest entry that were not looked at yet: what a
    // step sends is listed later, since listing takes memory and a step can't be undone.
    listed: Names,
    // How many outputs of the newest entry were looked at.
    looked: usize,
}

impl Model for Ledger {
    ghost use Rattle.std.specs.Prelude.{◌==◌, ◌&&◌, nat_lt, length, reverse};
    ghost use Rattle.std.specs.Vec.{vec_len, vec_capacity};
    ghost use Rattle.cip_world.specs.Ledgers.{Told, IsLedger, newest_outputs};

    ghost Value = { Told };

    ghost view = { λ l. record {
      plan = l.topology;
      journal = reverse l.entries.items;
      ready = nat_lt (vec_len l.entries) (vec_capacity l.entries)
          && length (newest_outputs (reverse l.entries.items)) == l.looked;
    } };

    ghost invariant = { λ l. IsLedger l.topology (reverse l.entries.items) l.listed l.looked };
}

/// The newest entry, where it is a step: its number, its module and its outputs.
#[derive(Clone, Copy)]
struct LastStep<'a> {
    entry: usize,
    at: ModuleId,
    outputs: &'a [Output],
}

fn newest_step(entries: &[Entry]) -> Option<LastStep<'_>>
    ensures some { IfSome result
        (λ n. IsNewest (reverse entries.now) n.entry n.at.0 n.outputs.now) }
    ensures none { IfNone result (newest_outputs (reverse entries.now) ≡ []) }
{
    match entries.last() {
        Some(Entry::Step { at, outputs, .. }) => Some(LastStep {
            entry: entries.len() - 1,
            at: *at,
            outputs: outputs.as_slice(),
        }),
        _ => None,
    }
}

// Whether an output of a module is a frame to an address that some module has.
fn arrives(topology: &Topology, at: ModuleId, output: &Output) -> bool
    ensures { result ≡ arrives topology.now (flight_of at.0 (Some output.now)) }
{
    match output {
        Output::Send { port, to, .. } => topology.across(at, *port, to).is_some(),
        _ => false,
    }
}

// The frame that an entry names as arrived or lost.
fn named(entry: &Entry) -> Option<FrameName>
    ensures { result ≡ named_by entry.now }
{
    match entry {
        Entry::Step {
            input: Input::Frame { name, .. },
            ..
        } => Some(*name),
        Entry::Step { .. } => None,
        Entry::Lost { frame } => Some(*frame),
    }
}

// What a step of a module in an entry sent is listed, from the output on that was not looked at.
fn list_newest(
    topology: &Topology,
    entry: usize,
    at: ModuleId,
    outputs: &[Output],
    listed: &mut Names,
    looked: &mut usize,
) -> Result<(), NoMemory>
    requires within { looked.old ≤ length outputs.now }
    requires rising { AreRising (listed.old
        ++ frames_of topology.now at.0 entry looked.old (drop looked.old outputs.now)) }
    ensures kept { listed.new
        ++ frames_of topology.now at.0 entry looked.new (drop looked.new outputs.now)
        ≡ listed.old ++ frames_of topology.now at.0 entry looked.old (drop looked.old outputs.now) }
    ensures ok { OnOk result (looked.new ≡ length outputs.now) }
    ensures within { looked.new ≤ length outputs.now }
{
    while *looked < outputs.len() {
        let output = *looked;
        if arrives(topology, at, &outputs[output]) {
            listed.add(FrameName { entry, output })?;
        }
        *looked += 1;
    }
    Ok(())
}

// What a step of a module in an entry sent from an output on, behind other names.
fn push_newest(
    topology: &Topology,
    entry: usize,
    at: ModuleId,
    outputs: &[Output],
    looked: usize,
    names: &mut Vec<FrameName>,
) -> Result<(), NoMemory>
    ensures { OnOk result (names.new.items ≡ names.old.items
        ++ frames_of topology.now at.0 entry looked (drop looked outputs.now)) }
{
    for output in looked..outputs.len() {
        if arrives(topology, at, &outputs[output]) {
            names.push(FrameName { entry, output })?;
        }
    }
    Ok(())
}

// What the newest entry sent is listed, and nothing of it is left.
fn list_rest(
    topology: &Topology,
    entries: &[Entry],
    listed: &mut Names,
    looked: &mut usize,
) -> Result<(), NoMemory>
    requires kept { IsLedger topology.now (reverse entries.now) listed.old looked.old }
    ensures kept { IsLedger topology.now (reverse entries.now) listed.new looked.new }
    ensures ok { OnOk result (length (newest_outputs (reverse entries.now)) ≡ looked.new) }
{
    let Some(newest) = newest_step(entries) else {
        return Ok(());
    };
    list_newest(
        topology,
        newest.entry,
        newest.at,
        newest.outputs,
        listed,
        looked,
    )
}

// Where a frame comes in.
fn comes_in<'a>(topology: &'a Topology, flying: Flying<'a>) -> Option<Coming<'a>>
    ensures way { option_map way_in result ≡ across topology.now (flight flying.entry).way }
    ensures body { IfSome result (λ c. c.body.now ≡ flying.entry.body.now) }
{
    match topology.across(flying.at, flying.port, flying.to) {
        Some(there) => Some(Coming {
            at: there.at,
            port: there.port,
            from: there.from,
            body: flying.body,
        }),
        None => None,
    }
}

// The frame that an entry names waits no longer.
fn take_out(listed: &mut Names, named: Option<FrameName>)
    ensures { listed.new ≡ filter (λ f. not (is_that f named)) listed.old }
{
    if let Some(name) = named {
        listed.remove(name);
    }
}

impl Ledger {
    /// Nothing happened yet.
    pub(crate) fn new(alloc: Global, topology: Topology) -> Ledger
        ensures plan { result.plan ≡ topology }
        ensures journal { result.journal ≡ [] }
    {
        Ledger {
            topology,
            entries: Vec::new(alloc),
            listed: Names::new(alloc),
            looked: 0,
        }
    }

    pub(crate) fn topology(&self) -> &Topology
        ensures { result.now ≡ self.now.plan }
    {
        &self.topology
    }

    /// The entries, oldest first.
    pub(crate) fn entries(&self) -> &[Entry]
        ensures journal { reverse result.now ≡ self.now.journal }
        ensures run { IsRun self.now.plan self.now.journal }
    {
        self.entries.as_slice()
    }

    /// Makes ready for one more entry.
    pub(crate) fn prepare(&mut self) -> Result<(), NoMemory>
        ensures plan { self.new.plan ≡ self.old.plan }
        ensures journal { self.new.journal ≡ self.old.journal }
        ensures ok { OnOk result (self.new.ready ≡ true) }
    {
        list_rest(
            &self.topology,
            self.entries.as_slice(),
            &mut self.listed,
            &mut self.looked,
        )?;
        self.entries.reserve(1)?;
        Ok(())
    }

    /// Adds an entry.
    #[inline(always)]
    pub(crate) fn add(&mut self, entry: Entry)
        requires ready { self.old.ready ≡ true }
        requires next { IsNext self.old.plan self.old.journal entry }
        ensures plan { self.new.plan ≡ self.old.plan }
        ensures journal { self.new.journal ≡ entry ∷ self.old.journal }
    {
        take_out(&mut self.listed, named(&entry));
        self.looked = 0;
        self.entries.push_reserved(entry);
    }

    /// Whether a frame waits.
    pub(crate) fn waits(&self, name: FrameName) -> bool
        requires ready { self.now.ready ≡ true }
        ensures { IsTrue result ↔ IsWaiting self.now.plan self.now.journal name }
    {
        self.listed.has(name)
    }

    /// Where a waiting frame comes in.
    pub(crate) fn coming(&self, name: FrameName) -> Option<Coming<'_>>
        requires waits { IsWaiting self.now.plan self.now.journal name }
        ensures some { IfSome result (λ c. IsComing self.now.plan self.now.journal name c) }
        ensures none { IfNone result (IsWaiting self.now.plan self.now.journal name → ⊥) }
    {
        match frame_at(self.entries.as_slice(), name) {
            Some(flying) => comes_in(&self.topology, flying),
            None => None,
        }
    }

    /// The waiting frame of least name.
    pub(crate) fn least(&self) -> Option<FrameName>
        requires ready { self.now.ready ≡ true }
        ensures { result ≡ slice_get (waiting self.now.plan self.now.journal) 0 }
    {
        self.listed.first()
    }

    /// The frames that wait, in rising name.
    pub(crate) fn waiting(&self, alloc: Global) -> Result<Vec<FrameName>, NoMemory>
        ensures { IfOk result (λ v. v.items ≡ waiting self.now.plan self.now.journal) }
    {
        let mut all = self.listed.list(alloc)?;
        if let Some(newest) = newest_step(self.entries.as_slice()) {
            push_newest(
                &self.topology,
                newest.entry,
                newest.at,
                newest.outputs,
                self.looked,
                &mut all,
            )?;
        }
        Ok(all)
    }
}
