//! The world: modules in boxes, and the journal of what they did.
ghost use Rattle.std.specs.Prelude.{◌≡◌, ◌∷◌, ◌↔◌, ◌⊎◌, ◌≤◌, ◌<◌, [], true, Err, length, map};
ghost use Rattle.std.specs.Prelude.{reverse, vec_len, IfOk, IfErr, IsTrue, OnOk, OnErr};
ghost use Rattle.cip_event.specs.declared.event.Event.TheVariants as events;
ghost use Rattle.std.specs.Option.{option_map};
ghost use Rattle.cip_hops.specs.Hops.{hop_by_op, hop_by_up};
ghost use Rattle.cip_routing.specs.Views.{ShowsState, hop_row_of};
ghost use Rattle.cip_world.specs.declared.journal.Input.TheVariants as inputs;
ghost use Rattle.cip_world.specs.Runs.{IsGiven, IsRun, IsWaiting, state_in};
ghost use Rattle.cip_world.specs.Waiting.{waiting};
ghost use Rattle.cip_world.specs.Worlds.{Stand, AddsStep, AddsArrival, AddsLoss, IsFeedFault};
ghost use Rattle.cip_world.specs.Worlds.{IsFrameFault, IsOneMore, RunsTo, IsShownAt, looked_up};
ghost use Rattle.cip_world.specs.Fresh.{AreFresh, IsNewFault};

use crate::fault::WorldFault;
use crate::fresh::{NewFault, check_fresh};
use crate::journal::{Entry, Input, Outputs};
use crate::ledger::Ledger;
use crate::step::step_at;
use cip_base::{Address, ModuleId, Ms, NoMemory, PortNumber};
use cip_chassis::Topology;
use cip_clock::ClockFull;
use cip_event::FrameName;
use cip_routing::{Command, Event, HopRow, Module, StepFault, Tables};
use std::alloc::Global;

/// What a contract sees of a value over boxes.
pub trait Shown {
    // each module has the state that the journal gives
    ghost stands: { Self → Type 0 };
}

/// Modules in boxes, joined by the links of a topology, and the journal of what they did.
pub struct World {
    alloc: Global,
    // Given up before the ledger: a table is one large piece, an entry several small ones.
    modules: Vec<Box<dyn Module + Send>>,
    ledger: Ledger,
}

// (A derive would be written, and proved, anew in each crate above.)
impl Drop for World {
    fn drop(self) {
        let World {
            alloc: _,
            modules: _,
            ledger: _,
        } = self;
    }
}

impl Shown for World {
    ghost use Rattle.std.specs.Prelude.{map};
    ghost use Rattle.cip_world.specs.Worlds.{Stand};

    ghost stands = { λ w. Stand w.ledger
        (map (λ b. (Module-box b).config_of b.value) w.modules.items)
        (map (λ b. (Module-box b).state_of b.value) w.modules.items) };
}

// A module that the topology has takes a step, and the journal has one more entry.
#[inline(always)]
fn step_module(
    modules: &mut Vec<Box<dyn Module + Send>>,
    ledger: &mut Ledger,
    at: ModuleId,
    input: Input,
    event: Event,
) -> Result<usize, WorldFault>
    requires stand { Stand ledger.old (map (λ b. config_of b) modules.old.items)
        (map (λ b. state_of b) modules.old.items) }
    requires ready { ledger.old.ready ≡ true }
    requires there { at.0 < vec_len modules.old }
    requires given { IsGiven ledger.old.plan ledger.old.journal at.0 input event }
    ensures stand { Stand ledger.new (map (λ b. config_of b) modules.new.items)
        (map (λ b. state_of b) modules.new.items) }
    ensures plan { ledger.new.plan ≡ ledger.old.plan }
    ensures ok { IfOk result (AddsStep ledger.old.journal ledger.new.journal at input) }
    ensures err { OnErr result (ledger.new.journal ≡ ledger.old.journal) }
    ensures fault { IfErr result
        (IsFeedFault ledger.old.plan ledger.old.journal at.0 event) }
{
    let number = ledger.entries().len();
    match step_at(modules, at.0, event) {
        Ok(outputs) => {
            ledger.add(Entry::Step {
                at,
                input,
                outputs: Outputs::of(outputs),
            });
            Ok(number)
        }
        Err(StepFault::NoMemory(_)) => Err(WorldFault::NoMemory),
        Err(StepFault::ClockFull(_)) => Err(WorldFault::Step(ClockFull)),
    }
}

/// How a run ended.
#[derive(Clone, Copy, Debug, PartialEq, Eq)]
pub enum End {
    /// No frame waits.
    Quiet,
    /// As many frames arrived as were asked for, and some wait still.
    Limit,
}

impl World {
    /// A world of modules at their beginnings, in the order of the topology, in which nothing
    /// happened yet. The modules are gone where they are not those: Count, then Config, then
    /// NotFresh, each of the least module where it is the first that holds; NoMemory.
    pub fn new(
        alloc: Global,
        topology: Topology,
        modules: Vec<Box<dyn Module + Send>>,
    ) -> Result<World, NewFault>
        ensures stand { IfOk result (λ w. ⟦<World as Shown>⟧.stands w) }
        ensures plan { IfOk result (λ w. w.ledger.plan ≡ topology) }
        ensures journal { IfOk result (λ w. w.ledger.journal ≡ []) }
        ensures fresh { OnOk result (AreFresh topology (map (λ b. config_of b) modules.items)
            (map (λ b. state_of b) modules.items)) }
        ensures fault { IfErr result (IsNewFault topology (map (λ b. config_of b) modules.items)
            (map (λ b. state_of b) modules.items)) }
    {
        check_fresh(alloc, &topology, modules.as_slice())?;
        Ok(World {
            alloc,
            ledger: Ledger::new(alloc, topology),
            modules,
        })
    }

    /// The topology.
    pub fn topology(&self) -> &Topology
        ensures { result.now ≡ self.now.ledger.plan }
    {
        self.ledger.topology()
    }

    /// What happened, oldest entry first.
    pub fn journal(&self) -> &[Entry]
        ensures journal { reverse result.now ≡ self.now.ledger.journal }
        ensures run { IsRun self.now.ledger.plan self.now.ledger.journal }
    {
        self.ledger.entries()
    }

    /// The frames that wait, in rising name: those to an address that some module has, and that
    /// neither arrived nor were lost. NoMemory where an allocation is refused.
    pub fn waiting(&self) -> Result<Vec<FrameName>, NoMemory>
        ensures { IfOk result
            (λ v. v.items ≡ waiting self.now.ledger.plan self.now.ledger.journal) }
    {
        self.ledger.waiting(self.alloc)
    }

    /// Gives a module a command, and answers the number of the new entry. NoModule where the
    /// topology has no such module, and NoMemory; nothing is changed then.
    pub fn feed(&mut self, at: ModuleId, command: Command) -> Result<usize, WorldFault>
        requires stand { ⟦<World as Shown>⟧.stands self.old }
        ensures stand { ⟦<World as Shown>⟧.stands self.new }
        ensures plan { self.new.ledger.plan ≡ self.old.ledger.plan }
        ensures ok { IfOk result (AddsStep self.old.ledger.journal self.new.ledger.journal at
            (inputs.Command command)) }
        ensures err { OnErr result (self.new.ledger.journal ≡ self.old.ledger.journal) }
        ensures fault { IfErr result (IsFeedFault self.old.ledger.plan self.old.ledger.journal at.0
            (events.Command command)) }
        ensures no_module { (result ≡ Err WorldFault.NoModule)
            ↔ (length self.old.ledger.plan.modules ≤ at.0) }
    {
        if at.0 >= self.modules.len() {
            return Err(WorldFault::NoModule);
        }
        self.ledger.prepare()?;
        let copy = command.copy(self.alloc)?;
        step_module(
            &mut self.modules,
            &mut self.ledger,
            at,
            Input::Command(command),
            Event::Command(copy),
        )
    }

    /// Lets time pass at a module, and answers the number of the new entry. NoModule where the
    /// topology has no such module, Step where the module's clock would pass its last time,
    /// 9,223,372,036,854,775,807 microseconds, and NoMemory; nothing is changed then.
    pub fn tick(&mut self, at: ModuleId, by: Ms) -> Result<usize, WorldFault>
        requires stand { ⟦<World as Shown>⟧.stands self.old }
        ensures stand { ⟦<World as Shown>⟧.stands self.new }
        ensures plan { self.new.ledger.plan ≡ self.old.ledger.plan }
        ensures ok { IfOk result (AddsStep self.old.ledger.journal self.new.ledger.journal at
            (inputs.Tick by)) }
        ensures err { OnErr result (self.new.ledger.journal ≡ self.old.ledger.journal) }
        ensures fault { IfErr result (IsFeedFault self.old.ledger.plan self.old.ledger.journal at.0
            (events.Tick by)) }
        ensures no_module { (result ≡ Err WorldFault.NoModule)
            ↔ (length self.old.ledger.plan.modules ≤ at.0) }
    {
        if at.0 >= self.modules.len() {
            return Err(WorldFault::NoModule);
        }
        self.ledger.prepare()?;
        step_module(
            &mut self.modules,
            &mut self.ledger,
            at,
            Input::Tick(by),
            Event::Tick(by),
        )
    }

    // Brings a waiting frame to the module that it goes to.
    #[inline(always)]
    fn bring(&mut self, name: FrameName) -> Result<usize, WorldFault>
        requires stand { ⟦<World as Shown>⟧.stands self.old }
        requires ready { self.old.ledger.ready ≡ true }
        requires waits { IsWaiting self.old.ledger.plan self.old.ledger.journal name }
        ensures stand { ⟦<World as Shown>⟧.stands self.new }
        ensures plan { self.new.ledger.plan ≡ self.old.ledger.plan }
        ensures ok { IfOk result
            (AddsArrival self.old.ledger.journal self.new.ledger.journal name) }
        ensures err { OnErr result (self.new.ledger.journal ≡ self.old.ledger.journal) }
        ensures fault { IfErr result
            (IsFrameFault self.old.ledger.plan self.old.ledger.journal name) }
    {
        let Some(coming) = self.ledger.coming(name) else {
            return Err(WorldFault::NoFrame);
        };
        let body = coming.body.copy(self.alloc)?;
        let at = coming.at;
        let port = coming.port;
        let from = coming.from.copy();
        let input = Input::Frame {
            port,
            from: from.copy(),
            name,
        };
        step_module(
            &mut self.modules,
            &mut self.ledger,
            at,
            input,
            Event::Frame { port, from, body },
        )
    }

    /// Brings a waiting frame to the module that it goes to, and answers the number of the new
    /// entry. NoFrame where no such frame waits, and NoMemory; nothing is changed then.
    pub fn deliver(&mut self, name: FrameName) -> Result<usize, WorldFault>
        requires stand { ⟦<World as Shown>⟧.stands self.old }
        ensures stand { ⟦<World as Shown>⟧.stands self.new }
        ensures plan { self.new.ledger.plan ≡ self.old.ledger.plan }
        ensures ok { IfOk result
            (AddsArrival self.old.ledger.journal self.new.ledger.journal name) }
        ensures err { OnErr result (self.new.ledger.journal ≡ self.old.ledger.journal) }
        ensures fault { IfErr result
            (IsFrameFault self.old.ledger.plan self.old.ledger.journal name) }
    {
        self.ledger.prepare()?;
        if !self.ledger.waits(name) {
            return Err(WorldFault::NoFrame);
        }
        self.bring(name)
    }

    /// Loses a waiting frame on its link, and answers the number of the new entry. NoFrame where no
    /// such frame waits, and NoMemory; nothing is changed then.
    pub fn lose(&mut self, name: FrameName) -> Result<usize, WorldFault>
        requires stand { ⟦<World as Shown>⟧.stands self.old }
        ensures stand { ⟦<World as Shown>⟧.stands self.new }
        ensures plan { self.new.ledger.plan ≡ self.old.ledger.plan }
        ensures ok { IfOk result (AddsLoss self.old.ledger.journal self.new.ledger.journal name) }
        ensures err { OnErr result (self.new.ledger.journal ≡ self.old.ledger.journal) }
        ensures fault { IfErr result
            (IsFrameFault self.old.ledger.plan self.old.ledger.journal name) }
    {
        self.ledger.prepare()?;
        if !self.ledger.waits(name) {
            return Err(WorldFault::NoFrame);
        }
        let number = self.ledger.entries().len();
        self.ledger.add(Entry::Lost { frame: name });
        Ok(number)
    }

    /// Delivers the waiting frame of least name; false where none waits. NoMemory, and nothing is
    /// changed, where an allocation is refused.
    pub fn deliver_least(&mut self) -> Result<bool, WorldFault>
        requires stand { ⟦<World as Shown>⟧.stands self.old }
        ensures stand { ⟦<World as Shown>⟧.stands self.new }
        ensures plan { self.new.ledger.plan ≡ self.old.ledger.plan }
        ensures ok { IfOk result (IsOneMore self.old.ledger.plan self.old.ledger.journal
            self.new.ledger.journal) }
        ensures err { OnErr result (self.new.ledger.journal ≡ self.old.ledger.journal) }
        ensures fault { IfErr result (λ fault. fault ≡ WorldFault.NoMemory) }
    {
        self.ledger.prepare()?;
        match self.ledger.least() {
            None => Ok(false),
            Some(name) => match self.bring(name) {
                Ok(_) => Ok(true),
                Err(_) => Err(WorldFault::NoMemory),
            },
        }
    }

    /// Delivers the waiting frame of least name until none waits, or until so many arrived. Quiet
    /// where none waits in the end, Limit where some does. NoMemory: the frames that arrived before
    /// stay delivered.
    pub fn run(&mut self, limit: usize) -> Result<End, WorldFault>
        requires stand { ⟦<World as Shown>⟧.stands self.old }
        ensures stand { ⟦<World as Shown>⟧.stands self.new }
        ensures plan { self.new.ledger.plan ≡ self.old.ledger.plan }
        ensures runs { RunsTo self.old.ledger.plan limit self.old.ledger.journal
            self.new.ledger.journal result }
    {
        for _ in 0..limit {
            if !self.deliver_least()? {
                return Ok(End::Quiet);
            }
        }
        if self.is_quiet()? {
            Ok(End::Quiet)
        } else {
            Ok(End::Limit)
        }
    }

    /// Whether no frame waits. It looks at the newest entry, and changes nothing that a caller
    /// sees. NoMemory where an allocation is refused.
    pub fn is_quiet(&mut self) -> Result<bool, NoMemory>
        requires stand { ⟦<World as Shown>⟧.stands self.old }
        ensures stand { ⟦<World as Shown>⟧.stands self.new }
        ensures plan { self.new.ledger.plan ≡ self.old.ledger.plan }
        ensures journal { self.new.ledger.journal ≡ self.old.ledger.journal }
        ensures quiet { IfOk result (λ quiet. IsTrue quiet
            ↔ (waiting self.new.ledger.plan self.new.ledger.journal ≡ [])) }
    {
        self.ledger.prepare()?;
        match self.ledger.least() {
            None => Ok(true),
            Some(_) => Ok(false),
        }
    }

    /// The state of a module. NoModule where the topology has no such module, and NoMemory.
    pub fn tables(&self, at: ModuleId) -> Result<Tables, WorldFault>
        requires stand { ⟦<World as Shown>⟧.stands self.now }
        ensures ok { IfOk result
            (IsShownAt self.now.ledger.plan self.now.ledger.journal at.0) }
        ensures no_module { (result ≡ Err WorldFault.NoModule)
            ↔ (length self.now.ledger.plan.modules ≤ at.0) }
        ensures fault { IfErr result
            (λ fault. (fault ≡ WorldFault.NoModule) ⊎ (fault ≡ WorldFault.NoMemory)) }
    {
        let Some(boxed) = self.modules.get(at.0) else {
            return Err(WorldFault::NoModule);
        };
        Ok(boxed.tables()?)
    }

    /// The row of the connection at a module that a command of this op opened, of which there is at
    /// most one; None also where the topology has no such module. NoMemory where an allocation is
    /// refused.
    pub fn row_by_op(&self, at: ModuleId, op: u32) -> Result<Option<HopRow>, NoMemory>
        requires stand { ⟦<World as Shown>⟧.stands self.now }
        ensures { IfOk result (λ row. row ≡ option_map hop_row_of
            (looked_up self.now.ledger.plan self.now.ledger.journal at.0
            (λ hops. hop_by_op hops op))) }
    {
        match self.modules.get(at.0) {
            Some(boxed) => boxed.row_by_op(op),
            None => Ok(None),
        }
    }

    /// The row of the connection at a module of which this is the own id towards the originator, on
    /// the link by this port to this address, in the same way.
    pub fn row_by_up(
        &self,
        at: ModuleId,
        id: u32,
        port: PortNumber,
        address: &Address,
    ) -> Result<Option<HopRow>, NoMemory>
        requires stand { ⟦<World as Shown>⟧.stands self.now }
        ensures { IfOk result (λ row. row ≡ option_map hop_row_of
            (looked_up self.now.ledger.plan self.now.ledger.journal at.0
            (λ hops. hop_by_up hops id port address.now))) }
    {
        match self.modules.get(at.0) {
            Some(boxed) => boxed.row_by_up(id, port, address),
            None => Ok(None),
        }
    }
}
