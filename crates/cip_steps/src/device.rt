//! What the modules of each kind share: their tables, which fit one another.
ghost use Rattle.std.specs.Prelude.{◌≡◌, ◌||◌, ℕ, IfOk};
ghost use Rattle.std.specs.Option.{option_map};
ghost use Rattle.cip_base.specs.Counts.{incarnation};
ghost use Rattle.cip_hops.specs.Hops.{hop_by_op, hop_by_up, is_past};
ghost use Rattle.cip_routing.specs.Deadlines.{is_any_due};
ghost use Rattle.cip_target.specs.Ends.{fresh};
ghost use Rattle.cip_config.specs.declared.config.ModuleSettings.{ModuleSettings as Settings};
ghost use Rattle.cip_routing.specs.Views.{hop_row_of};
ghost use Rattle.cip_routing.specs.Code.Fit.{Fit};

use cip_base::{Address, NoMemory, PortNumber};
use cip_clock::Clock;
use cip_config::ModuleConfig;
use cip_hops::HopTable;
use cip_pending::PendingTable;
use cip_routing::{HopRow, SpentOps, hop_row};
use cip_target::Target;
use std::alloc::Global;

/// What a module of each kind keeps, and what it does at each event. It follows the routing table.
pub struct Device {
    pub(crate) config: ModuleConfig,
    pub(crate) alloc: Global,
    pub(crate) clock: Clock,
    pub(crate) pendings: PendingTable,
    pub(crate) hops: HopTable,
    pub(crate) target: Target,
    pub(crate) ops: SpentOps,
    ghost fit: { Fit config pendings hops target ops.ops.items },
}

// (A derive would be written, and proved, anew in each crate above.)
impl Drop for Device {
    fn drop(self) {
        let Device {
            config: _,
            alloc: _,
            clock: _,
            pendings: _,
            hops: _,
            target: _,
            ops: _,
        } = self;
    }
}

// The target of a config at the beginning.
fn target_of(alloc: Global, config: &ModuleConfig) -> Result<Target, NoMemory>
    ensures { IfOk result (λ target. target ≡ fresh config.now.identity config.now.assemblies) }
{
    let settings = config.settings();
    let identity = settings.identity.copy(alloc)?;
    Target::new(alloc, identity, settings.assemblies.as_slice())
}

// The earlier of two times, where None is never.
fn earlier(first: Option<u64>, second: Option<u64>) -> Option<u64>
    ensures { (time : ℕ) → is_past time result ≡ (is_past time first || is_past time second) }
{
    match (first, second) {
        (Some(one), Some(other)) => Some(one.min(other)),
        (Some(one), None) => Some(one),
        (None, other) => other,
    }
}

impl Device {
    ghost use Rattle.cip_routing.specs.State.{initial_state};
    ghost use Rattle.cip_steps.specs.Code.Device.{config_of_device, state_of_device};

    /// A module in the initial state of its config; NoMemory where an allocation is refused.
    pub fn new(alloc: Global, config: ModuleConfig) -> Result<Device, NoMemory>
        ensures config { IfOk result (λ m. config_of_device m ≡ config) }
        ensures state { IfOk result (λ m. state_of_device m ≡ initial_state config) }
    {
        let target = target_of(alloc, &config)?;
        let settings = config.settings();
        let clock = Clock::new(settings.clock);
        let room = settings.pending_room;
        let pendings = PendingTable::with_room(alloc, room, settings.first_number)?;
        let hops = HopTable::with_room(alloc, settings.hop_room, settings.first_id)?;
        Ok(Device {
            config,
            alloc,
            clock,
            pendings,
            hops,
            target,
            ops: SpentOps::new(alloc),
        })
    }

    /// Its config.
    pub fn config(&self) -> &ModuleConfig
        ensures { result.now ≡ self.now.config }
    {
        &self.config
    }

    /// The allocator of what it makes.
    pub fn alloc(&self) -> Global {
        self.alloc
    }

    /// Its time, in microseconds.
    pub fn now(&self) -> u64
        ensures { result ≡ (state_of_device self.now).now }
    {
        self.clock.now()
    }

    /// The first time, in microseconds, at which a request is given up or a side of a connection
    /// has been silent for too long; None where nothing waits. It looks at each once, where
    /// `next_due` does not, and takes no memory.
    pub fn first_deadline(&self) -> Option<u64>
        ensures { (time : ℕ) → is_past time result ≡ is_any_due time (state_of_device self.now) }
    {
        earlier(self.pendings.first_deadline(), self.hops.first_deadline())
    }

    /// The same time in time that is logarithmic in the rooms, for each request that went and each
    /// connection whose first deadline moved away or went since the last call. Nothing changes that
    /// a caller sees, and it takes no memory.
    pub fn next_due(&mut self) -> Option<u64>
        ensures value { (time : ℕ) → is_past time result
            ≡ is_any_due time (state_of_device self.old) }
        ensures after { state_of_device self.new ≡ state_of_device self.old }
        ensures config { config_of_device self.new ≡ config_of_device self.old }
    {
        earlier(self.pendings.next_due(), self.hops.next_due())
    }

    /// The incarnation of the connection ids that it draws: their high 16 bits, until a Reset.
    pub fn id_incarnation(&self) -> u16
        ensures { result ≡ incarnation (state_of_device self.now).hops.next }
    {
        self.hops.incarnation()
    }

    /// The incarnation of the request numbers that it draws: their high 16 bits, until a Reset.
    pub fn number_incarnation(&self) -> u16
        ensures { result ≡ incarnation (state_of_device self.now).pendings.next }
    {
        self.pendings.incarnation()
    }

    /// The row of the connection that a command of this op opened; NoMemory where an allocation is
    /// refused.
    pub fn row_by_op(&self, op: u32) -> Result<Option<HopRow>, NoMemory>
        ensures { IfOk result (λ row. row ≡ option_map hop_row_of (hop_by_op self.now.hops op)) }
    {
        match self.hops.by_op(op) {
            Some(hop) => Ok(Some(hop_row(self.alloc, hop)?)),
            None => Ok(None),
        }
    }

    /// The row of the connection of which this is the own id towards the originator, on the link by
    /// this port to this address; NoMemory where an allocation is refused.
    pub fn row_by_up(
        &self,
        id: u32,
        port: PortNumber,
        address: &Address,
    ) -> Result<Option<HopRow>, NoMemory>
        ensures { IfOk result (λ row. row
            ≡ option_map hop_row_of (hop_by_up self.now.hops id port address.now)) }
    {
        match self.hops.by_up(id, port, address) {
            Some(hop) => Ok(Some(hop_row(self.alloc, hop)?)),
            None => Ok(None),
        }
    }
}
