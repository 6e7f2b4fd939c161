//! A module with one port that answers, and sends no request on.
ghost use Rattle.std.specs.Prelude.{◌≡◌, ℕ, IfOk};
ghost use Rattle.cip_base.specs.Counts.{incarnation};
ghost use Rattle.cip_hops.specs.Hops.{is_past};
ghost use Rattle.cip_routing.specs.Deadlines.{is_any_due};
ghost use Rattle.cip_config.specs.declared.config.ModuleKind.{ModuleKind as Kind};
ghost use Rattle.cip_routing.specs.State.{initial_state};
ghost use Rattle.cip_module.specs.Kinds.{config_of_adapter, state_of_adapter};

use crate::dispatch::step;
use cip_base::{Address, NoMemory, PortNumber};
use cip_config::{ModuleConfig, ModuleKind};
use cip_event::{Event, Output};
use cip_routing::{HopRow, Module, StepFault, Tables};
use cip_steps::Device;
use std::alloc::Global;

/// A module with one port that answers, and sends no request on.
pub struct AdapterModule {
    device: Device,
}

// (A derive would be written, and proved, anew in each crate above.)
impl Drop for AdapterModule {
    fn drop(self) {
        let AdapterModule { device: _ } = self;
    }
}

impl AdapterModule {
    /// Such a module in the initial state of its config; NoMemory where an allocation is refused.
    pub fn new(alloc: Global, config: ModuleConfig) -> Result<AdapterModule, NoMemory>
        requires { config.kind ≡ ModuleKind.Adapter }
        ensures config { IfOk result (λ m. config_of_adapter m ≡ config) }
        ensures state { IfOk result (λ m. state_of_adapter m ≡ initial_state config) }
    {
        let device = Device::new(alloc, config)?;
        Ok(AdapterModule { device })
    }

    /// Its time, in microseconds.
    pub fn now(&self) -> u64
        ensures { result ≡ (state_of_adapter self.now).now }
    {
        self.device.now()
    }

    /// The first time, in microseconds, at which a request is given up or a side of a connection
    /// has been silent for too long; None where nothing waits. It takes no memory.
    pub fn first_deadline(&self) -> Option<u64>
        ensures { (time : ℕ) → is_past time result ≡ is_any_due time (state_of_adapter self.now) }
    {
        self.device.first_deadline()
    }

    /// The same time in time that is logarithmic in the rooms, for each request that went and each
    /// connection whose first deadline moved away or went since the last call. Nothing changes that
    /// a caller sees, and it takes no memory.
    pub fn next_due(&mut self) -> Option<u64>
        ensures value { (time : ℕ) → is_past time result
            ≡ is_any_due time (state_of_adapter self.old) }
        ensures after { state_of_adapter self.new ≡ state_of_adapter self.old }
        ensures config { config_of_adapter self.new ≡ config_of_adapter self.old }
    {
        self.device.next_due()
    }

    /// The incarnation of the connection ids that it draws: their high 16 bits, until a Reset.
    pub fn id_incarnation(&self) -> u16
        ensures { result ≡ incarnation (state_of_adapter self.now).hops.next }
    {
        self.device.id_incarnation()
    }

    /// The incarnation of the request numbers that it draws: their high 16 bits, until a Reset.
    pub fn number_incarnation(&self) -> u16
        ensures { result ≡ incarnation (state_of_adapter self.now).pendings.next }
    {
        self.device.number_incarnation()
    }
}

impl Module for AdapterModule {
    ghost use Rattle.cip_module.specs.Kinds.{config_of_adapter, state_of_adapter};

    ghost config_of = { config_of_adapter };

    ghost state_of = { state_of_adapter };

    ghost paired = { λ m. m.device.fit.paired };

    ghost rooms = { λ m. record
        { pendings = m.device.fit.pending_room; hops = m.device.fit.hop_room } };

    fn config(&self) -> &ModuleConfig {
        self.device.config()
    }

    fn step(&mut self, event: Event) -> Result<Vec<Output>, StepFault> {
        step(&mut self.device, event)
    }

    fn tables(&self) -> Result<Tables, NoMemory> {
        self.device.tables()
    }

    fn row_by_op(&self, op: u32) -> Result<Option<HopRow>, NoMemory> {
        self.device.row_by_op(op)
    }

    fn row_by_up(
        &self,
        id: u32,
        port: PortNumber,
        address: &Address,
    ) -> Result<Option<HopRow>, NoMemory> {
        self.device.row_by_up(id, port, address)
    }
}
