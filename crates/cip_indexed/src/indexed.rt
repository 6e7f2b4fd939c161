//! A module that originates, routes and answers. What goes on of a message, and what goes up, is
//! the buffer in which it came.
ghost use Rattle.std.specs.Prelude.{◌≡◌, ℕ, ◌<◌, [], IfOk};
ghost use Rattle.cip_base.specs.Counts.{incarnation};
ghost use Rattle.cip_hops.specs.Hops.{is_past};
ghost use Rattle.cip_routing.specs.Deadlines.{is_any_due};
ghost use Rattle.std.specs.Vec.{vec_capacity};
ghost use Rattle.cip_config.specs.declared.config.ModuleKind.{ModuleKind as Kind};
ghost use Rattle.cip_event.specs.declared.event.Body.TheVariants as bodies;
ghost use Rattle.cip_event.specs.declared.event.Event.TheVariants as events;
ghost use Rattle.cip_event.specs.declared.event.Command.TheVariants.{Enter};
ghost use Rattle.cip_routing.specs.State.{initial_state};
ghost use Rattle.cip_routing.specs.Steps.{IsStep, IsStepFault};
ghost use Rattle.cip_indexed.specs.Indexed.{config_of_indexed, state_of_indexed};

use crate::edited::{put_out, sent};
use cip_base::{Address, Bytes, NoMemory, PortNumber};
use cip_hops::Side;
use cip_module::{
    Body, Command, Device, Event, HopRow, Module, ModuleConfig, ModuleKind, Output, StepFault,
    Tables, react_to_enter, react_to_reply, react_to_request, step,
};
use std::alloc::Global;

/// A module that originates, routes and answers. What goes on of a message, and what goes up, is
/// the buffer in which it came, edited and handed on.
pub struct IndexedModule {
    device: Device,
    alloc: Global,
}

// (A derive would be written, and proved, anew in each crate above.)
impl Drop for IndexedModule {
    fn drop(self) {
        let IndexedModule {
            device: _,
            alloc: _,
        } = self;
    }
}

impl IndexedModule {
    /// Such a module in the initial state of its config; NoMemory where an allocation is refused.
    pub fn new(alloc: Global, config: ModuleConfig) -> Result<IndexedModule, NoMemory>
        requires { config.kind ≡ ModuleKind.Indexed }
        ensures config { IfOk result (λ m. config_of_indexed m ≡ config) }
        ensures state { IfOk result (λ m. state_of_indexed m ≡ initial_state config) }
    {
        let device = Device::new(alloc, config)?;
        Ok(IndexedModule { device, alloc })
    }

    /// Its time, in microseconds.
    pub fn now(&self) -> u64
        ensures { result ≡ (state_of_indexed self.now).now }
    {
        self.device.now()
    }

    /// The first time, in microseconds, at which a request is given up or a side of a connection
    /// has been silent for too long; None where nothing waits. It takes no memory.
    pub fn first_deadline(&self) -> Option<u64>
        ensures { (time : ℕ) → is_past time result ≡ is_any_due time (state_of_indexed self.now) }
    {
        self.device.first_deadline()
    }

    /// The same time in time that is logarithmic in the rooms, for each request that went and each
    /// connection whose first deadline moved away or went since the last call. Nothing changes that
    /// a caller sees, and it takes no memory.
    pub fn next_due(&mut self) -> Option<u64>
        ensures value { (time : ℕ) → is_past time result
            ≡ is_any_due time (state_of_indexed self.old) }
        ensures after { state_of_indexed self.new ≡ state_of_indexed self.old }
        ensures config { config_of_indexed self.new ≡ config_of_indexed self.old }
    {
        self.device.next_due()
    }

    /// The incarnation of the connection ids that it draws: their high 16 bits, until a Reset.
    pub fn id_incarnation(&self) -> u16
        ensures { result ≡ incarnation (state_of_indexed self.now).hops.next }
    {
        self.device.id_incarnation()
    }

    /// The incarnation of the request numbers that it draws: their high 16 bits, until a Reset.
    pub fn number_incarnation(&self) -> u16
        ensures { result ≡ incarnation (state_of_indexed self.now).pendings.next }
    {
        self.device.number_incarnation()
    }

    // A request: its bytes go on, edited, or it comes back whole.
    #[inline(always)]
    fn request(
        &mut self,
        port: PortNumber,
        from: Address,
        number: u32,
        bytes: Bytes,
    ) -> Result<Vec<Output>, StepFault>
        ensures ok { IfOk result (λ outputs. IsStep (config_of_indexed self.old)
            (state_of_indexed self.old) (events.Frame port from (bodies.Request number bytes))
            (state_of_indexed self.new) outputs.items) }
        ensures fault { IsStepFault (config_of_indexed self.old) (state_of_indexed self.old)
            (events.Frame port from (bodies.Request number bytes)) (state_of_indexed self.new)
            result }
        ensures config { config_of_indexed self.new ≡ config_of_indexed self.old }
    {
        let Ok(outputs) = Vec::with_capacity(self.alloc, 1) else {
            let body = Body::Request { number, bytes };
            return Err(StepFault::NoMemory(Event::Frame { port, from, body }));
        };
        match react_to_request(&mut self.device, port, &from, number, bytes.as_slice()) {
            Ok(reaction) => Ok(put_out(outputs, reaction, bytes)),
            Err(_) => {
                let body = Body::Request { number, bytes };
                Err(StepFault::NoMemory(Event::Frame { port, from, body }))
            }
        }
    }

    // A reply: its bytes go up, edited, or it comes back whole.
    #[inline(always)]
    fn reply(
        &mut self,
        port: PortNumber,
        from: Address,
        number: u32,
        bytes: Bytes,
    ) -> Result<Vec<Output>, StepFault>
        ensures ok { IfOk result (λ outputs. IsStep (config_of_indexed self.old)
            (state_of_indexed self.old) (events.Frame port from (bodies.Reply number bytes))
            (state_of_indexed self.new) outputs.items) }
        ensures fault { IsStepFault (config_of_indexed self.old) (state_of_indexed self.old)
            (events.Frame port from (bodies.Reply number bytes)) (state_of_indexed self.new)
            result }
        ensures config { config_of_indexed self.new ≡ config_of_indexed self.old }
    {
        let Ok(outputs) = Vec::with_capacity(self.alloc, 1) else {
            let body = Body::Reply { number, bytes };
            return Err(StepFault::NoMemory(Event::Frame { port, from, body }));
        };
        let reaction = react_to_reply(&mut self.device, port, &from, number, bytes.as_slice());
        Ok(put_out(outputs, reaction, bytes))
    }

    // A datum: its bytes go on, or it comes back whole.
    #[inline(always)]
    fn datum(
        &mut self,
        port: PortNumber,
        from: Address,
        id: u32,
        bytes: Bytes,
    ) -> Result<Vec<Output>, StepFault>
        ensures ok { IfOk result (λ outputs. IsStep (config_of_indexed self.old)
            (state_of_indexed self.old) (events.Frame port from (bodies.Data id bytes))
            (state_of_indexed self.new) outputs.items) }
        ensures fault { IsStepFault (config_of_indexed self.old) (state_of_indexed self.old)
            (events.Frame port from (bodies.Data id bytes)) (state_of_indexed self.new) result }
        ensures config { config_of_indexed self.new ≡ config_of_indexed self.old }
    {
        let Ok(mut outputs) = Vec::with_capacity(self.alloc, 1) else {
            let body = Body::Data { id, bytes };
            return Err(StepFault::NoMemory(Event::Frame { port, from, body }));
        };
        let onward = self
            .device
            .pass_on(Side::Up, port, &from, id, bytes.as_slice());
        match onward {
            Some(onward) => {
                outputs.push_reserved(sent(onward, bytes));
                Ok(outputs)
            }
            None => Ok(self.datum_up_or_here(outputs, port, &from, id, bytes)),
        }
    }

    // A datum that does not go down: it goes up, or ends here. There is room for what it puts out.
    #[inline(never)]
    fn datum_up_or_here(
        &mut self,
        mut outputs: Vec<Output>,
        port: PortNumber,
        from: &Address,
        id: u32,
        bytes: Bytes,
    ) -> Vec<Output>
        requires none { outputs.items ≡ [] }
        requires room { 0 < vec_capacity outputs }
        ensures step { IsStep (config_of_indexed self.old) (state_of_indexed self.old)
            (events.Frame port from.now (bodies.Data id bytes)) (state_of_indexed self.new)
            result.items }
        ensures config { config_of_indexed self.new ≡ config_of_indexed self.old }
    {
        let onward = self
            .device
            .pass_on(Side::Down, port, from, id, bytes.as_slice());
        let output = match onward {
            Some(onward) => sent(onward, bytes),
            None => self.device.take_datum(port, from, id, bytes),
        };
        outputs.push_reserved(output);
        outputs
    }
}

impl IndexedModule {
    // An Enter: its bytes go on, or it comes back whole.
    fn enter(&mut self, of: u32, bytes: Bytes) -> Result<Vec<Output>, StepFault>
        ensures ok { IfOk result (λ outputs. IsStep (config_of_indexed self.old)
            (state_of_indexed self.old) (events.Command (Enter of bytes))
            (state_of_indexed self.new) outputs.items) }
        ensures fault { IsStepFault (config_of_indexed self.old) (state_of_indexed self.old)
            (events.Command (Enter of bytes)) (state_of_indexed self.new) result }
        ensures config { config_of_indexed self.new ≡ config_of_indexed self.old }
    {
        let Ok(outputs) = Vec::with_capacity(self.alloc, 1) else {
            return Err(StepFault::NoMemory(Event::Command(Command::Enter { of, bytes })));
        };
        let reaction = react_to_enter(&self.device, of, bytes.as_slice());
        Ok(put_out(outputs, reaction, bytes))
    }

    // What is no frame.
    #[inline(never)]
    fn own(&mut self, event: Event) -> Result<Vec<Output>, StepFault>
        ensures ok { IfOk result (λ outputs. IsStep (config_of_indexed self.old)
            (state_of_indexed self.old) event (state_of_indexed self.new) outputs.items) }
        ensures fault { IsStepFault (config_of_indexed self.old) (state_of_indexed self.old)
            event (state_of_indexed self.new) result }
        ensures config { config_of_indexed self.new ≡ config_of_indexed self.old }
    {
        match event {
            Event::Command(Command::Enter { of, bytes }) => self.enter(of, bytes),
            other => step(&mut self.device, other),
        }
    }
}

impl Module for IndexedModule {
    ghost use Rattle.cip_indexed.specs.Indexed.{config_of_indexed, state_of_indexed};

    ghost config_of = { config_of_indexed };

    ghost state_of = { state_of_indexed };

    ghost paired = { λ m. m.device.fit.paired };

    ghost rooms = { λ m. record
        { pendings = m.device.fit.pending_room; hops = m.device.fit.hop_room } };

    fn config(&self) -> &ModuleConfig {
        self.device.config()
    }

    #[inline(always)]
    fn step(&mut self, event: Event) -> Result<Vec<Output>, StepFault> {
        match event {
            Event::Frame { port, from, body } => match body {
                Body::Request { number, bytes } => self.request(port, from, number, bytes),
                Body::Reply { number, bytes } => self.reply(port, from, number, bytes),
                Body::Data { id, bytes } => self.datum(port, from, id, bytes),
            },
            other => self.own(other),
        }
    }

    fn tables(&self) -> Result<Tables, NoMemory> {
        self.device.tables()
    }

    fn row_by_op(&self, op: u32) -> Result<Option<HopRow>, NoMemory> {
        self.device.row_by_op(op)
    }

    fn row_by_up(
        &self,
        id: u32,
        port: PortNumber,
        address: &Address,
    ) -> Result<Option<HopRow>, NoMemory> {
        self.device.row_by_up(id, port, address)
    }
}
