//! What lies on the heap behind a handle.
ghost use Rattle.std.specs.Prelude.{◌≡◌, ◌≢◌, ◌↔◌, ℕ, ◌<◌, ◌≤◌, [], true, length, find, option_map};
ghost use Rattle.std.specs.Prelude.{Some, IfOk};
ghost use Rattle.cip_indexed.specs.NewModules.{config_of_new, state_of_new};
ghost use Rattle.cip_base.specs.Counts.{incarnation};
ghost use Rattle.cip_hops.specs.Hops.{is_past};
ghost use Rattle.cip_routing.specs.Deadlines.{is_any_due};
ghost use Rattle.cip_routing.specs.State.{initial_state};
ghost use Rattle.cip_routing.specs.Steps.{IsStep, IsStepFault};
ghost use Rattle.cip_routing.specs.Views.{ShowsState};
ghost use Rattle.cip_device.specs.Shown.{shown_of, IsDeviceStep, IsFull, IsReady, IsWhy};
ghost use Rattle.cip_device.specs.Outputs.{IsNext, IsNextOutline, next_length};
ghost use Rattle.cip_device.specs.Reads.{is_row_of, IsRead, IsCounted, HasNone};
ghost use Rattle.cip_device.specs.Rows.{IsConnectionAt, IsPendingAt, NoConnectionAt, NoPendingAt};
ghost use Rattle.cip_device.specs.Deadlines.{IsSoonest, IsAtRest, Waits};
ghost use Rattle.cip_device.specs.Incarnations.{AreIncarnations};
ghost use Rattle.cip_device.specs.Statuses.{IsDeadlineStatus, IsNextStatus, IsReadStatus};
ghost use Rattle.cip_device.specs.Statuses.{IsStepStatus, IsTableStatus};

use crate::deadlines::milliseconds_until;
use crate::numbers::{CLOCK_FULL, DONE, NO_MEMORY, NOTHING, SHORT, UNREAD};
use crate::output::{CipOutput, outline, payload};
use crate::rows::{CipConnectionRow, CipPendingRow, connection_of, pending_of};
use cip_base::NoMemory;
use cip_indexed::NewModule;
use cip_module::{AssemblyRow, Event, Module, ModuleConfig, Output, StepFault, Tables};
use std::alloc::Global;
use std::collections::VecDeque;

// One event, to a module of any kind.
fn module_step(module_: &mut NewModule, event: Event) -> Result<Vec<Output>, StepFault>
    ensures ok { IfOk result (λ outputs. IsStep (config_of_new module_.old)
        (state_of_new module_.old) event (state_of_new module_.new) outputs.items) }
    ensures fault { IsStepFault (config_of_new module_.old) (state_of_new module_.old) event
        (state_of_new module_.new) result }
    ensures config { config_of_new module_.new ≡ config_of_new module_.old }
{
    match module_ {
        NewModule::Plain(inner) => inner.as_mut().step(event),
        NewModule::Adapter(inner) => inner.as_mut().step(event),
        NewModule::Indexed(inner) => inner.as_mut().step(event),
    }
}

// The state of a module of any kind.
fn module_tables(module_: &NewModule) -> Result<Tables, NoMemory>
    ensures { IfOk result (ShowsState (state_of_new module_.now)) }
{
    match module_ {
        NewModule::Plain(inner) => inner.as_ref().tables(),
        NewModule::Adapter(inner) => inner.as_ref().tables(),
        NewModule::Indexed(inner) => inner.as_ref().tables(),
    }
}

// The time of a module of any kind, in microseconds.
fn module_now(module_: &NewModule) -> u64
    ensures { result ≡ (state_of_new module_.now).now }
{
    match module_ {
        NewModule::Plain(inner) => inner.as_ref().now(),
        NewModule::Adapter(inner) => inner.as_ref().now(),
        NewModule::Indexed(inner) => inner.as_ref().now(),
    }
}

// The incarnation of the connection ids of a module of any kind.
fn module_id_incarnation(module_: &NewModule) -> u16
    ensures { result ≡ incarnation (state_of_new module_.now).hops.next }
{
    match module_ {
        NewModule::Plain(inner) => inner.as_ref().id_incarnation(),
        NewModule::Adapter(inner) => inner.as_ref().id_incarnation(),
        NewModule::Indexed(inner) => inner.as_ref().id_incarnation(),
    }
}

// The incarnation of the request numbers of a module of any kind.
fn module_number_incarnation(module_: &NewModule) -> u16
    ensures { result ≡ incarnation (state_of_new module_.now).pendings.next }
{
    match module_ {
        NewModule::Plain(inner) => inner.as_ref().number_incarnation(),
        NewModule::Adapter(inner) => inner.as_ref().number_incarnation(),
        NewModule::Indexed(inner) => inner.as_ref().number_incarnation(),
    }
}

// The first time at which something is due at a module of any kind; None where nothing ever is.
fn module_deadline(module_: &mut NewModule) -> Option<u64>
    ensures value { (time : ℕ) → is_past time result ≡ is_any_due time (state_of_new module_.old) }
    ensures after { state_of_new module_.new ≡ state_of_new module_.old }
    ensures config { config_of_new module_.new ≡ config_of_new module_.old }
{
    match module_ {
        NewModule::Plain(inner) => inner.as_mut().next_due(),
        NewModule::Adapter(inner) => inner.as_mut().next_due(),
        NewModule::Indexed(inner) => inner.as_mut().next_due(),
    }
}

fn row_of(rows: &[AssemblyRow], instance: u16) -> Option<&AssemblyRow>
    ensures { option_map (λ row. row.now) result ≡ find (is_row_of instance) rows.now }
{
    rows.iter().find(|row| row.instance == instance)
}

/// A module, and what its last step put out and nobody has read yet.
#[derive(Drop)]
pub struct Held {
    pub(crate) module_: NewModule,
    pub(crate) outputs: VecDeque<Output>,
}

impl Held {
    /// The module of a config, in its initial state.
    pub(crate) fn new(alloc: Global, config: ModuleConfig) -> Result<Held, NoMemory>
        ensures { IfOk result (λ h. shown_of h ≡ record
            { config = config; state = initial_state config; outputs = [] }) }
    {
        let module_ = NewModule::new(alloc, config)?;
        Ok(Held {
            module_,
            outputs: VecDeque::new(alloc),
        })
    }

    /// Whether no output waits.
    pub(crate) fn is_ready(&self) -> bool
        ensures { (result ≡ true) ↔ ((shown_of self.now).outputs ≡ []) }
    {
        self.outputs.is_empty()
    }

    /// Takes one event; UNREAD where outputs of the step before wait.
    pub(crate) fn step(&mut self, event: Event) -> u32
        ensures done { result ≡ 0 → IsDeviceStep (Some (shown_of self.old)) event
            (Some (shown_of self.new)) }
        ensures kept { result ≢ 0 → shown_of self.new ≡ shown_of self.old }
        ensures why { IsWhy result (Some (shown_of self.old)) event }
        ensures known { result ≢ 4 }
        ensures among { IsStepStatus result }
        ensures full { IsReady (Some (shown_of self.old)) → IsFull (Some (shown_of self.old)) event
            → result ≡ 6 }
    {
        if !self.outputs.is_empty() {
            return UNREAD;
        }
        match module_step(&mut self.module_, event) {
            Ok(outputs) => {
                self.outputs = VecDeque::from_vec(outputs);
                DONE
            }
            Err(StepFault::NoMemory(_)) => NO_MEMORY,
            Err(StepFault::ClockFull(_)) => CLOCK_FULL,
        }
    }

    /// Tells the next output, and takes it off: NOTHING where there is none, SHORT where its bytes
    /// do not fit.
    pub(crate) fn next(&mut self, output: &mut CipOutput, buffer: &mut [u8]) -> u32
        ensures done { result ≡ 0 → IsNext (shown_of self.old) output.new buffer.new
            (shown_of self.new) }
        ensures kept { result ≢ 0 → shown_of self.new ≡ shown_of self.old }
        ensures known { result ≢ 1 }
        ensures nothing { (result ≡ 7) ↔ ((shown_of self.old).outputs ≡ []) }
        ensures short { result ≡ 8 → length buffer.old < output.new.length }
        ensures longer { (result ≡ 8)
            ↔ (length buffer.old < next_length (shown_of self.old).outputs) }
        ensures outline { result ≡ 8 → IsNextOutline (shown_of self.old).outputs output.new }
        ensures among { IsNextStatus result }
    {
        let Some(next) = self.outputs.front() else {
            return NOTHING;
        };
        *output = outline(next);
        let bytes = payload(next);
        if bytes.len() > buffer.len() {
            return SHORT;
        }
        buffer[..bytes.len()].copy_from_slice(bytes);
        self.outputs.pop_front();
        DONE
    }

    /// The bytes of an assembly: NOTHING where it has none of this instance, SHORT where they do
    /// not fit, NO_MEMORY.
    pub(crate) fn assembly(&self, instance: u16, count: &mut usize, buffer: &mut [u8]) -> u32
        ensures done { result ≡ 0 → IsRead (shown_of self.now) instance count.new buffer.new }
        ensures known { result ≢ 1 }
        ensures nothing { result ≡ 7 → HasNone (shown_of self.now) instance }
        ensures short { result ≡ 8 → length buffer.old < count.new }
        ensures fits { result ≡ 0 → count.new ≤ length buffer.old }
        ensures counted { result ≡ 8 → IsCounted (shown_of self.now) instance count.new }
        ensures among { IsReadStatus result }
    {
        let Ok(tables) = module_tables(&self.module_) else {
            return NO_MEMORY;
        };
        let Some(row) = row_of(tables.assemblies.as_slice(), instance) else {
            return NOTHING;
        };
        let bytes = row.bytes.as_slice();
        *count = bytes.len();
        if bytes.len() > buffer.len() {
            return SHORT;
        }
        buffer[..bytes.len()].copy_from_slice(bytes);
        DONE
    }

    /// The connection at this place: NOTHING past the last one, NO_MEMORY.
    pub(crate) fn connection(&self, at: usize, out: &mut CipConnectionRow) -> u32
        ensures done { result ≡ 0 → IsConnectionAt (shown_of self.now) at out.new }
        ensures known { result ≢ 1 }
        ensures nothing { result ≡ 7 → NoConnectionAt (Some (shown_of self.now)) at }
        ensures among { IsTableStatus result }
    {
        let Ok(tables) = module_tables(&self.module_) else {
            return NO_MEMORY;
        };
        let Some(row) = tables.hops.as_slice().get(at) else {
            return NOTHING;
        };
        *out = connection_of(row);
        DONE
    }

    /// The request that waits at this place: NOTHING past the last one, NO_MEMORY.
    pub(crate) fn pending(&self, at: usize, out: &mut CipPendingRow) -> u32
        ensures done { result ≡ 0 → IsPendingAt (shown_of self.now) at out.new }
        ensures known { result ≢ 1 }
        ensures nothing { result ≡ 7 → NoPendingAt (Some (shown_of self.now)) at }
        ensures among { IsTableStatus result }
    {
        let Ok(tables) = module_tables(&self.module_) else {
            return NO_MEMORY;
        };
        let Some(row) = tables.pendings.as_slice().get(at) else {
            return NOTHING;
        };
        *out = pending_of(row);
        DONE
    }

    /// The shortest tick at which something happens: NOTHING where none does anything. It takes no
    /// memory, and time that is logarithmic in the rooms, for each request that went and each
    /// connection whose first deadline moved away or went since the last call.
    pub(crate) fn next_deadline(&mut self, milliseconds: &mut u64) -> u32
        ensures done { result ≡ 0 → IsSoonest (shown_of self.old) milliseconds.new }
        ensures kept { shown_of self.new ≡ shown_of self.old }
        ensures known { result ≢ 1 }
        ensures nothing { result ≡ 7 → IsAtRest (Some (shown_of self.old)) }
        ensures waits { (result ≡ 0) ↔ Waits (shown_of self.old) }
        ensures among { IsDeadlineStatus result }
    {
        let Some(deadline) = module_deadline(&mut self.module_) else {
            return NOTHING;
        };
        *milliseconds = milliseconds_until(module_now(&self.module_), deadline);
        DONE
    }

    /// The incarnations of the connection ids and of the request numbers.
    pub(crate) fn incarnation(&self, ids: &mut u16, numbers: &mut u16)
        ensures { AreIncarnations (shown_of self.now) ids.new numbers.new }
    {
        *ids = module_id_incarnation(&self.module_);
        *numbers = module_number_incarnation(&self.module_);
    }
}
