//! What an end sends of an assembly: a datum by each connection that takes its data from it, in
//! rising triad.
ghost use Rattle.std.specs.Prelude.{◌≡◌, ◌≤◌, ◌++◌, ◌∷◌, [], length, IfOk, OnOk};
ghost use Rattle.std.specs.FinMap as map;
ghost use Rattle.cip_steps.specs.Code.Does.{HandlesAs};
ghost use Rattle.cip_steps.specs.Code.Device.{state_of_device};
ghost use Rattle.cip_routing.specs.Produced.{reads_from, next_count, datum_bytes};
ghost use Rattle.cip_steps.specs.Code.Made.{made_all, count_for, counted_all, open_hops};
ghost use Rattle.cip_routing.specs.Table.{produce_effects};

use crate::device::Device;
use cip_base::{Bytes, MAX_DATUM, NoMemory};
use cip_event::Output;
use cip_hops::{Hop, HopDown, Side};
use cip_routing::datum_up;
use std::alloc::Global;

// Whether a connection takes its data from this assembly.
fn reads_from(hop: &Hop, instance: u32) -> bool
    ensures { result ≡ reads_from instance hop.now.opening.down }
{
    match &hop.opening.down {
        HopDown::Link { .. } => false,
        HopDown::End { produce, .. } => *produce == instance,
    }
}

// 1 first, then one more each time, 0 after 65,535.
fn next_count(last: Option<u16>) -> u16
    ensures { result ≡ next_count last }
{
    match last {
        None => 1,
        Some(65535) => 0,
        Some(count) => count + 1,
    }
}

// One datum: in class 1 it begins with its sequence count.
fn datum_of(alloc: Global, hop: &Hop, held: &[u8]) -> Result<Bytes, NoMemory>
    requires { length held.now ≤ MAX_DATUM }
    ensures { IfOk result (λ bytes. bytes ≡ datum_bytes held.now hop.now) }
{
    let mut bytes = Vec::with_capacity(alloc, held.len() + 2)?;
    if hop.opening.class == 1 {
        let count = next_count(hop.produced);
        bytes.push((count % 256) as u8)?;
        bytes.push((count / 256) as u8)?;
    }
    bytes.extend_from_slice(held)?;
    Ok(Bytes::of(bytes))
}

// The count that a datum of this connection begins with, if it sends one and counts.
fn count_for(hop: &Hop, instance: u32) -> Option<u16>
    ensures { result ≡ count_for instance hop.now }
{
    if reads_from(hop, instance) && hop.opening.class == 1 {
        Some(next_count(hop.produced))
    } else {
        None
    }
}

// One more output. Room is asked for one at first, which is mostly the only one.
fn put(outputs: &mut Vec<Output>, output: Output) -> Result<(), NoMemory>
    ensures { OnOk result (outputs.new.items ≡ outputs.old.items ++ output ∷ []) }
{
    if outputs.is_empty() {
        outputs.reserve_exact(1)?;
    }
    outputs.push(output)?;
    Ok(())
}

impl Device {
    // The data that go up, in rising triad.
    fn data_of(&self, instance: u32, held: &[u8]) -> Result<Vec<Output>, NoMemory>
        requires { length held.now ≤ MAX_DATUM }
        ensures { IfOk result (λ outputs. outputs.items
            ≡ made_all instance held.now (open_hops self.now.hops)) }
    {
        self.hops.is_within();
        let mut outputs = Vec::new(self.alloc);
        let mut near = 0;
        let mut after = None;
        while let Some(hop) = self.hops.next_near(after.as_ref(), &mut near) {
            if reads_from(hop, instance) {
                let bytes = datum_of(self.alloc, hop, held)?;
                put(&mut outputs, datum_up(hop, bytes))?;
            }
            after = Some(hop.opening.triad);
        }
        Ok(outputs)
    }

    // Each of these connections counts one more.
    fn count_data(&mut self, instance: u32)
        ensures after { state_of_device self.new ≡ record (state_of_device self.old)
            { hops = counted_all instance (open_hops self.old.hops) self.old.hops } }
        ensures config { self.new.config ≡ self.old.config }
    {
        let mut near = 0;
        let mut after = None;
        while let Some(hop) = self.hops.next_near(after.as_ref(), &mut near) {
            self.hops.is_within();
            let triad = hop.opening.triad;
            if let Some(count) = count_for(hop, instance) {
                self.counts(&triad, Side::Down, count);
            }
            after = Some(triad);
        }
    }

    /// A Produce of an assembly: a datum for each connection that produces it, in rising triad.
    /// NoMemory where an allocation is refused: then nothing has changed.
    pub fn produce(&mut self, instance: u32) -> Result<Vec<Output>, NoMemory>
        ensures { HandlesAs (λ v. v.items) self.old self.new
            (produce_effects (state_of_device self.old) instance
            (map.get self.old.target.objects.assemblies instance)) result }
    {
        let held = match self.produce_row(instance) {
            Ok(held) => held,
            Err(fault) => {
                let mut outputs = Vec::with_capacity(self.alloc, 1)?;
                outputs.push_reserved(Output::Refused(fault));
                return Ok(outputs);
            }
        };
        self.hops.is_within();
        let outputs = self.data_of(instance, held)?;
        self.count_data(instance);
        Ok(outputs)
    }
}
