//! The data group: a datum of a connection on its way.
ghost use Rattle.std.specs.Prelude.{◌≡◌, ◌∷◌, [], None, Some, IfSome};
ghost use Rattle.cip_hops.specs.Hops.{hop_by_up, hop_by_down};
ghost use Rattle.cip_event.specs.declared.event.Body.TheVariants as bodies;
ghost use Rattle.cip_event.specs.declared.event.Event.TheVariants as events;
ghost use Rattle.cip_event.specs.declared.event.Output.TheVariants as outputs;
ghost use Rattle.cip_routing.specs.Effects.{applied};
ghost use Rattle.cip_routing.specs.DataRows.{id_row};
ghost use Rattle.cip_routing.specs.Steps.{IsStep};
ghost use Rattle.cip_routing.specs.Table.{datum_effects};
ghost use Rattle.cip_routing.specs.Code.Plans.{written_effects};
ghost use Rattle.cip_steps.specs.Code.Does.{Handled};
ghost use Rattle.cip_steps.specs.Code.Device.{state_of_device};

use crate::device::Device;
use cip_base::{Address, Bytes, PortNumber, Triad};
use cip_config::port_of;
use cip_event::{Dropped, Output};
use cip_hops::{HopDown, Onward, Side};
use cip_routing::{Writing, behind_count, datum_down, datum_up, written_of};

impl Device {
    // An end writes a datum without its sequence count, and keeps the count.
    fn write_datum(&mut self, triad: &Triad, writing: Writing, bytes: &[u8])
        ensures after { state_of_device self.new ≡ applied self.old.config
            (state_of_device self.old) (written_effects triad.now bytes.now (Some writing)) }
        ensures config { self.new.config ≡ self.old.config }
    {
        match writing.count {
            None => self.writes(writing.instance, bytes),
            Some(count) => {
                self.writes(writing.instance, behind_count(bytes));
                self.counts(triad, Side::Up, count);
            }
        }
    }

    // An end takes a datum, and writes it where it is not that of the last count.
    fn consume_datum(
        &mut self,
        triad: Triad,
        instance: u32,
        writing: Option<Writing>,
        bytes: Bytes,
    ) -> Output
        ensures value { result ≡ outputs.Consumed triad instance bytes }
        ensures after { state_of_device self.new ≡ applied self.old.config
            (state_of_device self.old) (written_effects triad bytes writing) }
        ensures config { self.new.config ≡ self.old.config }
    {
        if let Some(writing) = writing {
            self.write_datum(&triad, writing, bytes.as_slice());
        }
        Output::Consumed {
            triad,
            instance,
            bytes,
        }
    }

    // A datum under an id of a port that the module has.
    #[inline(always)]
    fn datum_by_id(&mut self, port: PortNumber, from: &Address, id: u32, bytes: Bytes) -> Output
        ensures { Handled self.old self.new (datum_effects bytes (id_row bytes
            (hop_by_up self.old.hops id port from.now)
            (hop_by_down self.old.hops id port from.now))) (result ∷ []) }
    {
        self.hops.is_within();
        if let Some(hop) = self.hops.by_up(id, port, from) {
            if bytes.as_slice().len() != usize::from(hop.opening.ot_size) {
                return Output::Dropped(Dropped::WrongSize);
            }
            return match &hop.opening.down {
                HopDown::Link { .. } => {
                    let output = datum_down(hop, bytes);
                    self.renews(Side::Up, id);
                    output
                }
                HopDown::End { consume, .. } => {
                    let (triad, instance) = (hop.opening.triad, *consume);
                    let writing = written_of(hop, instance, bytes.as_slice());
                    self.renews(Side::Up, id);
                    self.consume_datum(triad, instance, writing, bytes)
                }
            };
        }
        match self.hops.by_down(id, port, from) {
            Some(hop) => {
                if bytes.as_slice().len() != usize::from(hop.opening.to_size) {
                    return Output::Dropped(Dropped::WrongSize);
                }
                let output = datum_up(hop, bytes);
                self.renews(Side::Down, id);
                output
            }
            None => Output::Dropped(Dropped::UnknownId),
        }
    }

    /// Where a datum goes on that comes in by this side of a connection. The new state is that of
    /// the routing table, and its one output is this datum, sent so. None where it does not go on
    /// from this side: nothing changes. It takes no memory.
    #[tactic(auto, unfolding(cip_routing::specs::DataRows::data_row))]
    #[inline(always)]
    pub fn pass_on(
        &mut self,
        side: Side,
        port: PortNumber,
        from: &Address,
        id: u32,
        bytes: &[u8],
    ) -> Option<Onward>
        ensures on { IfSome result (λ onward. IsStep self.old.config (state_of_device self.old)
            (events.Frame port from.now (bodies.Data id bytes.now)) (state_of_device self.new)
            (outputs.Send onward.port onward.address (bodies.Data onward.id bytes.now) ∷ [])) }
        ensures stays { result ≡ None → state_of_device self.new ≡ state_of_device self.old }
        ensures config { self.new.config ≡ self.old.config }
    {
        if port_of(self.config.settings(), port).is_none() {
            return None;
        }
        self.hops.is_within();
        let now = self.clock.now();
        self.hops.pass_on(side, id, port, from, bytes.len(), now)
    }

    /// A datum: the new state and the output are those of the routing table. What goes on has the
    /// bytes that came. It takes no memory.
    #[tactic(auto, unfolding(cip_routing::specs::DataRows::data_row))]
    #[inline(always)]
    pub fn take_datum(&mut self, port: PortNumber, from: &Address, id: u32, bytes: Bytes) -> Output
        ensures done { IsStep self.old.config (state_of_device self.old)
            (events.Frame port from.now (bodies.Data id bytes)) (state_of_device self.new)
            (result ∷ []) }
        ensures config { self.new.config ≡ self.old.config }
    {
        if port_of(self.config.settings(), port).is_none() {
            return Output::Dropped(Dropped::UnknownId);
        }
        self.datum_by_id(port, from, id, bytes)
    }
}
