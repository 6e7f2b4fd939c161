//! The command group: what a module's own application asks for.
ghost use Rattle.std.specs.Prelude.{◌≡◌, ◌∷◌, [], ℕ, ◌≤◌, ◌<◌, ◌^◌, true, false, List, IfErr};
ghost use Rattle.std.specs.Option.{option_to_list};
ghost use Rattle.cip_open.specs.Open.{FitWidth};
ghost use Rattle.cip_unconnected.specs.Unconnected.{Fits};
ghost use Rattle.cip_unconnected.specs.Reading.{unconnected_of};
ghost use Rattle.cip_pending.specs.declared.entry.UpSide.TheVariants.{Local};
ghost use Rattle.cip_event.specs.Params.{widened};
ghost use Rattle.cip_hops.specs.Hops.{hop_by_op};
ghost use Rattle.cip_steps.specs.Code.Commands.{IsNew};
ghost use Rattle.cip_routing.specs.CommandRows.{send_row};
ghost use Rattle.cip_routing.specs.UnconnectedRows.{unconnected_row};
ghost use Rattle.cip_routing.specs.Table.{open_of, send_effects, open_command_effects};
ghost use Rattle.cip_routing.specs.Table.{close_command_effects, enter_effects, set_effects};
ghost use Rattle.cip_routing.specs.Table.{unconnected_effects, with_spending};
ghost use Rattle.cip_steps.specs.Code.Device.{state_of_device};
ghost use Rattle.cip_steps.specs.Code.Does.{Handled, Handles};
ghost use Rattle.cip_steps.specs.Code.Reacts.{entered_output, ReactsWhole};

use crate::device::Device;
use crate::making::Making;
use crate::reaction::Reaction;
use cip_base::{Bytes, NoMemory, Timing, Triad};
use cip_close::{CloseFields, CloseView};
use cip_event::{LargeParams, OpenParams, Output, Refused};
use cip_open::{OpenFields, OpenView};
use cip_pending::UpSide;
use cip_routing::{datum_down, fitted, no_bytes};
use cip_segment::Path;
use cip_unconnected::UnconnectedView;

impl Device {
    // A Send that is taken.
    fn take(&mut self, op: u32, view: UnconnectedView<'_>) -> Result<Reaction, NoMemory>
        requires absent { IsNew (state_of_device self.old) op }
        requires fits { Fits (unconnected_of view) }
        ensures { ReactsWhole self.old self.new (with_spending (Local op)
            (unconnected_effects (Local op) (unconnected_of view.entry)
            (unconnected_row self.old.config self.old.pendings (unconnected_of view.entry))))
            result }
    {
        self.reserves_op()?;
        let reaction = self.unconnected(Making::Anew, UpSide::Local { op }, view)?;
        self.spends(op);
        Ok(reaction)
    }

    /// A Send: handled as the Unconnected_Send that it spells, with its op as the up side. NoMemory
    /// where an allocation is refused: then nothing has changed.
    pub fn send(&mut self, op: u32, view: UnconnectedView<'_>) -> Result<Reaction, NoMemory>
        ensures { ReactsWhole self.old self.new
            (send_effects self.old.config (state_of_device self.old) op
            (unconnected_of view.entry) (send_row (state_of_device self.old) op
            (unconnected_of view.entry))) result }
    {
        match self.send_row(op, view) {
            Ok(()) => self.take(op, view),
            Err(fault) => Ok(Reaction::Whole(Output::Refused(fault))),
        }
    }

    // The fields of the open, large or not, that a command spells.
    fn open_fields(&self, large: bool, timing: Timing, params: &LargeParams) -> OpenFields
        requires { large ≡ false → (params.now.ot_params < 2 ^ 16)
            × (params.now.to_params < 2 ^ 16) }
        ensures spelled { (path : List ℕ) → record { fields = result; path = path }
            ≡ open_of self.now.config.identity large timing path params.now }
        ensures width { FitWidth result }
    {
        let identity = self.config.settings().identity.fields();
        OpenFields {
            timing,
            ot_id: 0,
            to_id: 0,
            triad: Triad {
                serial: params.serial,
                vendor: identity.vendor,
                originator: identity.serial,
            },
            multiplier: params.multiplier,
            ot_rpi: params.ot_rpi,
            ot_params: params.ot_params,
            to_rpi: params.to_rpi,
            to_params: params.to_params,
            transport: params.transport,
            large,
        }
    }

    // An open that is taken.
    fn open_anew(
        &mut self,
        op: u32,
        large: bool,
        timing: Timing,
        path: &Path,
        params: &LargeParams,
    ) -> Result<Reaction, NoMemory>
        requires absent { IsNew (state_of_device self.old) op }
        requires width { large ≡ false → (params.now.ot_params < 2 ^ 16)
            × (params.now.to_params < 2 ^ 16) }
        ensures { ReactsWhole self.old self.new
            (open_command_effects self.old.config (state_of_device self.old)
            op (open_of self.old.config.identity large timing path.now params.now)) result }
    {
        let fields = self.open_fields(large, timing, params);
        let view = OpenView {
            fields,
            path: path.view(),
        };
        self.reserves_op()?;
        self.open(Making::Anew, UpSide::Local { op }, &view)
    }

    // An open, large or not: handled as the request that it spells, with its op as the up side.
    fn open_spelled(
        &mut self,
        op: u32,
        large: bool,
        timing: Timing,
        path: &Path,
        params: &LargeParams,
    ) -> Result<Reaction, NoMemory>
        requires { large ≡ false → (params.now.ot_params < 2 ^ 16)
            × (params.now.to_params < 2 ^ 16) }
        ensures { ReactsWhole self.old self.new
            (open_command_effects self.old.config (state_of_device self.old)
            op (open_of self.old.config.identity large timing path.now params.now)) result }
    {
        match self.op_row(op) {
            Ok(()) => self.open_anew(op, large, timing, path, params),
            Err(fault) => Ok(Reaction::Whole(Output::Refused(fault))),
        }
    }

    /// An Open: handled as the Forward_Open that it spells, with its op as the up side. NoMemory
    /// where an allocation is refused: then nothing has changed.
    pub fn open_command(
        &mut self,
        op: u32,
        timing: Timing,
        path: &Path,
        params: &OpenParams,
    ) -> Result<Reaction, NoMemory>
        ensures { ReactsWhole self.old self.new
            (open_command_effects self.old.config (state_of_device self.old)
            op (open_of self.old.config.identity false timing path.now (widened params.now)))
            result }
    {
        self.open_spelled(op, false, timing, path, &params.widened())
    }

    /// A LargeOpen: handled as the Large_Forward_Open that it spells, in the same way.
    pub fn large_open_command(
        &mut self,
        op: u32,
        timing: Timing,
        path: &Path,
        params: &LargeParams,
    ) -> Result<Reaction, NoMemory>
        ensures { ReactsWhole self.old self.new
            (open_command_effects self.old.config (state_of_device self.old)
            op (open_of self.old.config.identity true timing path.now params.now)) result }
    {
        self.open_spelled(op, true, timing, path, params)
    }

    /// A Close of the connection that the op `of` opened: handled as the Forward_Close that it
    /// spells. NoMemory as before.
    pub fn close_command(&mut self, op: u32, of: u32, timing: Timing) -> Result<Reaction, NoMemory>
        ensures { ReactsWhole self.old self.new
            (close_command_effects (state_of_device self.old) op of timing)
            result }
    {
        let hop = match self.close_command_row(op, of) {
            Ok(hop) => hop,
            Err(fault) => return Ok(Reaction::Whole(Output::Refused(fault))),
        };
        let path = hop.opening.path.copy(self.alloc)?;
        let fields = CloseFields {
            timing,
            triad: hop.opening.triad,
        };
        self.reserves_op()?;
        let view = CloseView {
            fields,
            path: path.view(),
        };
        let sender = UpSide::Local { op: of };
        self.close(Making::Anew, UpSide::Local { op }, &sender, &view)
    }

    /// What an Enter puts out, a datum by the connection that the op opened, which lacks its bytes;
    /// or why it is refused.
    pub fn entered(&self, of: u32, bytes: &[u8]) -> Result<Output, Refused>
        ensures { Handled self.now self.now (enter_effects bytes.now (hop_by_op self.now.hops of))
            (entered_output bytes.now result ∷ []) }
    {
        self.hops.is_within();
        let hop = self.enter_row(of, bytes)?;
        Ok(datum_down(hop, no_bytes(self.alloc)))
    }

    /// An Enter, whose bytes go on as they are, but for a buffer with far more room than bytes.
    /// They come back where memory is refused.
    pub fn enter(&self, of: u32, bytes: Bytes) -> Result<Output, Bytes>
        ensures done { Handles self.now self.now (enter_effects bytes (hop_by_op self.now.hops of))
            result }
        ensures back { IfErr result (λ back. back ≡ bytes) }
    {
        match self.entered(of, bytes.as_slice()) {
            Ok(output) => Ok(output.filled(fitted(self.alloc, bytes)?)),
            Err(fault) => Ok(Output::Refused(fault)),
        }
    }

    /// A Set of an assembly, which has no output where it is taken.
    pub fn set(&mut self, instance: u32, bytes: &Bytes) -> Option<Output>
        ensures { Handled self.old self.new
            (set_effects (state_of_device self.old) instance bytes.now)
            (option_to_list result) }
    {
        if let Err(fault) = self.set_row(instance, bytes.as_slice()) {
            return Some(Output::Refused(fault));
        }
        self.writes(instance, bytes.as_slice());
        None
    }
}
