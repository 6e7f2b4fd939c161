//! The tables of a module as they are shown.
ghost use Rattle.std.specs.Prelude.{IfOk};
ghost use Rattle.cip_routing.specs.Views.{ShowsState};
ghost use Rattle.cip_steps.specs.Code.Device.{state_of_device};

use crate::device::Device;
use cip_base::NoMemory;
use cip_routing::{
    AssemblyRows, HopRows, Ops, PendingRows, Tables, assembly_rows, hop_rows, pending_rows,
};

impl Device {
    /// The state, as lists in rising key.
    pub fn tables(&self) -> Result<Tables, NoMemory>
        ensures { IfOk result (ShowsState (state_of_device self.now)) }
    {
        let pendings = PendingRows::of(pending_rows(self.alloc, &self.pendings)?);
        let hops = HopRows::of(hop_rows(self.alloc, &self.hops)?);
        let assemblies = AssemblyRows::of(assembly_rows(self.alloc, &self.target)?);
        let ops = Ops::of(Vec::from_slice(self.alloc, &self.ops.ops)?);
        Ok(Tables {
            now: self.clock.now(),
            last_id: self.hops.last(),
            last_number: self.pendings.last(),
            pendings,
            hops,
            assemblies,
            ops,
        })
    }
}
