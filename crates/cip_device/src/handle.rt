//! A handle to a device on the heap, in the form in which it crosses to C.
ghost use Rattle.std.specs.Prelude.{◌≡◌, Option, option_map};
ghost use Rattle.std.specs.declared.option.Option.TheVariants.{None, Some};
ghost use Rattle.std.specs.Coded.{coded_option};
ghost use Rattle.cip_device.specs.declared.held.Held.{Held as HeldValue};
ghost use Rattle.cip_device.specs.contracts.held.Held.{the_row as held_row};

use crate::bare::Bare;
use crate::held::Held;
use std::alloc::Global;
use std::marker::Model;
use std::ptr::null_mut;

/// A handle: one pointer, null where there is no device. `alloc` takes no bytes.
#[repr(C)]
pub struct CipDevice {
    at: *mut u8,
    alloc: Global,
    pub ghost held: { Option HeldValue } by { coded_option held_row.coded },
}

impl Model for CipDevice {
    ghost use Rattle.cip_device.specs.Handle.{device_owns};
    ghost use Rattle.cip_device.specs.contracts.held.Held.{the_row as held_row};

    ghost also_owns = { λ d. device_owns held_row d.alloc d.at d.held };
}

// What it holds may go to another thread.
unsafe impl Send for CipDevice {}

impl Drop for CipDevice {
    fn drop(self) {
        drop(self.into_box());
    }
}

impl CipDevice {
    /// No device.
    pub(crate) fn empty(alloc: Global) -> CipDevice
        ensures { result.held ≡ None }
    {
        CipDevice {
            at: null_mut(),
            alloc,
        }
    }

    fn of_bare(bare: Bare<Held, Global>) -> CipDevice
        ensures { result.held ≡ Some bare.held }
    {
        let Bare { at, alloc } = bare;
        CipDevice {
            at: at.cast(),
            alloc,
        }
    }

    fn into_bare(self) -> Option<Bare<Held, Global>>
        ensures { option_map (λ b. b.held) result ≡ self.held }
    {
        let CipDevice { at, alloc } = self;
        if at.is_null() {
            None
        } else {
            Some(Bare {
                at: at.cast(),
                alloc,
            })
        }
    }

    /// The device of the box.
    pub(crate) fn of(held: Box<Held>) -> CipDevice
        ensures { result.held ≡ Some held.value }
    {
        CipDevice::of_bare(Bare::of(held))
    }

    /// The box of the device, if there is one.
    pub(crate) fn into_box(self) -> Option<Box<Held>>
        ensures { option_map (λ b. b.value) result ≡ self.held }
    {
        match self.into_bare() {
            Some(bare) => Some(bare.boxed()),
            None => None,
        }
    }
}
