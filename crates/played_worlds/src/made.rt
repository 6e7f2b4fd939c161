//! Worlds that are made of new modules, and modules that are looked at, guarded so that memory can
//! be refused to that alone.
use crate::fault::Fault;
use crate::out::{Guard, Out};
use crate::plants::Plant;
use cip_base::Ms;
use cip_indexed::NewModule;
use cip_module::{Event, Module, ModuleConfig};
use cip_topology::Topology;
use cip_world::{NewFault, World, check_fresh};
use std::alloc::Global;

// Modules of this enum, each as a box of any module: a function can't hand such boxes out.
macro_rules! boxes {
    ($modules:ident, $alloc:expr, $made:expr) => {{
        let mut modules: Vec<Box<dyn Module + Send>> = Vec::new($alloc);
        for new in $made {
            let pushed = match new {
                $modules::Plain(module_) => modules.push(module_),
                $modules::Adapter(module_) => modules.push(module_),
                $modules::Indexed(module_) => modules.push(module_),
            };
            if pushed.is_err() {
                return Err(Fault::NoMemory);
            }
        }
        modules
    }};
}

pub(crate) use boxes;

/// Which modules of a chassis are made, in which order, and at which of them a millisecond passes.
#[derive(Drop)]
pub struct Chosen {
    places: Vec<usize>,
    ticked: Option<usize>,
}

// New modules of the configs at these places.
fn modules_at(
    alloc: Global,
    configs: &[ModuleConfig],
    places: &[usize],
) -> Result<Vec<NewModule>, Fault> {
    let mut made = Vec::new(alloc);
    for place in places {
        let config = configs.get(*place).ok_or(Fault::Line)?;
        made.push(NewModule::new(alloc, config.copy(alloc)?)?)?;
    }
    Ok(made)
}

fn digit(byte: u8) -> usize {
    usize::from(byte.wrapping_sub(b'0'))
}

impl Chosen {
    /// `PLACES` or `PLACES TICKED`, a digit for each place. The second counts among the first.
    pub fn of(alloc: Global, words: &str) -> Result<Chosen, Fault> {
        let (places, ticked) = match words.split_once(' ') {
            Some((places, ticked)) => (places, ticked.as_bytes().first().copied()),
            None => (words, None),
        };
        let places = places.bytes().map(|byte| digit(byte)).collect(alloc)?;
        let ticked = ticked.map(|byte| digit(byte));
        Ok(Chosen { places, ticked })
    }

    /// These modules, new but for the millisecond.
    pub fn modules(&self, alloc: Global, topology: &Topology) -> Result<Vec<NewModule>, Fault> {
        let mut made = modules_at(alloc, topology.configs(), self.places.as_slice())?;
        if let Some(place) = self.ticked {
            tick(made.get_mut(place).ok_or(Fault::Line)?)?;
        }
        Ok(made)
    }
}

fn tick(made: &mut NewModule) -> Result<(), Fault> {
    let tick = Event::Tick(Ms::new(1).ok_or(Fault::Line)?);
    let stepped = match made {
        NewModule::Plain(module_) => module_.step(tick),
        NewModule::Adapter(module_) => module_.step(tick),
        NewModule::Indexed(module_) => module_.step(tick),
    };
    match stepped {
        Ok(_) => Ok(()),
        Err(_) => Err(Fault::NoMemory),
    }
}

/// What is made of the modules.
#[derive(Clone, Copy)]
pub enum Trial {
    /// A world.
    New,
    /// They are looked at.
    Check,
}

// What is said of new modules, with what stands about that.
fn said(
    out: &mut Out,
    plant: Plant,
    trial: Trial,
    chosen: &Chosen,
    guard: Guard,
) -> Result<Option<NewFault>, Fault> {
    let alloc = out.alloc();
    let topology = plant.topology(alloc)?;
    let made = chosen.modules(alloc, &topology)?;
    let modules = boxes!(NewModule, alloc, made);
    // (what the marks say is looked at when no box is left to be given up)
    let begun = out.begin(guard);
    let fault = match trial {
        Trial::New => World::new(alloc, topology, modules).err(),
        Trial::Check => check_fresh(alloc, &topology, modules.as_slice()).err(),
    };
    begun?;
    out.end(guard)?;
    Ok(fault)
}

/// Makes modules, and a world of them or a look at them, between the marks. Where memory is
/// refused, the lines tell so, and modules are made `anew` for the same without marks.
pub fn tried(out: &mut Out, plant: Plant, trial: Trial, chosen: &Chosen) -> Result<(), Fault> {
    let mut fault = said(out, plant, trial, chosen, Guard::Marks)?;
    if fault == Some(NewFault::NoMemory) {
        out.put("no memory\nanew\n")?;
        fault = said(out, plant, trial, chosen, Guard::Nothing)?;
    }
    match fault {
        None => out.put("fresh\n"),
        Some(fault) => {
            let told = format!(in out.alloc(); "{fault}\n")?;
            out.put(told.as_str())
        }
    }
}
