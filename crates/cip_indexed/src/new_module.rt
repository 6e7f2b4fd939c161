//! New modules, each in a box of its own kind.
ghost use Rattle.std.specs.Prelude.{◌≡◌, IfOk, map};
ghost use Rattle.cip_routing.specs.State.{initial_state};
ghost use Rattle.cip_indexed.specs.NewModules.{config_of_new, state_of_new};

use crate::indexed::IndexedModule;
use cip_base::NoMemory;
use cip_module::{AdapterModule, ModuleConfig, ModuleKind, PlainModule};
use std::alloc::Global;

/// A new module in its box, of one of the three kinds. It becomes a box of any module where such
/// boxes are handed on: a function that made it so and handed it out could not say what is in it.
#[derive(Drop)]
pub enum NewModule {
    Plain(Box<PlainModule>),
    Adapter(Box<AdapterModule>),
    Indexed(Box<IndexedModule>),
}

impl NewModule {
    /// A module of the config's kind, in the initial state of the config. NoMemory where an
    /// allocation is refused.
    pub fn new(alloc: Global, config: ModuleConfig) -> Result<NewModule, NoMemory>
        ensures config { IfOk result (λ m. config_of_new m ≡ config) }
        ensures state { IfOk result (λ m. state_of_new m ≡ initial_state config) }
    {
        match config.settings().kind {
            ModuleKind::Plain => {
                let module_ = PlainModule::new(alloc, config)?;
                Ok(NewModule::Plain(Box::new(alloc, module_)?))
            }
            ModuleKind::Adapter => {
                let module_ = AdapterModule::new(alloc, config)?;
                Ok(NewModule::Adapter(Box::new(alloc, module_)?))
            }
            ModuleKind::Indexed => {
                let module_ = IndexedModule::new(alloc, config)?;
                Ok(NewModule::Indexed(Box::new(alloc, module_)?))
            }
        }
    }
}

/// New modules of these configs, in their order. NoMemory where an allocation is refused.
pub fn new_modules(alloc: Global, configs: &[ModuleConfig]) -> Result<Vec<NewModule>, NoMemory>
    ensures configs { IfOk result (λ made. map config_of_new made.items ≡ configs.now) }
    ensures states { IfOk result
        (λ made. map state_of_new made.items ≡ map initial_state configs.now) }
{
    let mut made = Vec::new(alloc);
    for i in 0..configs.len() {
        let config = configs[i].copy(alloc)?;
        made.push(NewModule::new(alloc, config)?)?;
    }
    Ok(made)
}
