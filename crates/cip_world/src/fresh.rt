//! Whether modules are those of a topology, and as at the beginning.
ghost use Rattle.std.specs.Prelude.{◌≡◌, ◌↔◌, IfErr, IfNone, IfOk, IfSome, IsTrue, OnOk, length};
ghost use Rattle.std.specs.Prelude.{map};
ghost use Rattle.cip_routing.specs.State.{initial_state};
ghost use Rattle.cip_world.specs.Fresh.{AreFresh, DifferFirst, IsNewFault};
ghost use Rattle.cip_world.specs.declared.fresh.NewFault.TheVariants.{NoMemory as NoNewMemory};

use cip_base::{ModuleId, NoMemory};
use cip_chassis::Topology;
use cip_routing::{Module, ModuleConfig};
use std::alloc::Global;
use thiserror::Error;

/// Why no world was made of modules and a topology. They are looked at in this order; m is the
/// least module that the answer is true of.
#[derive(Clone, Copy, Debug, Error, PartialEq, Eq)]
pub enum NewFault {
    /// There are not as many modules as the topology has.
    #[error("there are not as many modules as in the topology")]
    Count,
    /// Module m has another config than the topology says.
    #[error("module {} has another config than the topology says", .0.0)]
    Config(ModuleId),
    /// Module m is not as at the beginning.
    #[error("module {} is not as at the beginning", .0.0)]
    NotFresh(ModuleId),
    /// An allocation was refused.
    #[error("out of memory")]
    NoMemory,
}

impl From<NoMemory> for NewFault {
    ghost from_gives = { λ _ fault. fault ≡ NoNewMemory };

    fn from(_refused: NoMemory) -> NewFault {
        NewFault::NoMemory
    }
}

fn has_config(boxed: &Box<dyn Module + Send>, config: &ModuleConfig) -> bool
    ensures { IsTrue result ↔ (config_of boxed.now ≡ config.now) }
{
    boxed.config().is(config)
}

// The least place where a module has another config.
fn first_other(modules: &[Box<dyn Module + Send>], configs: &[ModuleConfig]) -> Option<usize>
    requires { length modules.now ≡ length configs.now }
    ensures none { IfNone result (map (λ b. config_of b) modules.now ≡ configs.now) }
    ensures some { IfSome result (DifferFirst (map (λ b. config_of b) modules.now) configs.now) }
{
    for m in 0..modules.len() {
        if !has_config(&modules[m], &configs[m]) {
            return Some(m);
        }
    }
    None
}

/// Whether a module is in the first state of its config, as its tables tell. NoMemory where an
/// allocation is refused.
pub fn is_fresh(alloc: Global, boxed: &Box<dyn Module + Send>) -> Result<bool, NoMemory>
    ensures { IfOk result
        (λ fresh. IsTrue fresh ↔ (state_of boxed.now ≡ initial_state (config_of boxed.now))) }
{
    let tables = boxed.tables()?;
    tables.are_initial(alloc, boxed.config())
}

// The least place where a module is not in the first state of its config.
fn first_stale(alloc: Global, modules: &[Box<dyn Module + Send>]) -> Result<Option<usize>, NoMemory>
    ensures none { IfOk result (λ m. IfNone m (map (λ b. state_of b) modules.now
        ≡ map initial_state (map (λ b. config_of b) modules.now))) }
    ensures some { IfOk result (λ m. IfSome m (DifferFirst (map (λ b. state_of b) modules.now)
        (map initial_state (map (λ b. config_of b) modules.now)))) }
{
    for m in 0..modules.len() {
        if !is_fresh(alloc, &modules[m])? {
            return Ok(Some(m));
        }
    }
    Ok(None)
}

/// Whether modules are those of a topology, in their order, and as at the beginning. Count, then
/// Config, then NotFresh, each where it is the first that holds; NoMemory where an allocation is
/// refused.
pub fn check_fresh(
    alloc: Global,
    topology: &Topology,
    modules: &[Box<dyn Module + Send>],
) -> Result<(), NewFault>
    ensures fresh { OnOk result (AreFresh topology.now (map (λ b. config_of b) modules.now)
        (map (λ b. state_of b) modules.now)) }
    ensures fault { IfErr result (IsNewFault topology.now (map (λ b. config_of b) modules.now)
        (map (λ b. state_of b) modules.now)) }
{
    let configs = topology.configs();
    if modules.len() != configs.len() {
        return Err(NewFault::Count);
    }
    if let Some(m) = first_other(modules, configs) {
        return Err(NewFault::Config(ModuleId(m)));
    }
    match first_stale(alloc, modules)? {
        Some(m) => Err(NewFault::NotFresh(ModuleId(m))),
        None => Ok(()),
    }
}
