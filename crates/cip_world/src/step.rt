//! A step of one of several modules.
ghost use Rattle.std.specs.Prelude.{◌≡◌, ◌<◌, IfOk, IfErr, OnErr, map, vec_len};
ghost use Rattle.cip_world.specs.Worlds.{IsStepOf, IsFull};

use cip_routing::{Event, Module, Output, StepFault};

/// One step of the module at a place; the other modules stay as they are.
pub(crate) fn step_at(
    modules: &mut Vec<Box<dyn Module + Send>>,
    m: usize,
    event: Event,
) -> Result<Vec<Output>, StepFault>
    requires { m < vec_len modules.old }
    ensures configs { map (λ b. config_of b) modules.new.items
        ≡ map (λ b. config_of b) modules.old.items }
    ensures err { OnErr result
        (map (λ b. state_of b) modules.new.items ≡ map (λ b. state_of b) modules.old.items) }
    ensures full { IfErr result (λ fault. IsFull (map (λ b. config_of b) modules.old.items)
        (map (λ b. state_of b) modules.old.items) m event fault) }
    ensures ok { IfOk result (λ outputs. IsStepOf (map (λ b. config_of b) modules.old.items)
        (map (λ b. state_of b) modules.old.items) m event
        (map (λ b. state_of b) modules.new.items) outputs.items) }
{
    modules[m].step(event)
}
