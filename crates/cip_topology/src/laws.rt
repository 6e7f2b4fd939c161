//! What holds of every topology that a file says.
ghost use Rattle.std.specs.Prelude.{◌≡◌, Ok};
ghost use Rattle.toml.specs.Data.{Members};
ghost use Rattle.cip_chassis.specs.Plan.{Plan, IsTopology};
ghost use Rattle.cip_topology.specs.Documents.{HasTypes, Writes};
ghost use Rattle.cip_topology.specs.Files.{topology_of};

/// A document that writes out a topology, key by key, is loaded as that topology.
pub fn what_keeps_every_rule_is_loaded()
    ensures { (t : Plan) → IsTopology t → HasTypes t → (m : Members) → Writes t m
        → topology_of m ≡ Ok t }
{}
