//! What holds of every topology.
ghost use Rattle.std.specs.Prelude.{◌≡◌, ℕ, Option, Some, None, option_and_then};
ghost use Rattle.cip_base.specs.Words.{Octets};
ghost use Rattle.cip_segment.specs.Reading.{HopAt, hop_of};
ghost use Rattle.cip_chassis.specs.Plan.{Plan, IsTopology};
ghost use Rattle.cip_chassis.specs.Nodes.{Way, across, node};
ghost use Rattle.cip_chassis.specs.Walk.{walk};

/// The way back leads where a frame came from: who answers by the way by which a frame came in is
/// heard by the way by which it went out.
pub fn the_way_back_leads_back()
    ensures { (t : Plan) → IsTopology t → (way there : Way) → across t way ≡ Some there
        → across t there ≡ Some way }
{}

/// A walk ends where the path has no hop, and goes on by the first hop where it has one.
pub fn walks_go_by_hops()
    ensures ends { (t : Plan) (m : ℕ) (path : Octets) → hop_of path ≡ None
        → walk t m path ≡ Some (record { at = m; path = path }) }
    ensures goes { (t : Plan) (m : ℕ) (path : Octets) (hop : HopAt) → hop_of path ≡ Some hop
        → walk t m path
        ≡ option_and_then (λ n. walk t n hop.rest) (node t m hop.port hop.address) }
{}
