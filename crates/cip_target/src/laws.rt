//! What holds of every open that ends at a target, and of every reset.
ghost use Rattle.std.specs.Prelude.{◌≡◌, ◌↔◌, ℕ, Bool, List, length, IsTrue, Ok};
ghost use Rattle.cip_base.specs.Words.{Octets};
ghost use Rattle.cip_open.specs.Open.{Open};
ghost use Rattle.cip_message.specs.Request.{Request};
ghost use Rattle.cip_target.specs.declared.config.AssemblyConfig.{AssemblyConfig as Config};
ghost use Rattle.cip_target.specs.declared.link.EndLink.{EndLink as Link};
ghost use Rattle.cip_target.specs.declared.identity.IdentityFields.{IdentityFields as Fields};
ghost use Rattle.cip_target.specs.Assemblies.{AssemblyMap, HasSize};
ghost use Rattle.cip_target.specs.Objects.{Objects, IsReset, reads_reset};
ghost use Rattle.cip_target.specs.Ends.{Ends, HasPoints, HasSizes, end_row, fresh, ends_after};
ghost use Rattle.cip_target.specs.Ends.{row_at, accepted, consumed, released, reset};

/// An open that fits has an application path, and its link has the three instances that the path
/// names and the transport class that is asked.
pub fn points_of_an_end()
    ensures { (m : AssemblyMap) (owned : ℕ → Bool) (o : Open) (link : Link)
        → end_row m owned o ≡ Ok link → HasPoints o link }
{}

/// A request that reads as a reset has service 05, names class 1, instance 1, and has at most one
/// byte of data; and each such request does, whatever the target.
pub fn what_reads_as_reset()
    ensures { (t : Objects) (r : Request) → IsTrue (reads_reset t r) ↔ IsReset r }
{}

/// A target has the sizes that it was made with, whatever is called in between.
pub fn sizes_stay()
    ensures made { (identity : Fields) (configs : List Config)
        → HasSizes (fresh identity configs) configs }
    ensures answered { (t : Ends) (configs : List Config) (r : Request)
        → HasSizes t configs → HasSizes (ends_after t r) configs }
    ensures accepted { (t : Ends) (configs : List Config) (o : Open) (link : Link)
        → row_at t o ≡ Ok link → HasSizes t configs → HasSizes (accepted t link o) configs }
    ensures consumed { (t : Ends) (configs : List Config) (i : ℕ) (d : Octets)
        → HasSize t.objects.assemblies i (length d) → HasSizes t configs
        → HasSizes (consumed t i d) configs }
    ensures released { (t : Ends) (configs : List Config) (i : ℕ)
        → HasSizes t configs → HasSizes (released t i) configs }
    ensures reset { (t : Ends) (configs : List Config)
        → HasSizes t configs → HasSizes (reset t) configs }
{}

/// A target that is reset is as it was made: fresh of its identity and of the configuration whose
/// sizes its assemblies have.
pub fn reset_is_as_made()
    ensures { (t : Ends) (configs : List Config)
        → HasSizes t configs → reset t ≡ fresh t.objects.identity configs }
{}
