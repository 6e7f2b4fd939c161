//! What holds of every request that waits.
ghost use Rattle.std.specs.Prelude.{◌≡◌, ℕ, List, Some};
ghost use Rattle.cip_pending.specs.declared.entry.Entry.{Entry as Waiting};
ghost use Rattle.cip_pending.specs.Pendings.{Pendings, waiting_at};

/// What waits for a reply by a port from an address was sent by that port to that address.
pub fn replies_are_looked_for_where_asked()
    ensures { (p : Pendings) (number port : ℕ) (from : List ℕ) (entry : Waiting)
        → waiting_at p number port from ≡ Some entry
        → (entry.port ≡ port) × (entry.address ≡ from) }
{}
