//! What holds of every Unconnected_Send: reading gives exactly what has the layout, and what is
//! written is read back.
ghost use Rattle.std.specs.Prelude.{◌≡◌, Ok};
ghost use Rattle.cip_segment.specs.Spelling.{IsReadable};
ghost use Rattle.cip_message.specs.Exact.{ReadsEach, Decides, RefusesBytes};
ghost use Rattle.cip_message.specs.RequestAt.{IsSent};
ghost use Rattle.cip_unconnected.specs.Unconnected.{Unconnected as Send, ReadsUnconnected};
ghost use Rattle.cip_unconnected.specs.Unconnected.{IsUnconnectedFault, unconnected_data};
ghost use Rattle.cip_unconnected.specs.Unconnected.{unconnected_bytes};
ghost use Rattle.cip_unconnected.specs.UnconnectedAt.{unconnected_at};

/// Reading data as that of Unconnected_Send gives the one record that has its layout, or the one
/// fault that fits.
pub fn unconnected_is_exact()
    ensures only { ReadsEach unconnected_at ReadsUnconnected }
    ensures verdict { Decides unconnected_at ReadsUnconnected IsUnconnectedFault }
    ensures faults { RefusesBytes unconnected_at IsUnconnectedFault }
{}

/// The message that is written is read as a request to the Connection Manager, and its data as the
/// same record; as no other, whatever the route is.
pub fn written_unconnected_is_read()
    ensures request { (u : Send) → IsSent 0x52 (unconnected_data u) (unconnected_bytes u) }
    ensures data_ { (u : Send) → IsReadable u.route → unconnected_at (unconnected_data u) ≡ Ok u }
    ensures alone { (u v : Send) → unconnected_at (unconnected_data u) ≡ Ok v → v ≡ u }
{}
