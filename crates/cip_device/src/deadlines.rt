//! The next deadline of a device.
ghost use Rattle.std.specs.Prelude.{◌+◌, ◌*◌, ◌<◌, ◌≤◌, ℕ};

/// The least number of milliseconds, from 1, after which the deadline is past.
pub(crate) fn milliseconds_until(now: u64, deadline: u64) -> u64
    ensures some { 0 < result }
    ensures past { deadline ≤ now + 1000 * result }
    ensures least { (shorter : ℕ) → 0 < shorter → shorter < result
        → now + 1000 * shorter < deadline }
{
    if deadline <= now {
        return 1;
    }
    (deadline - now - 1) / 1000 + 1
}
